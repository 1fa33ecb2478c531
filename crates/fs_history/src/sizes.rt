//! What batches count in the limit of the journal.
ghost use Rattle.std.specs.Prelude.{◌≡◌, ◌-◌, ◌^◌, min, sum_by};
ghost use Rattle.fs_value.specs.Size.{document_size};
ghost use Rattle.fs_history.specs.Bytes.{sent_size as sent_size_of, shown_size as shown_size_of, commit_size as commit_size_of, batch_size as batch_size_of};

use crate::batch::Batch;
use crate::read::{Read, Reads};
use fs_value::{Documents, named_size, size};
use fs_write::{Act, Write, Writes};

// Bytes that each batch counts beside its documents.
const BATCH_EXTRA: u128 = 64;

fn sent_size(write: &Write) -> u128
    ensures { result ≡ min (sent_size_of write.now) (2 ^ 128 - 1) }
{
    match &write.act {
        Act::Set { name, fields } => named_size(name, fields.as_fields()),
        Act::Merge { name, fields, .. } => named_size(name, fields.as_fields()),
        Act::Delete { .. } => 0,
    }
}

fn all_sent(writes: &Writes) -> u128
    ensures { result ≡ min (sum_by sent_size_of writes.now) (2 ^ 128 - 1) }
{
    let mut size: u128 = 0;
    for write in writes.as_slice() {
        size = size.saturating_add(sent_size(write));
    }
    size
}

fn documents_size(documents: &Documents) -> u128
    ensures { result ≡ min (sum_by document_size documents.now) (2 ^ 128 - 1) }
{
    let mut all: u128 = 0;
    for document in documents.as_slice() {
        all = all.saturating_add(size(document));
    }
    all
}

/// What the documents count that a read showed, in bytes. A number that no `u128` holds is told as the greatest.
pub fn shown_size(read: &Read) -> u128
    ensures { result ≡ min (shown_size_of read.now) (2 ^ 128 - 1) }
{
    match read {
        Read::Name { shown: None, .. } => 0,
        Read::Name {
            shown: Some(document),
            ..
        } => size(document),
        Read::Query { shown, .. } => documents_size(shown),
    }
}

/// What the documents count that these reads showed, in bytes. A number that no `u128` holds is told as the greatest.
pub fn all_shown(reads: &Reads) -> u128
    ensures { result ≡ min (sum_by shown_size_of reads.now) (2 ^ 128 - 1) }
{
    let mut size: u128 = 0;
    for read in reads.as_slice() {
        size = size.saturating_add(shown_size(read));
    }
    size
}

/// What a batch of these writes counts, whose transaction had made these reads, in bytes. A number that no `u128` holds is
/// told as the greatest.
pub fn commit_size(writes: &Writes, reads: &Reads) -> u128
    ensures { result ≡ min (commit_size_of writes.now reads.now) (2 ^ 128 - 1) }
{
    BATCH_EXTRA
        .saturating_add(all_sent(writes))
        .saturating_add(all_shown(reads))
}

/// What a batch counts.
pub fn batch_size(batch: &Batch) -> u128
    ensures { result ≡ min (batch_size_of batch.now) (2 ^ 128 - 1) }
{
    commit_size(&batch.writes, &batch.reads)
}
