//! The documents that writes name.
ghost use Rattle.std.specs.Prelude.{◌≡◌, IfOk, IsTrue, List, true};
ghost use Rattle.std.specs.FinMap.{get, is_sorted};
ghost use Rattle.fs_history.specs.History.{whole};
ghost use Rattle.fs_history.specs.declared.batch.Batch.{Batch};
ghost use Rattle.fs_path.specs.NameOrder.{name_cmp};
ghost use Rattle.fs_path.specs.declared.name.DocName.{DocName};
ghost use Rattle.fs_store.specs.Shows.{Shows};
ghost use Rattle.fs_value.specs.Named.{by_name};
ghost use Rattle.fs_write.specs.Batch.{docs_of};
ghost use Rattle.fs_write.specs.WrittenName.{is_written};

use fs_history::histories_are_lawful;
use fs_store::Store;
use fs_value::{DocumentMap, Documents};
use fs_write::Write;
use std::alloc::{AllocError, Global};

/// The newest documents of the names that writes name, in the order of their names.
pub(crate) fn named_by(
    alloc: Global,
    store: &Store,
    writes: &[Write],
) -> Result<Documents, AllocError>
    ensures rising { IfOk result (λ ds. IsTrue (is_sorted name_cmp (by_name ds))) }
    ensures named { IfOk result (λ ds. (h : List Batch) → Shows h store.now.stored → (name : DocName) → is_written name writes.now ≡ true
        → get (docs_of ds) name ≡ get (whole h) name) }
{
    histories_are_lawful();
    let newest = store.absorbed();
    let mut there = DocumentMap::new(alloc);
    for write in writes {
        match store.get(write.name(), newest) {
            Some(document) => there.put(alloc, document.copy(alloc)?)?,
            None => {}
        }
    }
    there.documents(alloc)
}
