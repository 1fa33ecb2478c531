//! Reads the results of a commit's writes.
ghost use Rattle.fs_path.specs.Way.{place_of};
ghost use Rattle.serde_json.specs.View.{view as json};
ghost use Rattle.fs_json.specs.Answer.{Gives};
ghost use Rattle.fs_writejson.specs.Results.{write_result_at};
ghost use Rattle.fs_rpc.specs.ReadResults.{results_in};

use crate::names::WRITE_RESULTS;
use fs_json::{Bad, ReadsItem, member, read_each};
use fs_path::Way;
use fs_write::{WriteResult, WriteResults};
use fs_writejson::read_result;
use serde_json::Value;
use std::alloc::Global;

/// Reads the results of a commit's writes, of which there are none where the list is absent. (v1 reference,
/// `CommitResponse`.)
pub(crate) fn read_results(alloc: Global, v: &Value, way: &Way<'_>) -> Result<WriteResults, Bad>
    ensures { Gives (λ rs. rs) result (results_in (json v.now) (place_of way.now)) }
{
    match member(alloc, v, WRITE_RESULTS, way)? {
        Some(results) => read_each(alloc, &ResultReader, results, &way.member(WRITE_RESULTS)),
        None => Ok(WriteResults::new(alloc)),
    }
}

/// Reads a result of a list.
struct ResultReader;

impl ReadsItem for ResultReader {
    type Item = WriteResult;

    ghost reading = { λ _. write_result_at };

    fn read(&self, alloc: Global, item: &Value, way: &Way<'_>) -> Result<WriteResult, Bad> {
        read_result(alloc, item, way)
    }
}
