//! The laws of matching.
ghost use Rattle.fs_match.specs.Laws.{ChangesDiffer, CutsDoNotCount, OneChangeTells, FittingByName, QueriesFollow, NamesFollow, MapsFollow, OthersDoNotCount};

use fs_write::batches_are_lawful;

/// The laws of matching. An event says `Change` only where the documents differ. Cursors, offset and limit don't count. Whoever has the
/// documents that fit at a time, and takes the events of the changes behind it one after another, has those that fit at the later
/// time: for each query and for each list of names, name by name, and so as a whole. The changes of other names don't count.
pub fn matching_is_lawful()
    ensures differ { ChangesDiffer }
    ensures cuts { CutsDoNotCount }
    ensures one { OneChangeTells }
    ensures by_name { FittingByName }
    ensures queries { QueriesFollow }
    ensures names { NamesFollow }
    ensures maps { MapsFollow }
    ensures others { OthersDoNotCount }
{
    batches_are_lawful();
}
