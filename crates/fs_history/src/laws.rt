//! The laws of histories.
ghost use Rattle.fs_history.specs.Laws.{AtIsWhole, BeforeIsWhole, LaterIsUnseen, AtIsUntil, BatchByBatch, ChangesAreTheDifference, ChangesOfTheLast, VersionsShow, ChainShows, ChainEndsWithNewest, ChainsTell, AtOwnNames, ListedByName, ReadsStay, SerialByBatch};

use fs_write::batches_are_lawful;

/// The laws of histories. At the time of the last batch and later all batches count, and a batch that comes later changes
/// nothing of what was there before it: the documents at a time are those that the batches up to it leave. A batch is carried out on what was there just before its time, and its changes are
/// what differs. A name's document at a time is that of its newest version then, which its chain from a floor tells for
/// each time from there on; its newest document is at the end of its chain; and histories with the same chains have the
/// same documents from the floor on. Each document stands at its own name, so those of a time are a list in the order of
/// names. What a read showed stays behind a batch that doesn't touch it, and a history in which each batch read what those before it
/// leave is serial.
pub fn histories_are_lawful()
    ensures at_whole { AtIsWhole }
    ensures before_whole { BeforeIsWhole }
    ensures later { LaterIsUnseen }
    ensures until { AtIsUntil }
    ensures batches { BatchByBatch }
    ensures changes { ChangesAreTheDifference }
    ensures last_changes { ChangesOfTheLast }
    ensures versions { VersionsShow }
    ensures chain { ChainShows }
    ensures newest { ChainEndsWithNewest }
    ensures chains_tell { ChainsTell }
    ensures own_names { AtOwnNames }
    ensures listed { ListedByName }
    ensures reads_stay { ReadsStay }
    ensures serial { SerialByBatch }
{
    batches_are_lawful();
}
