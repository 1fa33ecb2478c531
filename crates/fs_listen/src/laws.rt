//! The laws of listening.
ghost use Rattle.fs_listen.specs.Laws.{AlwaysTold, ConsistentCuts, CurrentsComeOnce, OrderedViewsAreAnswers, PositionsFollowLoads, ServedAreRaised, TimesNeverFall, VersionsNeverFall, ViewsHoldAnswers, ViewsOfNames};
ghost use Rattle.fs_listen.specs.ReadyLaws.{ReadyOnceDue, TogetherAtTheLeast};

use fs_history::histories_are_lawful;

/// The laws of listening. Over every run of adding, loading, matching, raising and removing targets, with a history that grows and
/// is compacted, a session that is raised has been told just the views of all its targets at one time, which never falls.
///
/// The view of a query has just the documents of the query's answer (`answers`), and put in the query's order they are that answer
/// (`ordered`). The view of names has the documents that there are of them (`names`).
///
/// At every point of a run a session was told just the views that were sent of its targets (`told`). Each target that is current was told
/// to be so once since it was added (`currents`). No position of a target is before its load (`positions`). The versions of a name that a
/// session was told never fall (`versions`). Targets that are loaded are together at their least position (`together`). Once that is due,
/// the session is ready (`ready`). Where nothing is left to be done for a session that listens to anything, it was raised at the released
/// time (`served`).
pub fn listening_is_lawful()
    ensures cuts { ConsistentCuts }
    ensures times { TimesNeverFall }
    ensures answers { ViewsHoldAnswers }
    ensures ordered { OrderedViewsAreAnswers }
    ensures names { ViewsOfNames }
    ensures told { AlwaysTold }
    ensures currents { CurrentsComeOnce }
    ensures positions { PositionsFollowLoads }
    ensures versions { VersionsNeverFall }
    ensures served { ServedAreRaised }
    ensures together { TogetherAtTheLeast }
    ensures ready { ReadyOnceDue }
{
    histories_are_lawful();
}
