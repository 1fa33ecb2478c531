//! The laws of targets.
ghost use Rattle.fs_target.specs.Laws.{AddingKeeps, FeedingKeeps, GrowthKeeps, LoadingKeeps, NoneKeep, RaisingKeeps, RemovingKeeps, TellsOfHistory, ViewsAreKept};

use fs_history::histories_are_lawful;
use fs_match::matching_is_lawful;
use fs_query::answers_are_lawful;

/// The laws of targets. What is kept of them tells, by the history that they listen to, what a raise has to: the view that was sent of
/// each, and its view at the time of the raise. That stays so whatever happens to them, and while the history grows.
pub fn targets_are_lawful()
    ensures views { ViewsAreKept }
    ensures told { TellsOfHistory }
    ensures none { NoneKeep }
    ensures raising { RaisingKeeps }
    ensures growth { GrowthKeeps }
    ensures adding { AddingKeeps }
    ensures removing { RemovingKeeps }
    ensures loading { LoadingKeeps }
    ensures feeding { FeedingKeeps }
{
    histories_are_lawful();
    matching_is_lawful();
    answers_are_lawful();
}
