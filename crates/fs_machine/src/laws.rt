//! The laws of servers.
ghost use Rattle.fs_machine.specs.AnswersStand.{RefusalsStand, ResultsStand, PreparedStands};
ghost use Rattle.fs_machine.specs.ListenLaws.{CutsAreConsistent, RaisesNeverFall, ServedAreRaised, CurrentIsToldOnce, LoadsComeFirst, VersionsRise};
ghost use Rattle.fs_machine.specs.CommitsOnce.{RequestsCommitOnce};
ghost use Rattle.fs_machine.specs.Laws.{AbortedByTheLeast, AlwaysGrows, AlwaysKept, AlwaysSerial, DocumentsStay, HeldByTheLeast, OutcomesStay, ReadOnlyCommits, ReadOnlyGoesOn, RefusedIsNeverSeen, RepliesComeOnce, RetriedAsIfItCame, SameRepliesInAnyOrder, SettledInAnyOrder};
ghost use Rattle.fs_machine.specs.StreamLaws.{BatchesOnceInOrder, CommittedOnceInOrder, RepeatsAreAnsweredAlike, AcknowledgedIsCommitted, AtMostOncePerToken, KeptHasTheLastToken, OwnersAreTold, RepeatsAreTold};
ghost use Rattle.fs_machine.specs.ResetLaws.{FloorStaysUntilGivenUp, ResetsAreOfLostLoads, ResetsFollowCompaction};
ghost use Rattle.fs_machine.specs.RaiseLaws.{OthersStayQuiet, QuietUnlessReady, RaisedOnceDue, RaisedWhenReady};
ghost use Rattle.fs_machine.specs.FrontLaws.{ConsistentAtEachRaise, RaisesEndWhatIsTold, ToldGoesOn};
ghost use Rattle.fs_machine.specs.Given.{MessagesAreTaken, SaidIsGiven};
ghost use Rattle.fs_machine.specs.Causes.{AbortsNameTheirCause, WaitsNameTheirCause};
ghost use Rattle.fs_machine.specs.NotBothCommit.{NotBothCommit};
ghost use Rattle.fs_machine.specs.ReadLaws.{ReadsAreTrue, TimesOfReadsStay};

use fs_listen::listening_is_lawful;

/// What holds of every run of a server, whatever events come. The times of its history rise, those of the commits behind it
/// too; no two of these write one name, and those that are accepted have the results that they have on what the history leaves;
/// commits and sessions have numbers of their own (`kept`). The history only grows, by later batches (`grows`), so the documents of
/// a time that was released are the same ever after (`unchanged`).
///
/// What was computed for a pending commit stays right as long as it is pending, in whatever order others are settled
/// (`outcomes`). So any number of them leave the same, in whatever order they are settled (`any_order`), with the same replies in the
/// same order where none is refused (`same_replies`). The results that a commit is answered, and why one was refused as it was settled, are
/// what its writes come to on the documents just before its time in every later state (`results`, `refusals`). A request that is answered
/// by a number and a time has left the pending commit of these, with its writes, and it stays that until it is settled (`prepared`).
///
/// What waits, waits for the least of those that hold it, and what goes on has none (`held`): a commit for those that aren't released
/// and write one of its names, and in pessimistic mode a plain one for the open transactions that have read what it writes, and a read in
/// a read-write transaction for the commits that aren't released and touch it. A request that waited and goes on is carried out as if it
/// came then (`retried`).
///
/// A transaction that is aborted is told the least of those that it is in conflict with, and what is committed has none (`aborted`).
/// One that only reads never waits (`goes_on`) and is never aborted (`commits`). A request is told that it is aborted, and for what,
/// exactly where it is the commit of an open read-write transaction in conflict, which nothing refuses or holds; no other answer is
/// ABORTED (`told_aborted`). It is told that it waits, and for what, exactly where it is held and may wait (`told_held`). Of two
/// transactions that are open at once, each of which writes what the other has read, not both are committed (`not_both`). So whatever
/// events come, the history is serial: each of its batches had read what the batches before it leave (`serial`).
///
/// A read that is carried out is told the documents of its time, which can be read, and a read-write transaction has read from then on just what it
/// is told, behind what it had read (`reads`). The time at which an open transaction reads by itself is the one of its begin (`read_times`).
///
/// The commits that are let out and answered are the batches that the history has more, in its order: each is answered once, as it comes
/// to be seen (`replies`). One whose writes are refused is never seen (`refused`).
///
/// A session that listens is told of its targets so that whoever gathers all that it was told has, at each NO_CHANGE, just the views of
/// all its targets at that one time (`cuts`), which never falls (`times`): whenever targets were added, resumed, loaded or removed,
/// and however far each shard was matched. Where nothing is left to be done for it, that is the released time (`served`).
///
/// A session is told that a target is reset exactly as the target is loaded whose resume token is of a time that can't be read any more
/// (`resets`). What can be read begins where the server did, until times are given up (`floor`). So a target whose token is of a time
/// since then is reset only after a compaction (`compacted`).
///
/// A session that is ready and has room in its outbox is raised: what it is told ends with a NO_CHANGE at the time at which its targets are
/// together (`raised`). Else nothing is told (`quiet`), and to no other session (`others`). So one is raised whose targets are loaded, and
/// whose least position is due (`due`).
///
/// What a session was told is a front of what it is told later (`goes_further`). An event tells of a NO_CHANGE only at its end (`last`), and
/// at each NO_CHANGE among what was told the views are consistent (`each_cut`). Each target is told to be current once since it was added,
/// and at each NO_CHANGE was (`currents`). No position of a target is before its load (`positions`). The versions of a name that a session
/// is told never fall (`versions`).
///
/// A write stream takes one batch behind another, and finishes them in that order, each once, whatever was sent again and whoever owns the
/// stream by then; the response to each has the next token (`batches_once`). Of all requests that send it one token, one at most is taken
/// (`once_per_token`), and what isn't taken commits nothing: no request commits more than once (`requests_once`). Those that were committed
/// are the commits of the stream that were let out, in that order, with the times and results that they were answered (`committed_once`).
/// Each is in the history at that time, with its writes and their results, and nowhere else (`acknowledged`).
///
/// What is kept for who sends the last batch again is the response with which it was finished (`repeats`), whose token is the number of
/// finished batches (`kept_token`); and it is what that request is answered (`repeat_told`). Whoever owns the stream as a batch is finished
/// is sent the response, and nobody else is (`owners_told`).
///
/// All messages that come into the outbox of a session are those that are taken from it, in that order, and then those that wait there
/// still; those of one that leaves are lost (`messages`). What it is told of its targets there is what these say of them (`said`).
pub fn machines_are_lawful()
    ensures kept { AlwaysKept }
    ensures grows { AlwaysGrows }
    ensures unchanged { DocumentsStay }
    ensures outcomes { OutcomesStay }
    ensures results { ResultsStand }
    ensures refusals { RefusalsStand }
    ensures prepared { PreparedStands }
    ensures any_order { SettledInAnyOrder }
    ensures same_replies { SameRepliesInAnyOrder }
    ensures held { HeldByTheLeast }
    ensures aborted { AbortedByTheLeast }
    ensures told_aborted { AbortsNameTheirCause }
    ensures told_held { WaitsNameTheirCause }
    ensures not_both { NotBothCommit }
    ensures goes_on { ReadOnlyGoesOn }
    ensures commits { ReadOnlyCommits }
    ensures serial { AlwaysSerial }
    ensures retried { RetriedAsIfItCame }
    ensures reads { ReadsAreTrue }
    ensures read_times { TimesOfReadsStay }
    ensures replies { RepliesComeOnce }
    ensures refused { RefusedIsNeverSeen }
    ensures cuts { CutsAreConsistent }
    ensures times { RaisesNeverFall }
    ensures served { ServedAreRaised }
    ensures batches_once { BatchesOnceInOrder }
    ensures committed_once { CommittedOnceInOrder }
    ensures once_per_token { AtMostOncePerToken }
    ensures requests_once { RequestsCommitOnce }
    ensures acknowledged { AcknowledgedIsCommitted }
    ensures repeats { RepeatsAreAnsweredAlike }
    ensures resets { ResetsAreOfLostLoads }
    ensures floor { FloorStaysUntilGivenUp }
    ensures compacted { ResetsFollowCompaction }
    ensures raised { RaisedWhenReady }
    ensures quiet { QuietUnlessReady }
    ensures others { OthersStayQuiet }
    ensures due { RaisedOnceDue }
    ensures goes_further { ToldGoesOn }
    ensures last { RaisesEndWhatIsTold }
    ensures each_cut { ConsistentAtEachRaise }
    ensures currents { CurrentIsToldOnce }
    ensures positions { LoadsComeFirst }
    ensures versions { VersionsRise }
    ensures kept_token { KeptHasTheLastToken }
    ensures repeat_told { RepeatsAreTold }
    ensures owners_told { OwnersAreTold }
    ensures messages { MessagesAreTaken }
    ensures said { SaidIsGiven }
{
    listening_is_lawful();
}
