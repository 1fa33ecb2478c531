//! What holds of every script.
ghost use Rattle.std.specs.Prelude.{◌≡◌, ◌<◌, ◌∷◌, ◌++◌, ◌+ℤ◌, ℕ, List, [], Option, Some, None, pos, true, false};
ghost use Rattle.std.specs.FinMap.{get};
ghost use Rattle.fs_path.specs.declared.name.DocName.{DocName};
ghost use Rattle.fs_history.specs.History.{at, whole};
ghost use Rattle.fs_history.specs.Serial.{IsSerial};
ghost use Rattle.fs_machine.specs.Grows.{Grows};
ghost use Rattle.fs_machine.specs.Limits.{AreAllowed};
ghost use Rattle.fs_machine.specs.Request.{answered};
ghost use Rattle.fs_machine.specs.declared.config.Config.{Config};
ghost use Rattle.fs_machine.specs.declared.limits.Limits.{Limits};
ghost use Rattle.fs_machine.specs.declared.answer.Answer.TheVariants.{Reply};
ghost use Rattle.fs_request.specs.declared.message.Message.TheVariants as message;
ghost use Rattle.fs_request.specs.declared.request.Request.TheVariants.{GetDocument};
ghost use Rattle.fs_request.specs.declared.when.When.TheVariants.{Released};
ghost use Rattle.fs_value.specs.declared.document.Document.{Document};
ghost use Rattle.fs_replay.specs.BetweenLines.{IsBetweenLines};
ghost use Rattle.fs_replay.specs.Commits.{is_commit, is_written_in, may_move, will_be_written};
ghost use Rattle.fs_replay.specs.Lines.{IsOneLine, is_answered, is_silent, keeps_waiting, line_in_state, may_let_on, nobody_listens};
ghost use Rattle.fs_replay.specs.Run.{CutsThroughout, GrowsThroughout, IsSerialThroughout, KeptThroughout, LinesAreEvents, RaisedThroughout};
ghost use Rattle.fs_replay.specs.Step.{after_line, line_output, start};
ghost use Rattle.fs_replay.specs.Throughout.{AnswersThroughout, ListenersThroughout, StreamsThroughout};
ghost use Rattle.fs_replay.specs.Transcript.{after_lines, transcript};
ghost use Rattle.fs_replay.specs.declared.state.State.{State};

use fs_machine::machines_are_lawful;
use fs_write::batches_are_lawful;

/// The laws of scripts, as a user sees them. (Those of settling in any order are laws of the server, `machines_are_lawful`.)
pub fn scripts_are_lawful()
    // Before the first line and after each, nothing waits to be told, each accepted commit that isn't released waits for an earlier one,
    // and what stands at every moment of a server stands. Unless the script settles by hand, no commit is under way, whatever waits is held
    // still by a transaction that is open, and each session was told all of its targets.
    ensures starts { (config : Config) (limits : Limits) → AreAllowed limits → IsBetweenLines (start config limits) }
    ensures between { (s : State) (n : ℕ) (line : List ℕ) → IsBetweenLines s → IsBetweenLines (after_line s n line) }
    // So nothing waits then but in pessimistic mode, where a transaction is open that reads and writes.
    ensures nobody_waits { (s : State) → IsBetweenLines s → s.manual ≡ false → keeps_waiting s.server ≡ false → s.server.parked ≡ [] }
    // The history goes on from what was there, so what stood at a time that was released stands there for good.
    ensures grows { (s : State) (n : ℕ) (lines : List (List ℕ)) → IsBetweenLines s
        → Grows s.server.past (after_lines s n lines).server.past }
    // What was committed explains every read in it: the same would come of transactions that run one after another.
    ensures serial { (s : State) (n : ℕ) (lines : List (List ℕ)) → IsBetweenLines s
        → IsSerial (after_lines s n lines).server.past.history }
    // So it is of each run, wherever its events are cut; and each cut between lines is one between events.
    ensures lines_are_events { (config : Config) (limits : Limits) (lines : List (List ℕ)) → LinesAreEvents config limits lines }
    ensures runs_kept { (config : Config) (limits : Limits) (lines : List (List ℕ)) → KeptThroughout config limits lines }
    ensures runs_grow { (config : Config) (limits : Limits) (lines : List (List ℕ)) → GrowsThroughout config limits lines }
    ensures runs_are_serial { (config : Config) (limits : Limits) (lines : List (List ℕ)) → IsSerialThroughout config limits lines }
    // What a session was told is, wherever it ends with NO_CHANGE, just the views of all its targets at one time.
    ensures runs_cut { (config : Config) (limits : Limits) (lines : List (List ℕ)) → AreAllowed limits → CutsThroughout config limits lines }
    // Between lines, unless the script settles by hand, each session that listens to anything was raised at the released time.
    ensures runs_raised { (config : Config) (limits : Limits) (lines : List (List ℕ)) → AreAllowed limits → RaisedThroughout config limits lines }
    // Wherever its events are cut, each answer has its cause, each batch of a stream is committed once at most, and sessions are sent what they
    // have to be of their targets.
    ensures runs_answer { (config : Config) (limits : Limits) (lines : List (List ℕ)) → AnswersThroughout config limits lines }
    ensures runs_stream { (config : Config) (limits : Limits) (lines : List (List ℕ)) → StreamsThroughout config limits lines }
    ensures runs_listen { (config : Config) (limits : Limits) (lines : List (List ℕ)) → ListenersThroughout config limits lines }
    // A line leaves what was committed and its times as they are that asks for no commit, or for one that is refused, aborted or waits,
    // lets no other request go on by ending a transaction, and is none of the clock, of compactions and of settling.
    ensures unmoved { (s : State) (n : ℕ) (line : List ℕ) → IsBetweenLines s → may_move s (line_in_state s line) ≡ false
        → (after_line s n line).server.past ≡ s.server.past }
    // Commit times rise by one microsecond, those of refused commits too. (Where a commit ends a transaction that others wait for, these
    // go on, and take the next times.)
    ensures rise { (s : State) (n : ℕ) (line : List ℕ) → IsBetweenLines s → is_commit s (line_in_state s line) ≡ true
        → may_let_on s (line_in_state s line) ≡ false → (after_line s n line).server.past.last ≡ (s.server.past.last +ℤ pos 1) }
    // Lines that don't write a name leave its document, where nothing under way writes it, and nothing that waits. (What a commit leaves of
    // a name is the law of batches.)
    ensures kept { (s : State) (n : ℕ) (lines : List (List ℕ)) (name : DocName) → IsBetweenLines s
        → will_be_written name s.server ≡ false → is_written_in name s n lines ≡ false
        → get (whole (after_lines s n lines).server.past.history) name ≡ get (whole s.server.past.history) name }
    // Unless the script settles by hand or an open transaction may keep commits waiting, each request, and each line that isn't read, gives
    // exactly one line, where no session has a target afterwards; and also where one may, if nothing waits before the line and after it. In any
    // case an empty line and those of compactions and that begin settling by hand give none, and those of the clock where nothing waits and no
    // session has a target, or the script settles by hand.
    ensures one_line { (s : State) (n : ℕ) (line : List ℕ) → IsBetweenLines s → s.manual ≡ false → keeps_waiting s.server ≡ false
        → nobody_listens (after_line s n line).server ≡ true → is_answered (line_in_state s line) ≡ true → IsOneLine (line_output s n line) }
    ensures at_once { (s : State) (n : ℕ) (line : List ℕ) → IsBetweenLines s → s.manual ≡ false → s.server.parked ≡ []
        → (after_line s n line).server.parked ≡ [] → nobody_listens (after_line s n line).server ≡ true → is_answered (line_in_state s line) ≡ true → IsOneLine (line_output s n line) }
    ensures no_line { (s : State) (n : ℕ) (line : List ℕ) → IsBetweenLines s → is_silent s (line_in_state s line) ≡ true
        → line_output s n line ≡ [] }
    // A read without a mask is answered with the document that stands. (That messages are read back is a clause of those that
    // write them.)
    ensures shown { (s : State) (session : ℕ) (id : Option (List ℕ)) (name : DocName) (d : Document) → IsBetweenLines s
        → 0 < s.server.limits.outbox → get (at s.server.past.history s.server.past.released) name ≡ Some d
        → answered s.server session (record { id = id; request = GetDocument name None Released }) ≡ Reply (message.GetDocument id d) }
    // The last line may end in a newline or not.
    ensures newline { (config : Config) (limits : Limits) (script : List ℕ)
        → transcript config limits (script ++ 10 ∷ []) ≡ transcript config limits script }
{
    machines_are_lawful();
    batches_are_lawful();
}
