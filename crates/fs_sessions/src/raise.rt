//! Sessions are raised.
ghost use Rattle.std.specs.Prelude.{◌≡◌, ◌++◌, ◌≤ℤ◌, IfOk, OnErr, OnOk, map};
ghost use Rattle.fs_listen.specs.Raised.{stands_at};
ghost use Rattle.fs_machine.specs.Sessions.{with_outbox};
ghost use Rattle.fs_request.specs.declared.message.Message.TheVariants as message;
ghost use Rattle.fs_target.specs.Laws.{with_deleted};
ghost use Rattle.fs_target.specs.Raise.{kept_told};
ghost use Rattle.fs_sessions.specs.Heard.{heard_of, heard_raised};

use crate::listeners::{Ear, Listeners, place_in};
use crate::sessions::Sessions;
use fs_past::Past;
use fs_query::ListenMessage;
use fs_request::Message;
use fs_time::Micros;
use std::alloc::{AllocError, Global};

// What was removed from views is told to be deleted where no document stands at the time.
fn told(past: &Past, time: Micros, message: ListenMessage) -> ListenMessage
    requires from { past.now.floor ≤ℤ time }
    requires to { time ≤ℤ past.now.released }
    ensures { result ≡ with_deleted (stands_at past.now.history time) message }
{
    match message {
        ListenMessage::Removed {
            name,
            time: at,
            left,
        } => {
            if past.get(&name, time).is_some() {
                ListenMessage::Removed {
                    name,
                    time: at,
                    left,
                }
            } else {
                ListenMessage::Deleted {
                    name,
                    time: at,
                    left,
                }
            }
        }
        other => other,
    }
}

// The messages as they go to an outbox.
fn all_told(
    alloc: Global,
    past: &Past,
    time: Micros,
    messages: Vec<ListenMessage>,
) -> Result<Vec<Message>, AllocError>
    requires from { past.now.floor ≤ℤ time }
    requires to { time ≤ℤ past.now.released }
    ensures { IfOk result (λ v. v.items ≡ map message.Listen (map (with_deleted (stands_at past.now.history time)) messages.items)) }
{
    let mut said = Vec::with_capacity(alloc, messages.len())?;
    for message in messages {
        said.push(Message::Listen(told(past, time, message)))?;
    }
    Ok(said)
}

// A session is raised, and what that says comes to its outbox.
fn raise_one(
    alloc: Global,
    ear: &mut Ear,
    past: &Past,
    sessions: &mut Sessions,
    time: Micros,
) -> Result<(), AllocError>
    requires from { past.now.floor ≤ℤ time }
    requires to { time ≤ℤ past.now.released }
    ensures ok { OnOk result (heard_of ear.new ≡ heard_raised time (heard_of ear.old)) }
    ensures told { OnOk result (sessions.new ≡ with_outbox ear.old.session
        (λ ms. ms ++ map message.Listen (map (with_deleted (stands_at past.now.history time)) (kept_told time (heard_of ear.old).held))) sessions.old) }
    ensures err { OnErr result (heard_of ear.new ≡ heard_of ear.old) }
    ensures err_told { OnErr result (sessions.new ≡ sessions.old) }
{
    let messages = ear.targets.messages(alloc, time)?;
    let said = all_told(alloc, past, time, messages)?;
    sessions.tell(ear.session, said)?;
    ear.targets.go_to(time);
    Ok(())
}

impl Listeners {
    ghost use Rattle.std.specs.Prelude.{◌≡◌, ◌++◌, ◌≤ℤ◌, IfNone, IfSome, OnErr, OnOk, map};
    ghost use Rattle.fs_listen.specs.Raised.{stands_at};
    ghost use Rattle.fs_machine.specs.Sessions.{with_outbox};
    ghost use Rattle.fs_request.specs.declared.message.Message.TheVariants as message;
    ghost use Rattle.fs_target.specs.Laws.{with_deleted};
    ghost use Rattle.fs_target.specs.Raise.{kept_told};
    ghost use Rattle.fs_sessions.specs.Heard.{heard_in, heard_raised, with_heard};

    /// A session is raised to a time that can be read. Where memory runs out, nothing is changed.
    pub fn raise(
        &mut self,
        alloc: Global,
        past: &Past,
        sessions: &mut Sessions,
        session: u32,
        time: Micros,
    ) -> Result<(), AllocError>
        requires from { past.now.floor ≤ℤ time }
        requires to { time ≤ℤ past.now.released }
        ensures ok { OnOk result (self.new ≡ with_heard session (heard_raised time) self.old) }
        ensures told { OnOk result (IfSome (heard_in session self.old) (λ h. sessions.new ≡ with_outbox session
            (λ ms. ms ++ map message.Listen (map (with_deleted (stands_at past.now.history time)) (kept_told time h.held))) sessions.old)) }
        ensures nobody { OnOk result (IfNone (heard_in session self.old) (sessions.new ≡ sessions.old)) }
        ensures err { OnErr result (self.new ≡ self.old) }
        ensures err_told { OnErr result (sessions.new ≡ sessions.old) }
    {
        match place_in(&self.list, session) {
            Some(place) => raise_one(alloc, &mut self.list[place], past, sessions, time),
            None => Ok(()),
        }
    }
}
