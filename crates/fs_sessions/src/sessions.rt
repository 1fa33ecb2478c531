//! Sessions.
ghost use Rattle.std.specs.Prelude.{◌≡◌, ◌<◌, IfSome, length};
ghost use Rattle.fs_sessions.specs.Place.{place_in};

use fs_machine::{Messages, Reply, Session};
use fs_request::Message;
use std::alloc::{AllocError, Global};
use std::marker::Model;
use std::mem;

/// The sessions that are open, in the order of opening. There are few: a session is looked for from the first on.
///
///     open, open         0 and 1 are open
///     leave 0, open      1 and 2
/// (docs/DECISIONS.md, "Sessions are looked for one after another".)
#[derive(Drop)]
pub struct Sessions {
    list: Vec<Session>,
}

impl Model for Sessions {
    ghost use Rattle.std.specs.Prelude.{List};
    ghost use Rattle.std.specs.Coded.{coded_list};
    ghost use Rattle.fs_machine.specs.contracts.session.Session as session;
    ghost use Rattle.fs_machine.specs.declared.session.Session.{Session};

    ghost Value = { List Session };

    ghost coded = { coded_list session.the_row.coded };

    ghost view = { λ s. s.list.items };
}

impl Sessions {
    ghost use Rattle.std.specs.Prelude.{◌≡◌, ◌∷◌, ◌++◌, [], IfOk, OnOk, OnErr, false, length, map};
    ghost use Rattle.fs_machine.specs.Sessions.{delivered, emptied, has_owned, outbox_in, owning, with_outbox, without};
    ghost use Rattle.fs_sessions.specs.Place.{all_delivered, all_taken_back, taken_back};

    /// None is open. The allocator serves those that open.
    pub fn new(alloc: Global) -> Sessions
        ensures { result ≡ [] }
    {
        Sessions {
            list: Vec::new(alloc),
        }
    }

    /// How many are open.
    pub fn len(&self) -> usize
        ensures { result ≡ length self.now }
    {
        self.list.len()
    }

    /// Opens one more, of this number.
    pub fn add(&mut self, alloc: Global, number: u32) -> Result<(), AllocError>
        ensures ok { OnOk result (self.new ≡ self.old ++ record { number = number; outbox = []; has_owned = false } ∷ []) }
        ensures err { OnErr result (self.new ≡ self.old) }
    {
        Ok(
            self.list.push(Session {
                number,
                outbox: Messages::new(alloc),
                has_owned: false,
            })?,
        )
    }

    /// Closes one, if it is open. It takes no memory.
    pub fn remove(&mut self, number: u32)
        ensures { self.new ≡ without number self.old }
    {
        match place_in(&self.list, number) {
            Some(place) => {
                let _ = self.list.remove(place);
            }
            None => {}
        }
    }

    /// How many messages a session has still to be sent; none, where it isn't open.
    pub fn outbox_len(&self, number: u32) -> usize
        ensures { result ≡ length (outbox_in number self.now) }
    {
        match place_in(&self.list, number) {
            Some(place) => self.list[place].outbox.len(),
            None => 0,
        }
    }

    /// Whether a session owns a write stream or ever did; not, where it isn't open.
    pub fn has_owned(&self, number: u32) -> bool
        ensures { result ≡ has_owned number self.now }
    {
        match place_in(&self.list, number) {
            Some(place) => self.list[place].has_owned,
            None => false,
        }
    }

    /// A session owns a write stream, if it is open. It takes no memory.
    pub fn own(&mut self, number: u32)
        ensures { self.new ≡ owning number self.old }
    {
        match place_in(&self.list, number) {
            Some(place) => self.list[place].has_owned = true,
            None => {}
        }
    }

    /// A message more for a session, if it is open.
    pub fn deliver(&mut self, number: u32, message: Message) -> Result<(), AllocError>
        ensures ok { OnOk result (self.new ≡ delivered number message self.old) }
        ensures err { OnErr result (self.new ≡ self.old) }
    {
        match place_in(&self.list, number) {
            Some(place) => self.list[place].outbox.push(message),
            None => Ok(()),
        }
    }

    /// Messages more for a session, if it is open: all of them or none.
    pub fn tell(&mut self, number: u32, messages: Vec<Message>) -> Result<(), AllocError>
        ensures ok { OnOk result (self.new ≡ with_outbox number (λ ms. ms ++ messages.items) self.old) }
        ensures err { OnErr result (self.new ≡ self.old) }
    {
        match place_in(&self.list, number) {
            Some(place) => self.list[place].outbox.append(messages),
            None => Ok(()),
        }
    }

    /// Replies for sessions, for those that are open: to whom they went, in order. Where memory runs out, none is delivered.
    pub fn deliver_all(
        &mut self,
        alloc: Global,
        replies: Vec<Reply>,
    ) -> Result<Vec<u32>, AllocError>
        ensures ok { OnOk result (self.new ≡ all_delivered replies.items self.old) }
        ensures to { IfOk result (λ to. to.items ≡ map (λ r. r.session) replies.items) }
        ensures err { OnErr result (self.new ≡ self.old) }
    {
        let mut to = Vec::with_capacity(alloc, replies.len())?;
        for reply in replies {
            let session = reply.session;
            if let Err(error) = self.deliver_one(reply, &mut to) {
                self.take_all_back(to);
                return Err(error);
            }
        }
        Ok(to)
    }

    // One of them, to a session that is noted.
    fn deliver_one(&mut self, reply: Reply, to: &mut Vec<u32>) -> Result<(), AllocError>
        ensures ok { OnOk result (self.new ≡ delivered reply.session reply.message self.old) }
        ensures noted { OnOk result (to.new.items ≡ to.old.items ++ reply.session ∷ []) }
        ensures err { OnErr result (self.new ≡ self.old) }
        ensures stay { OnErr result (to.new.items ≡ to.old.items) }
    {
        to.push(reply.session)?;
        if let Err(error) = self.deliver(reply.session, reply.message) {
            let _ = to.pop();
            return Err(error);
        }
        Ok(())
    }

    /// Takes back the last messages of these sessions, the last that was delivered first. It takes no memory.
    pub fn take_all_back(&mut self, mut to: Vec<u32>)
        ensures { self.new ≡ all_taken_back to.items self.old }
    {
        while let Some(session) = to.pop() {
            self.take_back(session);
        }
    }

    /// Takes a session's last message back, so that a message that was told is as if it hadn't been. It takes no memory.
    pub fn take_back(&mut self, number: u32)
        ensures { self.new ≡ taken_back number self.old }
    {
        match place_in(&self.list, number) {
            Some(place) => self.list[place].outbox.take_back(),
            None => {}
        }
    }

    /// A session's messages, of which it has none left. It takes no memory.
    pub fn take(&mut self, alloc: Global, number: u32) -> Messages
        ensures messages { result ≡ outbox_in number self.old }
        ensures list { self.new ≡ emptied number self.old }
    {
        match place_in(&self.list, number) {
            Some(place) => mem::replace(&mut self.list[place].outbox, Messages::new(alloc)),
            None => Messages::new(alloc),
        }
    }
}

// Where the session of a number stands.
fn place_in(list: &[Session], number: u32) -> Option<usize>
    ensures place { result ≡ place_in number list.now }
    ensures within { IfSome result (λ place. place < length list.now) }
{
    match list {
        [] => None,
        [session, rest @ ..] => {
            if session.number == number {
                return Some(0);
            }
            let place = place_in(rest, number)?;
            Some(place + 1)
        }
    }
}
