//! Messages that are still to be sent.
use fs_request::Message;
use std::alloc::{AllocError, Global};
use std::marker::Model;

/// Messages in the order in which they are sent. Contracts see them as a list.
#[derive(Drop)]
pub struct Messages {
    items: Vec<Message>,
}

impl Model for Messages {
    ghost use Rattle.std.specs.Prelude.{List};
    ghost use Rattle.std.specs.Coded.{coded_list};
    ghost use Rattle.fs_request.specs.contracts.message.Message as message;
    ghost use Rattle.fs_request.specs.declared.message.Message.{Message};

    ghost Value = { List Message };

    ghost coded = { coded_list message.the_row.coded };

    ghost view = { λ l. l.items.items };
}

impl Messages {
    ghost use Rattle.std.specs.Prelude.{◌≡◌, ◌↔◌, ◌-◌, ◌∷◌, ◌++◌, OnOk, OnErr, IsTrue, [], length, take};

    /// No messages. The allocator serves those that are pushed.
    pub fn new(alloc: Global) -> Messages
        ensures { result ≡ [] }
    {
        Messages {
            items: Vec::new(alloc),
        }
    }

    /// The messages as a `Vec`, without a copy.
    pub fn into_vec(self) -> Vec<Message>
        ensures { result.items ≡ self }
    {
        self.items
    }

    pub fn as_slice(&self) -> &[Message]
        ensures { result.now ≡ self.now }
    {
        self.items.as_slice()
    }

    pub fn len(&self) -> usize
        ensures { result ≡ length self.now }
    {
        self.items.len()
    }

    pub fn is_empty(&self) -> bool
        ensures { IsTrue result ↔ (self.now ≡ []) }
    {
        self.items.is_empty()
    }

    /// Adds a message at the end.
    pub fn push(&mut self, message: Message) -> Result<(), AllocError>
        ensures ok { OnOk result (self.new ≡ self.old ++ message ∷ []) }
        ensures err { OnErr result (self.new ≡ self.old) }
    {
        Ok(self.items.push(message)?)
    }

    /// Adds messages at the end, all of them or none.
    pub fn append(&mut self, messages: Vec<Message>) -> Result<(), AllocError>
        ensures ok { OnOk result (self.new ≡ self.old ++ messages.items) }
        ensures err { OnErr result (self.new ≡ self.old) }
    {
        let mut messages = messages;
        self.items.append(&mut messages)
    }

    /// Takes the last message away, if there is one. It takes no memory.
    pub fn take_back(&mut self)
        ensures { self.new ≡ take (length self.old - 1) self.old }
    {
        drop(self.items.pop());
    }
}
