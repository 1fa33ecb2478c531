//! Connections: whole messages of text that are heard and sent.
ghost use Rattle.std.specs.Prelude.{◌≡◌, ◌≢◌, ◌≤◌, ℕ, List, Option, IfOk, OnErr};
ghost use Rattle.fs_edge.specs.Count.{one_more};

use fs_path::Text;
use std::alloc::AllocError;

/// What a link heard.
#[derive(Drop)]
pub enum Heard {
    /// A whole message.
    Message(Text),
    /// Nothing yet.
    Quiet,
    /// The other side has closed in order.
    Closed,
    /// The link failed.
    Failed,
}

/// How a message was sent, or a port opened.
#[derive(Clone, Copy, PartialEq, Eq)]
pub enum Sent {
    Done,
    Failed,
}

/// One connection, over which whole messages go both ways.
pub trait Link {
    ghost use Rattle.fs_edge.specs.Link.{Hears, Sends, Hearing};

    /// What it will hear, where the link tells it.
    ghost to_hear: { Self → Option (List Hearing) };

    /// What was sent over it, where the link tells it.
    ghost sent: { Self → Option (List (List ℕ)) };

    /// How often it has failed.
    ghost faults: { Self → ℕ };

    /// Waits for a message, a short while over a socket.
    fn receive(&mut self) -> Result<Heard, AllocError>
        ensures hears { IfOk result (λ heard. Hears heard (to_hear self.old) (to_hear self.new)) }
        ensures hears_err { OnErr result (to_hear self.new ≡ to_hear self.old) }
        ensures sent { sent self.new ≡ sent self.old }
        ensures faults { faults self.old ≤ faults self.new }
        ensures failed { result ≡ Ok Heard.Failed → faults self.new ≡ one_more (faults self.old) }
        ensures no_fault { result ≢ Ok Heard.Failed → faults self.new ≡ faults self.old };

    /// Sends a message whole, or fails.
    fn send(&mut self, text: &str) -> Result<Sent, AllocError>
        ensures sends { IfOk result (λ done. Sends done text.now (sent self.old) (sent self.new)) }
        ensures sends_err { OnErr result (sent self.new ≡ sent self.old) }
        ensures to_hear { to_hear self.new ≡ to_hear self.old }
        ensures faults { faults self.old ≤ faults self.new }
        ensures failed { result ≡ Ok Sent.Failed → faults self.new ≡ one_more (faults self.old) }
        ensures no_fault { result ≢ Ok Sent.Failed → faults self.new ≡ faults self.old };
}
