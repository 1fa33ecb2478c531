//! Where links come from: ports that are listened on and dialled.
ghost use Rattle.std.specs.Prelude.{◌≡◌, ◌≢◌, ◌≤◌, ℕ};
ghost use Rattle.fs_edge.specs.Count.{one_more};

use crate::link::{Link, Sent};
use std::alloc::AllocError;

/// A link that was opened, or the failure to open it.
#[derive(Drop)]
pub enum Door<L> {
    Opened(L),
    Failed,
}

/// Where links come from.
pub trait Doors {
    type L: Link;

    /// How often a door has failed.
    ghost faults: { Self → ℕ };

    /// Listens on a port of this machine. It comes once, before the first `accept`.
    fn listen(&mut self, port: u16) -> Result<Sent, AllocError>
        ensures faults { faults self.old ≤ faults self.new }
        ensures failed { result ≡ Ok Sent.Failed → faults self.new ≡ one_more (faults self.old) }
        ensures no_fault { result ≢ Ok Sent.Failed → faults self.new ≡ faults self.old };

    /// Waits for the next connection to the port.
    fn accept(&mut self) -> Result<Door<Self::L>, AllocError>
        ensures faults { faults self.old ≤ faults self.new }
        ensures failed { result ≡ Ok Door.Failed → faults self.new ≡ one_more (faults self.old) }
        ensures no_fault { result ≢ Ok Door.Failed → faults self.new ≡ faults self.old };

    /// Connects to a port of this machine.
    fn dial(&mut self, port: u16) -> Result<Door<Self::L>, AllocError>
        ensures faults { faults self.old ≤ faults self.new }
        ensures failed { result ≡ Ok Door.Failed → faults self.new ≡ one_more (faults self.old) }
        ensures no_fault { result ≢ Ok Door.Failed → faults self.new ≡ faults self.old };
}
