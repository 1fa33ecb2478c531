//! Doors in memory, without links.
ghost use Rattle.std.specs.Prelude.{◌≡◌, ◌≢◌, ◌≤◌, Ok};
ghost use Rattle.fs_edge.specs.Count.{one_more};

use crate::count::count;
use crate::doors::{Door, Doors};
use crate::link::Sent;
use crate::memory::link::MemoryLink;
use std::alloc::AllocError;
use std::marker::Model;

/// Doors in memory that have no link to hand out: each call fails.
#[derive(Drop)]
pub struct MemoryDoors {
    faults: u64,
}

impl Model for MemoryDoors {
    ghost use Rattle.std.specs.Prelude.{ℕ};

    ghost Value = { ℕ };

    ghost view = { λ d. d.faults };
}

impl MemoryDoors {
    pub fn new() -> MemoryDoors
        ensures { result ≡ 0 }
    {
        MemoryDoors { faults: 0 }
    }
}

impl Doors for MemoryDoors {
    type L = MemoryLink;

    ghost faults = { λ d. d };

    fn listen(&mut self, _port: u16) -> Result<Sent, AllocError>
        ensures faults { self.old ≤ self.new }
        ensures failed { result ≡ Ok Sent.Failed → self.new ≡ one_more self.old }
        ensures no_fault { result ≢ Ok Sent.Failed → self.new ≡ self.old }
        ensures fails { result ≡ Ok Sent.Failed }
    {
        count(&mut self.faults);
        Ok(Sent::Failed)
    }

    fn accept(&mut self) -> Result<Door<MemoryLink>, AllocError>
        ensures faults { self.old ≤ self.new }
        ensures failed { result ≡ Ok Door.Failed → self.new ≡ one_more self.old }
        ensures no_fault { result ≢ Ok Door.Failed → self.new ≡ self.old }
        ensures fails { result ≡ Ok Door.Failed }
    {
        count(&mut self.faults);
        Ok(Door::Failed)
    }

    fn dial(&mut self, _port: u16) -> Result<Door<MemoryLink>, AllocError>
        ensures faults { self.old ≤ self.new }
        ensures failed { result ≡ Ok Door.Failed → self.new ≡ one_more self.old }
        ensures no_fault { result ≢ Ok Door.Failed → self.new ≡ self.old }
        ensures fails { result ≡ Ok Door.Failed }
    {
        count(&mut self.faults);
        Ok(Door::Failed)
    }
}
