//! Requests that wait.
use fs_machine::ParkedRequest;
use std::alloc::{AllocError, Global};
use std::marker::Model;

/// The requests that wait, in the order of their arrival. Contracts see them as a list.
#[derive(Drop)]
pub struct Waiting {
    items: Vec<ParkedRequest>,
}

impl Model for Waiting {
    ghost use Rattle.std.specs.Prelude.{List};
    ghost use Rattle.std.specs.Coded.{coded_list};
    ghost use Rattle.fs_machine.specs.contracts.parked_request.ParkedRequest as parked_request;
    ghost use Rattle.fs_machine.specs.declared.parked_request.ParkedRequest.{ParkedRequest};

    ghost Value = { List ParkedRequest };

    ghost coded = { coded_list parked_request.the_row.coded };

    ghost view = { λ w. w.items.items };
}

impl Waiting {
    ghost use Rattle.std.specs.Prelude.{◌≡◌, ◌<◌, ◌∷◌, ◌++◌, [], OnOk, OnErr, Some, length, remove, slice_get};
    ghost use Rattle.fs_machine.specs.Leave.{of_others};

    /// None waits. The allocator serves those that come.
    pub fn new(alloc: Global) -> Waiting
        ensures { result ≡ [] }
    {
        Waiting {
            items: Vec::new(alloc),
        }
    }

    /// How many wait.
    pub fn len(&self) -> usize
        ensures { result ≡ length self.now }
    {
        self.items.len()
    }

    /// The one at a place.
    pub fn at(&self, place: usize) -> &ParkedRequest
        requires { place < length self.now }
        ensures { slice_get self.now place ≡ Some result.now }
    {
        &self.items[place]
    }

    /// One more waits, behind the others.
    pub fn push(&mut self, request: ParkedRequest) -> Result<(), AllocError>
        ensures ok { OnOk result (self.new ≡ self.old ++ request ∷ []) }
        ensures err { OnErr result (self.new ≡ self.old) }
    {
        Ok(self.items.push(request)?)
    }

    /// The one at a place waits no more. It takes no memory.
    pub fn remove(&mut self, place: usize)
        requires { place < length self.old }
        ensures { self.new ≡ remove self.old place }
    {
        drop(self.items.remove(place));
    }

    /// Those of a session wait no more, but for the batches that streams took. It takes no memory.
    pub fn withdraw(&mut self, session: u32)
        ensures { self.new ≡ of_others session self.old }
    {
        self.items.retain(|request| request.session != session || request.stream.is_some());
    }
}
