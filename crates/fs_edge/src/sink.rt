//! Where bytes go: a write takes the front of a piece, or fails.
ghost use Rattle.std.specs.Prelude.{◌≡◌, ◌≢◌, ◌≤◌, ℕ, List, Option};
ghost use Rattle.fs_edge.specs.Count.{one_more};
ghost use Rattle.fs_edge.specs.Sink.{WriteAdds, Takes};

/// What a write gave.
#[derive(Clone, Copy, PartialEq, Eq)]
pub enum Gave {
    /// The sink took so many bytes from the front of the piece.
    Bytes(usize),
    /// The write failed, and the sink took nothing.
    Failed,
}

/// Where bytes go.
pub trait Sink {
    /// The bytes that it took so far, where the sink tells them. Memory does; a file or a terminal does not.
    ghost given: { Self → Option (List ℕ) };

    /// How often a write has failed.
    ghost faults: { Self → ℕ };

    /// Gives the front of a piece. A sink that takes none of a piece that has bytes has failed.
    fn write(&mut self, from: &[u8]) -> Gave
        ensures writes { WriteAdds result from.now (given self.old) (given self.new) }
        ensures takes { Takes result from.now }

        // A fault is counted exactly at a failure.
        ensures faults { faults self.old ≤ faults self.new }
        ensures failed { result ≡ Gave.Failed → faults self.new ≡ one_more (faults self.old) }
        ensures no_fault { result ≢ Gave.Failed → faults self.new ≡ faults self.old };
}
