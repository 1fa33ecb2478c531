//! Where bytes come from: a read gives some, tells the end, or fails.
ghost use Rattle.std.specs.Prelude.{◌≡◌, ◌≢◌, ◌≤◌, ℕ, List, Option};
ghost use Rattle.fs_edge.specs.Count.{one_more};
ghost use Rattle.fs_edge.specs.Source.{ReadGives, Fills};

/// What a read gave.
#[derive(Clone, Copy, Debug, PartialEq, Eq)]
pub enum Took {
    /// So many bytes, which stand at the front of the buffer.
    Bytes(usize),
    /// There are no more bytes.
    End,
    /// The read failed, and gave nothing.
    Failed,
}

/// Where bytes come from.
/// (docs/DECISIONS.md, "A source counts the ends that it told".)
pub trait Source {
    /// The bytes that are left, where the source tells them. Memory does; a file or a terminal does not.
    ghost left: { Self → Option (List ℕ) };

    /// How often a read has failed.
    ghost faults: { Self → ℕ };

    /// How often a read has told the end.
    ghost ends: { Self → ℕ };

    /// Takes the next bytes: at least one into a buffer that isn't empty, unless the end has come or the read fails.
    fn read(&mut self, into: &mut [u8]) -> Took
        ensures reads { ReadGives result into.new (left self.old) (left self.new) }
        ensures fills { Fills result into.old }

        // A fault is counted exactly at a failure, and an end where it is told.
        ensures faults { faults self.old ≤ faults self.new }
        ensures failed { result ≡ Took.Failed → faults self.new ≡ one_more (faults self.old) }
        ensures no_fault { result ≢ Took.Failed → faults self.new ≡ faults self.old }
        ensures ends { ends self.old ≤ ends self.new }
        ensures ended { result ≡ Took.End → ends self.new ≡ one_more (ends self.old) }
        ensures no_end { result ≢ Took.End → ends self.new ≡ ends self.old };
}
