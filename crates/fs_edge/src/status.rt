//! How a run of the program ends, and the exit status that says so.
ghost use Rattle.std.specs.Prelude.{◌≡◌};
ghost use Rattle.fs_edge.specs.Status.{exit_code_of};

/// How a run of the program ends.
#[derive(Clone, Copy, PartialEq, Eq)]
pub enum Status {
    /// All input was read and carried out.
    Ok,
    /// The words on the command line are no command.
    Usage,
    /// Memory ran out.
    Memory,
    /// The source failed.
    ReadFault,
    /// The sink failed.
    WriteFault,
    /// The source gave 4,294,967,296 bytes, as many as a run takes.
    InputLimit,
    /// A socket could not be opened.
    DoorFault,
}

impl Status {
    /// The exit status of the process.
    pub fn exit_code(self) -> u8
        ensures { result ≡ exit_code_of self }
    {
        match self {
            Status::Ok => 0,
            Status::Usage => 2,
            Status::Memory => 3,
            Status::ReadFault => 4,
            Status::WriteFault => 5,
            Status::InputLimit => 6,
            Status::DoorFault => 7,
        }
    }
}
