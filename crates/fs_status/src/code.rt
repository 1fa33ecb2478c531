//! The status of a refusal, with its numbers in HTTP and in gRPC.
ghost use Rattle.std.specs.Prelude.{◌≡◌};
ghost use Rattle.fs_status.specs.Status.{http_of, rpc_of, status_text};

/// The status of a refusal. All but the last are those of `google.rpc.Code` that Firestore answers.
#[derive(Clone, Copy, PartialEq, Eq)]
pub enum Code {
    InvalidArgument,
    FailedPrecondition,
    NotFound,
    AlreadyExists,
    Aborted,
    ResourceExhausted,
    Unimplemented,
    /// No memory was left. The production service has no such status.
    OutOfMemory,
}

impl Code {
    /// Its number in HTTP, as 404 for `NOT_FOUND`.
    pub fn http(self) -> u16
        ensures { result ≡ http_of self }
    {
        match self {
            Code::InvalidArgument => 400,
            Code::FailedPrecondition => 400,
            Code::NotFound => 404,
            Code::AlreadyExists => 409,
            Code::Aborted => 409,
            Code::ResourceExhausted => 429,
            Code::Unimplemented => 501,
            Code::OutOfMemory => 507,
        }
    }

    /// Its number in gRPC, as 5 for `NOT_FOUND`.
    pub fn rpc(self) -> u32
        ensures { result ≡ rpc_of self }
    {
        match self {
            Code::InvalidArgument => 3,
            Code::FailedPrecondition => 9,
            Code::NotFound => 5,
            Code::AlreadyExists => 6,
            Code::Aborted => 10,
            Code::ResourceExhausted => 8,
            Code::Unimplemented => 12,
            Code::OutOfMemory => 100,
        }
    }

    /// Its name, as `NOT_FOUND`.
    pub fn status(self) -> &'static str
        ensures { result.now ≡ status_text self }
    {
        match self {
            Code::InvalidArgument => "INVALID_ARGUMENT",
            Code::FailedPrecondition => "FAILED_PRECONDITION",
            Code::NotFound => "NOT_FOUND",
            Code::AlreadyExists => "ALREADY_EXISTS",
            Code::Aborted => "ABORTED",
            Code::ResourceExhausted => "RESOURCE_EXHAUSTED",
            Code::Unimplemented => "UNIMPLEMENTED",
            Code::OutOfMemory => "OUT_OF_MEMORY",
        }
    }
}
