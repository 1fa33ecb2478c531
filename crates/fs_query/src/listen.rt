//! What a session is told of the targets that it listens to.
ghost use Rattle.std.specs.Prelude.{◌≡◌, IfOk};

use crate::numbers::Numbers;
use fs_path::{Bytes, DocName, Text};
use fs_time::Micros;
use fs_value::Document;
use std::alloc::{AllocError, Global};

/// Why a target was refused. (`google.rpc.Status`.)
#[derive(Drop)]
pub struct Cause {
    /// The number of the refusal's status in gRPC.
    pub code: u32,
    pub message: Text,
}

impl Cause {
    pub fn copy(&self, alloc: Global) -> Result<Cause, AllocError>
        ensures { IfOk result (λ c. c ≡ self.now) }
    {
        Ok(Cause {
            code: self.code,
            message: self.message.copy(alloc)?,
        })
    }
}

/// One message of those that tell a session how the views of its targets change. (v1 reference, `ListenResponse`.)
///
/// Target 1 is the documents of `c` with `n >= 1`, target 2 all of `c`, and `c/a` was `{n:1}` and becomes `{n:0}`:
///
/// | message | target 1 | target 2 |
/// |---|---|---|
/// | `Add` of 1, and of 2 | empty | empty |
/// | `Changed` with `{n:1}` for 1 and 2 | `{n:1}` | `{n:1}` |
/// | `Current` of 1 and 2, `NoChange` | `{n:1}`, as it was at the time of `NoChange` | the same |
/// | `Changed` with `{n:0}` for 2, left 1 | empty | `{n:0}` |
/// | `NoChange` | empty, as it was at its time | `{n:0}` |
#[derive(Drop)]
pub enum ListenMessage {
    /// These targets were added.
    Add {
        targets: Numbers,
    },
    /// These targets were removed. The cause is there where the server did it.
    Remove {
        targets: Numbers,
        cause: Option<Cause>,
    },
    /// The views of these targets are empty from here on, and told anew.
    Reset {
        targets: Numbers,
    },
    /// All that these targets had been at the time was told since they were added. The token resumes them from there.
    Current {
        targets: Numbers,
        time: Micros,
        token: Bytes,
    },
    /// What was told so far is the view of each target at this time. The token resumes them from there.
    NoChange {
        time: Micros,
        token: Bytes,
    },
    /// The document is as this in the views of `targets`, and in those of `left` no longer. (`DocumentChange`.)
    Changed {
        document: Document,
        targets: Numbers,
        left: Numbers,
    },
    /// No document stands there at the time, so the views of `left` have it no longer. (`DocumentDelete`.)
    Deleted {
        name: DocName,
        time: Micros,
        left: Numbers,
    },
    /// The document stands there at the time, but the views of `left` have it no longer. (`DocumentRemove`.)
    Removed {
        name: DocName,
        time: Micros,
        left: Numbers,
    },
}
