//! What the lines of a script act on.
ghost use Rattle.std.specs.Prelude.{◌≡◌};

use crate::directory::Directory;
use fs_server::{Config, Limits, Server};
use fs_time::Micros;
use std::alloc::Global;

/// The server, the names of its sessions, the moment of the clock, and whether the script settles by hand.
#[derive(Drop)]
pub struct State {
    pub server: Server,
    pub directory: Directory,
    pub moment: Micros,
    pub manual: bool,
}

/// 2024-01-01T00:00:00Z, in microseconds.
const START: i64 = 1_704_067_200_000_000;

impl State {
    ghost use Rattle.fs_machine.specs.Config.{IsAllowed};
    ghost use Rattle.fs_machine.specs.Limits.{AreAllowed};
    ghost use Rattle.fs_replay.specs.Step.{start};

    /// Where a script starts.
    pub fn new(alloc: Global, config: Config, limits: Limits) -> State
        requires config { IsAllowed config }
        requires limits { AreAllowed limits }
        ensures { result ≡ start config limits }
    {
        let moment = Micros::new(START).unwrap();
        State {
            server: Server::new(alloc, config, limits, moment),
            directory: Directory::new(alloc),
            moment,
            manual: false,
        }
    }
}
