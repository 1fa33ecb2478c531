//! fsemu: a local Cloud Firestore for tests of transactions, listeners and offline clients.
#![tactic(auto)]

mod agreed;
mod given;
mod options;
mod program;
mod reader;
mod run;
mod values;
mod words;

use std::process::ExitCode;

fn main(rt: HostRuntime) -> ExitCode {
    let ended = program::start(&rt);
    if let Some(usage) = program::usage_of(&ended) {
        let _ = eprintln!(rt; "{usage}");
    }
    ExitCode::from(program::exit_code(ended))
}
