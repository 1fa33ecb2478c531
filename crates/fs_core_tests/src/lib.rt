//! Tests of what no script shows: sources and sinks that fail, servers with small limits, deep values, and calls that the program doesn't make.
#![tactic(auto)]

#[cfg(test)]
mod calls;
#[cfg(test)]
mod limits;
#[cfg(test)]
mod replay;
#[cfg(test)]
mod server;
#[cfg(test)]
mod short;
