//! Tests of times, resume tokens, the numbers of refusals and the edge: vectors from outside, and readers and writers that fail.
#![tactic(auto)]

#[cfg(test)]
mod edge;
#[cfg(test)]
mod memory;
#[cfg(test)]
mod numbers;
#[cfg(test)]
mod readings;
