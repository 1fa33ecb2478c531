//! Tests of a client: what it sends, takes and shows, step by step, and of the documents and batches that it has.
#![tactic(auto)]

#[cfg(test)]
mod forms;
#[cfg(test)]
mod links;
#[cfg(test)]
mod made;
#[cfg(test)]
mod parts;
#[cfg(test)]
mod pending;
#[cfg(test)]
mod refusals;
#[cfg(test)]
mod snapshots;
#[cfg(test)]
mod steps;
#[cfg(test)]
mod table;
#[cfg(test)]
mod targets;
#[cfg(test)]
mod told;
