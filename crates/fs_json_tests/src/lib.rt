//! Tests of JSON that no script reads or writes: messages, requests as a client writes them, and a query's normal form.
#![tactic(auto)]

#[cfg(test)]
mod made;
#[cfg(test)]
mod query;
#[cfg(test)]
mod rpc;
#[cfg(test)]
mod table;
