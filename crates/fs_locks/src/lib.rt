//! What commits and transactions hold of a Cloud Firestore database until they are released: names that are written, and what was read.
#![tactic(auto)]

mod cut;
mod exclusive;
mod held;
mod hold;
mod holders;
mod index;
mod least;
mod locks;
mod parents;
mod reads;
mod scopes;
mod share;
mod shared;
mod taken;
mod tree;

pub use held::Held;
pub use least::lesser;
pub use locks::Locks;
