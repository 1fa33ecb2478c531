//! Resume tokens of a listener: from which moment on it goes on, in 12 bytes.
#![tactic(auto)]

mod error;
mod token;

pub use error::TokenError;
pub use token::{LENGTH, read, write};
