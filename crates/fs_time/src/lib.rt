//! Moments in microseconds, as Cloud Firestore keeps them, and their text in RFC 3339.
#![tactic(auto)]

mod error;
mod micros;
mod parts;
mod printing;
mod reading;

pub use error::TimeError;
pub use micros::Micros;
pub use printing::{LONGEST_TEXT, print};
pub use reading::read_rfc3339;
