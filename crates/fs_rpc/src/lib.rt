//! Firestore's requests and messages in JSON: read, with the place of each fault, and written.
#![tactic(auto)]

mod answers;
mod commit_write;
mod decimal;
mod distinct;
mod eight;
mod envelope;
mod error_read;
mod id;
mod list;
mod listen_read;
mod listen_write;
mod message_read;
mod message_write;
mod names;
mod options;
mod read;
mod reads_write;
mod request_write;
mod results;
mod stream_answer_read;
mod stream_answer_write;
mod streams_read;
mod streams_write;
mod targets_read;
mod targets_write;
mod transaction;
mod when;

pub use decimal::read_decimal;
pub use envelope::{SessionRequest, read_envelope, read_request, read_session_request};
pub use message_read::read_message;
pub use message_write::{push_id, push_status, write_message, write_message_on};
pub use request_write::write_request;
pub use streams_write::print_stream_token;
pub use transaction::print_transaction;
