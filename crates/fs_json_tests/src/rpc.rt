//! Tables of messages, requests and writes.

mod listen_tables;
mod message_tables;
mod request_tables;
mod stream_tables;
mod tests;
