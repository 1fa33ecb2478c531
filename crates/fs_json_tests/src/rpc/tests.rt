//! The tables, line by line.
use crate::made::Make;
use crate::rpc::{
    listen_tables as listen, message_tables as messages, request_tables as requests,
    stream_tables as streams,
};
use crate::table::holds;

#[test]
fn messages_are_read_and_written(rt: HostRuntime) {
    holds(&rt, Make::Message, messages::MESSAGES);
    holds(&rt, Make::Message, messages::REFUSED);
    holds(&rt, Make::Message, listen::TOLD);
    holds(&rt, Make::Message, listen::REFUSED);
    holds(&rt, Make::Message, streams::TOLD);
    holds(&rt, Make::Message, streams::MISTOLD);
}

#[test]
fn requests_and_writes_are_read_and_written(rt: HostRuntime) {
    holds(&rt, Make::Request, requests::REQUESTS);
    holds(&rt, Make::Write, requests::WRITES);
}
