//! Why a request is refused.
ghost use Rattle.std.specs.Prelude.{◌≡◌, IfOk};
ghost use Rattle.fs_status.specs.Reason.{code_of, index_of};

use crate::code::Code;
use crate::id::Id;
use fs_path::{Place, Rule, Text};
use fs_time::Micros;
use std::alloc::{AllocError, Global};

/// Why a request isn't carried out, with what its message names.
#[derive(Drop)]
pub enum Reason {
    /// The request breaks a rule at a place: `P3 at getDocument.name`.
    Rule(Rule, Place),
    /// The write of this index, counted from 0, wants a document that is there, and there is none.
    Missing(u32),
    /// The write of this index wants no document, and there is one.
    Exists(u32),
    /// The write of this index wants a document with another update time than this one, or than none.
    OtherTime(u32, Option<Micros>),
    /// The write of this index leaves a document that nests too deep.
    DeepAfter(u32),
    /// The write of this index leaves a document that is too large, at this number of counted bytes.
    LargeAfter(u32, u128),
    /// No document has the name at the time of the read.
    NoDocument(Micros),
    /// The time that was asked for, and the earliest time that can still be read.
    TooOld(Micros, Micros),
    /// The time that was asked for, and the latest time that can be read by now.
    TooNew(Micros, Micros),
    /// No transaction of this number is open.
    NotOpen(Id),
    /// The transaction of this number expired: since when its time ran, and the moment at which it had run out.
    Expired(Id, Micros, Micros),
    /// The transaction of this number only reads, and is to commit writes.
    ReadOnly(Id),
    /// The transaction conflicts with the commit or the transaction of this number, the least of several, and is aborted.
    Conflict(Id),
    /// The resume token has so many bytes, and not 12.
    TokenLength(u64),
    /// The resume token doesn't begin as one.
    TokenMark,
    /// The resume token shows no moment.
    TokenTime,
    /// The time that the resume token shows, and the latest time that can be read by now.
    TokenAhead(Micros, Micros),
    /// The session has a target of this id.
    TargetInUse(u32),
    /// The session has no target of this number, which may be no id.
    TargetUnknown(i64),
    /// The session never owned a write stream.
    NoStream,
    /// No write stream of this number was opened.
    StreamUnknown(u64),
    /// The session owns its write stream no longer: another one resumed it.
    NotOwner,
    /// The session owns a write stream, and can't have another.
    SecondStream,
    /// The stream token, which is more than one batch behind, and the token of the next batch.
    Stale(u64, u64),
    /// The stream token, which no response had yet, and the token of the next batch.
    Ahead(u64, u64),
    /// A limit by its name, with the number that it allows.
    AtLimit(Text, u64),
    /// A method or a member that isn't served, by its name.
    Method(Text),
    /// A line of a script or a message isn't a request.
    Line(LineFault),
    /// No memory was left.
    Memory,
}

/// What is wrong with a line as a whole.
#[derive(Clone, Copy, PartialEq, Eq)]
pub enum LineFault {
    NotAnObject,
    DoesNotApply,
    /// It is too long, at this number of bytes.
    HasBytes(u64),
}

impl Reason {
    /// The status that this reason has.
    pub fn code(&self) -> Code
        ensures { result ≡ code_of self.now }
    {
        match self {
            Reason::Rule(_, _) => Code::InvalidArgument,
            Reason::Missing(_) => Code::NotFound,
            Reason::Exists(_) => Code::AlreadyExists,
            Reason::OtherTime(_, _) => Code::FailedPrecondition,
            Reason::DeepAfter(_) => Code::InvalidArgument,
            Reason::LargeAfter(_, _) => Code::InvalidArgument,
            Reason::NoDocument(_) => Code::NotFound,
            Reason::TooOld(_, _) => Code::FailedPrecondition,
            Reason::TooNew(_, _) => Code::InvalidArgument,
            Reason::NotOpen(_) => Code::InvalidArgument,
            Reason::Expired(_, _, _) => Code::InvalidArgument,
            Reason::ReadOnly(_) => Code::InvalidArgument,
            Reason::Conflict(_) => Code::Aborted,
            Reason::TokenLength(_) => Code::InvalidArgument,
            Reason::TokenMark => Code::InvalidArgument,
            Reason::TokenTime => Code::InvalidArgument,
            Reason::TokenAhead(_, _) => Code::InvalidArgument,
            Reason::TargetInUse(_) => Code::InvalidArgument,
            Reason::TargetUnknown(_) => Code::InvalidArgument,
            Reason::NoStream => Code::InvalidArgument,
            Reason::StreamUnknown(_) => Code::InvalidArgument,
            Reason::NotOwner => Code::InvalidArgument,
            Reason::SecondStream => Code::InvalidArgument,
            Reason::Stale(_, _) => Code::InvalidArgument,
            Reason::Ahead(_, _) => Code::InvalidArgument,
            Reason::AtLimit(_, _) => Code::ResourceExhausted,
            Reason::Method(_) => Code::Unimplemented,
            Reason::Line(_) => Code::InvalidArgument,
            Reason::Memory => Code::OutOfMemory,
        }
    }

    /// The write that this reason names, counted from 0.
    pub fn index(&self) -> Option<u32>
        ensures { result ≡ index_of self.now }
    {
        match self {
            Reason::Missing(write) => Some(*write),
            Reason::Exists(write) => Some(*write),
            Reason::OtherTime(write, _) => Some(*write),
            Reason::DeepAfter(write) => Some(*write),
            Reason::LargeAfter(write, _) => Some(*write),
            _ => None,
        }
    }

    pub fn copy(&self, alloc: Global) -> Result<Reason, AllocError>
        ensures { IfOk result (λ r. r ≡ self.now) }
    {
        Ok(match self {
            Reason::Rule(rule, place) => Reason::Rule(*rule, place.copy(alloc)?),
            Reason::Missing(write) => Reason::Missing(*write),
            Reason::Exists(write) => Reason::Exists(*write),
            Reason::OtherTime(write, time) => Reason::OtherTime(*write, *time),
            Reason::DeepAfter(write) => Reason::DeepAfter(*write),
            Reason::LargeAfter(write, bytes) => Reason::LargeAfter(*write, *bytes),
            Reason::NoDocument(time) => Reason::NoDocument(*time),
            Reason::TooOld(time, floor) => Reason::TooOld(*time, *floor),
            Reason::TooNew(time, released) => Reason::TooNew(*time, *released),
            Reason::NotOpen(transaction) => Reason::NotOpen(*transaction),
            Reason::Expired(transaction, since, now) => Reason::Expired(*transaction, *since, *now),
            Reason::ReadOnly(transaction) => Reason::ReadOnly(*transaction),
            Reason::Conflict(with) => Reason::Conflict(*with),
            Reason::TokenLength(bytes) => Reason::TokenLength(*bytes),
            Reason::TokenMark => Reason::TokenMark,
            Reason::TokenTime => Reason::TokenTime,
            Reason::TokenAhead(time, released) => Reason::TokenAhead(*time, *released),
            Reason::TargetInUse(target) => Reason::TargetInUse(*target),
            Reason::TargetUnknown(target) => Reason::TargetUnknown(*target),
            Reason::NoStream => Reason::NoStream,
            Reason::StreamUnknown(stream) => Reason::StreamUnknown(*stream),
            Reason::NotOwner => Reason::NotOwner,
            Reason::SecondStream => Reason::SecondStream,
            Reason::Stale(token, next) => Reason::Stale(*token, *next),
            Reason::Ahead(token, next) => Reason::Ahead(*token, *next),
            Reason::AtLimit(name, number) => Reason::AtLimit(name.copy(alloc)?, *number),
            Reason::Method(name) => Reason::Method(name.copy(alloc)?),
            Reason::Line(line) => Reason::Line(*line),
            Reason::Memory => Reason::Memory,
        })
    }
}
