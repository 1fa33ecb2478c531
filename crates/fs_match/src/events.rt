//! What a change of a document is to a listener.

/// What a change of a document is to whoever listens to a query or to a list of names. A document *fits* where it fits the query
/// (cursors, offset and limit aside), or where its name is among those listened to.
///
/// | before | after | event |
/// |---|---|---|
/// | doesn't fit | fits | `Enter` |
/// | fits | fits, and is another | `Change` |
/// | fits | doesn't fit | `Leave` |
/// | fits | is the same | `None` |
/// | doesn't fit | doesn't fit | `None` |
///
/// (v1 reference, `DocumentChange`, `DocumentDelete` and `DocumentRemove`.)
#[derive(Clone, Copy, PartialEq, Eq)]
pub enum Event {
    /// It comes to be among those that fit.
    Enter,
    /// It stays among them, with other fields or times.
    Change,
    /// It is no more among them.
    Leave,
    /// Nothing changes there.
    None,
}
