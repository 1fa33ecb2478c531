//! How much a run reads, and how much of it at a time.

/// The longest line that is read, in bytes without its newline.
pub const LONGEST_LINE: usize = 10_485_760;

/// So many bytes end a run. No more are taken from the source.
pub const LONGEST_INPUT: usize = 4_294_967_296;

/// The bytes of one read at most. Output goes to the sink once it has so many, and fewer wait behind each line.
pub const PIECE: usize = 65_536;
