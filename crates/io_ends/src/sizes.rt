//! How large lines and pieces are.

/// The most bytes of a line that is handed out, without its line feed.
pub const LONGEST: usize = 65_536;

/// The bytes of a piece: how many a call asks of the source.
pub const PIECE: usize = 16_384;
