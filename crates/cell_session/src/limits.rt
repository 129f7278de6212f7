//! What a session may have.

/// The most lines of a session.
pub const MOST_LINES: u32 = 50_000;

/// The most bytes of a session, line feeds among them.
pub const MOST_BYTES: u64 = 67_108_864;

/// The most lines of a session that are read as states.
pub const MOST_STATES: u8 = 64;

/// The most lines of a session that are read as upkeep.
pub const MOST_MAINTAINS: u8 = 64;
