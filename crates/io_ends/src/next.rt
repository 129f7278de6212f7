/// Which limit a session reached; a reader of lines knows the first two alone.
#[derive(Clone, Copy, Debug, PartialEq, Eq)]
pub enum LimitKind {
    /// More lines than a session may have.
    Lines,
    /// A line that ends past the last byte that a session may have.
    Bytes,
    /// More lines that are read as states than a session may have.
    States,
    /// More lines that are read as upkeep than a session may have.
    Maintains,
}

/// What a call of `LineReader::next` answers.
#[derive(Clone, Copy, Debug, PartialEq, Eq)]
pub enum Next {
    /// The line of this number, from 1, is in the buffer that was handed in, without its line feed.
    Line { number: u32 },
    /// The line of this number has more than 65,536 bytes and was passed over.
    TooLong { number: u32 },
    /// There is no further line.
    End,
    /// There is a further line, and it is past this limit.
    Limit { which: LimitKind },
    /// The source failed; the next call reads it again.
    ReadFault,
    /// Want of memory for the line; the next call answers the same line.
    NoMemory,
}
