//! The words of a line, with a blank between.

/// The first of some words, and the others.
pub fn halves(words: &str) -> (&str, &str) {
    words.split_once(' ').unwrap_or((words, ""))
}

/// The word of a place, or none at all where there are fewer.
pub fn word(words: &str, at: usize) -> &str {
    words.split_ascii_whitespace().nth(at).unwrap_or("")
}

/// The number of a place.
pub fn number(words: &str, at: usize) -> Option<u64> {
    word(words, at).parse::<u64>().ok()
}

/// The same in 32 bits.
pub fn short(words: &str, at: usize) -> Option<u32> {
    word(words, at).parse::<u32>().ok()
}

/// The same in 8 bits.
pub fn small(words: &str, at: usize) -> Option<u8> {
    word(words, at).parse::<u8>().ok()
}
