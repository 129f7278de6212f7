//! The words of a line, with a blank between.

/// The first of some words, and the others.
pub fn halves(words: &str) -> (&str, &str) {
    words.split_once(' ').unwrap_or((words, ""))
}

/// The word of a place, or none at all where there are fewer.
pub fn word(words: &str, at: usize) -> &str {
    words.split(' ').nth(at).unwrap_or("")
}

/// The number of a place; 0 where none stands there.
pub fn number(words: &str, at: usize) -> u32 {
    word(words, at).parse::<u32>().unwrap_or(0)
}

/// The same of a number of more bits.
pub fn long(words: &str, at: usize) -> u64 {
    word(words, at).parse::<u64>().unwrap_or(0)
}

/// The same of one that may be below 0.
pub fn signed(words: &str, at: usize) -> i64 {
    word(words, at).parse::<i64>().unwrap_or(0)
}

/// The node of a place; 0 where none stands there.
pub fn node(words: &str, at: usize) -> u8 {
    word(words, at).parse::<u8>().unwrap_or(0)
}

/// Whether a word is of a kind: a number, any word, or at a dot none.
fn is_of(word: &str, kind: &str) -> bool {
    match kind {
        "u8" => word.parse::<u8>().is_ok(),
        "u32" => word.parse::<u32>().is_ok(),
        "u64" => word.parse::<u64>().is_ok(),
        "i64" => word.parse::<i64>().is_ok(),
        "word" => !word.is_empty(),
        _ => word.is_empty(),
    }
}

/// Whether words are of these kinds.
fn are(words: &str, kinds: &str) -> bool {
    let mut good = true;
    for (at, kind) in kinds.split(' ').enumerate() {
        good &= is_of(word(words, at), kind);
    }
    good
}

/// Whether the words behind a verb are of the kinds that stand beside the verb. Behind a dot there are none.
pub fn fits(shapes: &[(&str, &str)], verb: &str, words: &str) -> bool {
    let mut good = false;
    for (of, kinds) in shapes {
        good |= *of == verb && are(words, kinds);
    }
    good
}
