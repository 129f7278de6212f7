use std::alloc::Global;
use std::fmt::Debug;

/// A value as `{:?}` prints it.
pub fn shown<T: Debug>(alloc: Global, value: &T) -> Option<String> {
    format!(in alloc; "{value:?}").ok()
}

/// The number that stands at a place among words, from 0; 0 where none does.
pub fn number(words: &str, place: usize) -> u64 {
    match words.split(' ').nth(place) {
        Some(word) => word.parse::<u64>().unwrap_or(0),
        None => 0,
    }
}

/// The number at a place as a byte; 255 where it is larger.
pub fn byte(words: &str, place: usize) -> u8 {
    u8::try_from(number(words, place)).unwrap_or(255)
}

/// The number at a place in 32 bits; all ones where it is larger.
pub fn word(words: &str, place: usize) -> u32 {
    u32::try_from(number(words, place)).unwrap_or(u32::MAX)
}

/// The two halves of a text, of which a tab ends the first.
pub fn halves(text: &str) -> (&str, &str) {
    text.split_once('\t').unwrap_or(("", text))
}

/// How a piece of a text follows the one before it.
#[derive(Clone, Copy)]
enum Behind {
    /// It is the first.
    Nothing,
    /// A backslash stands between them, which stands for something with what follows.
    Escape,
    /// Two backslashes stand between them.
    Backslash,
}

/// A text with what its backslashes stand for.
pub fn expanded(alloc: Global, text: &str) -> Option<String> {
    let mut said = String::new(alloc);
    let mut behind = Behind::Nothing;
    let mut good = true;
    for piece in text.split('\\') {
        good &= put_piece(&mut said, behind, piece);
        behind = match behind {
            Behind::Escape if piece.is_empty() => Behind::Backslash,
            _ => Behind::Escape,
        };
    }
    if good { Some(said) } else { None }
}

/// Appends a piece; whether there is memory for it.
fn put_piece(said: &mut String, behind: Behind, piece: &str) -> bool {
    match behind {
        Behind::Nothing => said.push_str(piece).is_ok(),
        Behind::Escape => put_escape(said, piece),
        Behind::Backslash => said.push('\\').is_ok() && said.push_str(piece).is_ok(),
    }
}

/// Appends a piece with a backslash in front.
fn put_escape(said: &mut String, piece: &str) -> bool {
    let (letter, rest) = piece.split_at_checked(1).unwrap_or(("", piece));
    let meant = match letter {
        "{" => return put_repeated(said, rest),
        "u" => return put_numbered(said, rest),
        "t" => "\t",
        "r" => "\r",
        "n" => "\n",
        letter => letter,
    };
    said.push_str(meant).is_ok() && said.push_str(rest).is_ok()
}

/// Appends `N TEXT}REST`: the text, so many times, and the rest.
fn put_repeated(said: &mut String, letters: &str) -> bool {
    let (count, rest) = letters.split_once(' ').unwrap_or(("", letters));
    let (repeated, rest) = rest.split_once('}').unwrap_or(("", rest));
    let mut good = true;
    for _ in 0..number(count, 0) {
        good &= said.push_str(repeated).is_ok();
    }
    good && said.push_str(rest).is_ok()
}

/// Appends `{HEX}REST`: the character of the number, and the rest.
fn put_numbered(said: &mut String, letters: &str) -> bool {
    let (digits, rest) = letters.split_once('}').unwrap_or(("", letters));
    let digits = digits.trim_start_matches('{');
    let number = u32::from_str_radix(digits, 16).unwrap_or(0);
    let letter = char::from_u32(number).unwrap_or('?');
    said.push(letter).is_ok() && said.push_str(rest).is_ok()
}
