ghost use Rattle.std.specs.Prelude.{◌≡◌, ◌-◌, ◌<◌, ◌≤◌, length, take, drop, slice_index_or};
ghost use Rattle.std.specs.List.{prefix_len};
ghost use Rattle.std.specs.Char.{is_ascii_digit, is_ascii_alphabetic};
ghost use Rattle.doc_types.specs.Tokens.{is_blank, is_name};

/// Whether a byte is a space, a tab, LF or CR.
pub fn is_blank(byte: u8) -> bool
    ensures { result ≡ is_blank byte }
{
    byte == b' ' || byte == b'\t' || byte == b'\n' || byte == b'\r'
}

/// Whether a byte is a letter, a digit or `_`.
pub fn is_name(byte: u8) -> bool
    ensures { result ≡ is_name byte }
{
    byte.is_ascii_alphabetic() || byte.is_ascii_digit() || byte == b'_'
}

/// How many bytes at the front are blanks.
pub fn blank_run(bytes: &[u8]) -> usize
    ensures run { result ≡ prefix_len is_blank bytes.now }
    ensures within { result ≤ length bytes.now }
{
    bytes.iter().take_while(|byte| is_blank(**byte)).count()
}

/// How many bytes at the front may stand in a name.
pub fn name_run(bytes: &[u8]) -> usize
    ensures run { result ≡ prefix_len is_name bytes.now }
    ensures within { result ≤ length bytes.now }
{
    bytes.iter().take_while(|byte| is_name(**byte)).count()
}

/// How many bytes at the front are digits.
pub fn digit_run(bytes: &[u8]) -> usize
    ensures run { result ≡ prefix_len is_ascii_digit bytes.now }
    ensures within { result ≤ length bytes.now }
{
    bytes
        .iter()
        .take_while(|byte| byte.is_ascii_digit())
        .count()
}

/// A text cut behind so many bytes, of which the last is ASCII.
pub fn cut(text: &str, size: usize) -> (&str, &str)
    requires within { size ≤ length text.now }
    requires some { 1 ≤ size }
    requires ascii { slice_index_or text.now (size - 1) 0 < 128 }
    ensures front { result.0.now ≡ take size text.now }
    ensures rest { result.1.now ≡ drop size text.now }
{
    text.split_at(size)
}
