ghost use Rattle.std.specs.Prelude.{◌≡◌, ◌≢◌, ◌⊎◌, ℕ, ◌^◌, ◌<◌, length, slice_index, IsTrue, IsFalse, MatchOption, MatchResult};
ghost use Rattle.std.specs.Fmt.{decimal};
ghost use Rattle.clap.specs.Words.{found_of, rows_of};
ghost use Rattle.words_line.specs.Said.{IsNumber, said};

use crate::command::given;
use crate::options::WordsFault;
use clap::ArgMatches;

/// Whether these bytes have neither a plus sign nor a leading zero in front.
fn has_plain_front(bytes: &[u8]) -> bool
    ensures plain { IsTrue result → (slice_index bytes.now 0 ≢ 43)
        × (slice_index bytes.now 0 ≡ 48 → length bytes.now ≡ 1) }
    ensures odd { IsFalse result → (slice_index bytes.now 0 ≡ 43)
        ⊎ ((slice_index bytes.now 0 ≡ 48) × (length bytes.now ≢ 1)) }
{
    match bytes {
        [b'+', ..] => false,
        [b'0', ..] => bytes.len() == 1,
        _ => true,
    }
}

/// The number of a plain decimal.
fn plain_number(text: &str) -> Option<u32>
    ensures { MatchOption result ((n : ℕ) → n < 2 ^ 32 → text.now ≢ decimal n)
        (λ n. (text.now ≡ decimal n) × (n < 2 ^ 32)) }
{
    if !has_plain_front(text.as_bytes()) {
        return None;
    }
    text.parse().ok()
}

/// The number that a text says, which must lie in the range.
pub fn number_in(text: &str, least: u32, most: u32) -> Result<u32, WordsFault>
    ensures { MatchResult result (IsNumber least most text.now)
        (λ _. (n : ℕ) → IsNumber least most text.now n → ⊥) }
{
    let Some(number) = plain_number(text) else {
        return Err(WordsFault::Usage);
    };
    if number < least {
        return Err(WordsFault::Usage);
    }
    if most < number {
        return Err(WordsFault::Usage);
    }
    Ok(number)
}

/// The number of an option, or of its default, which must lie in the range.
pub fn number(
    matches: &ArgMatches,
    name: &str,
    default: &str,
    least: u32,
    most: u32,
) -> Result<u32, WordsFault>
    ensures { let text = said (rows_of (found_of matches.now)) name.now default.now in
        MatchResult result (IsNumber least most text) (λ _. (n : ℕ) → IsNumber least most text n → ⊥) }
{
    number_in(given(matches, name).unwrap_or(default), least, most)
}
