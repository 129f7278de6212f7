ghost use Rattle.std.specs.Prelude.{◌≡◌, ◌≢◌, ℕ, ◌^◌, ◌<◌, IfOk, MatchOption};
ghost use Rattle.std.specs.String.{string_bytes};
ghost use Rattle.bucket_ids.specs.Printed.{hex_digit, hex_digits};

use std::alloc::Global;
use value_lists::NoMemory;

/// The character of a hexadecimal digit.
fn hex_digit(digit: u64) -> u8
    requires { digit < 16 }
    ensures value { result ≡ hex_digit digit }
    ensures ascii { result < 128 }
{
    if digit < 10 {
        48 + digit as u8
    } else {
        87 + digit as u8
    }
}

/// The digit that this character stands for.
fn digit_of(byte: u8) -> Option<u64>
    ensures { MatchOption result ((d : ℕ) → d < 16 → byte ≢ hex_digit d)
        (λ d. (d < 16) × (byte ≡ hex_digit d)) }
{
    match byte {
        b'0'..=b'9' => Some(u64::from(byte - b'0')),
        b'a'..=b'f' => Some(u64::from(byte - b'a') + 10),
        _ => None,
    }
}

/// All 16 hexadecimal digits of a number, in a text.
pub fn print_number(alloc: Global, number: u64) -> Result<String, NoMemory>
    ensures { IfOk result (λ text. string_bytes text ≡ hex_digits 16 number) }
{
    let mut text = String::with_capacity(alloc, 16)?;
    for done in 0..16u32 {
        let digit = (number >> (60 - 4 * done)) % 16;
        text.push(char::from(hex_digit(digit)))?;
    }
    Ok(text)
}

/// The number of 16 hexadecimal digits.
pub fn bucket_number(bytes: &[u8]) -> Option<u64>
    ensures { MatchOption result ((n : ℕ) → bytes.now ≢ hex_digits 16 n)
        (λ n. (n < 2 ^ 64) × (bytes.now ≡ hex_digits 16 n)) }
{
    if bytes.len() != 16 {
        return None;
    }
    let mut number = 0;
    for byte in bytes {
        match digit_of(*byte) {
            Some(digit) => number = number * 16 + digit,
            None => return None,
        }
    }
    Some(number)
}
