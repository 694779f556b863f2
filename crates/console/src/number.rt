// The numbers of a line: decimal, with an optional minus sign.
ghost use Rattle.console.specs.Grammar.{Took};
ghost use Rattle.console.specs.Words.{left};
ghost use Rattle.std.specs.Prelude.{◌≡◌, ◌+◌, ◌-◌, ◌*◌, ◌≤◌, min, IfSome};
ghost use Rattle.console.specs.Numbers.{digits, largest, numeral, saturated_value, unsigned};

use crate::words::Words;

// Larger numbers are taken as this one, which is outside every range. By `as`, since a constant's value has no calls.
const LARGEST: u32 = i32::MAX as u32;

fn are_digits(word: &[u8]) -> bool
    ensures { result ≡ digits word.now }
{
    word.iter().all(|b| b.is_ascii_digit())
}

// One digit more of a number, which no more than the largest comes of.
fn with_digit(n: u32, b: u8) -> u32
    ensures { result ≡ min largest (10 * n + (b - 48)) }
{
    n.saturating_mul(10)
        .saturating_add(u32::from(b.saturating_sub(b'0')))
        .min(LARGEST)
}

// The number that digits write.
fn value_of(word: &[u8]) -> u32
    ensures is { result ≡ saturated_value word.now }
    ensures small { result ≤ largest }
{
    word.iter().fold(0, |n, b| with_digit(n, *b))
}

// The number that a word of digits writes.
fn parse_digits(word: &[u8]) -> Option<u32>
    ensures is { result ≡ unsigned word.now }
    ensures small { IfSome result (λ n. n ≤ largest) }
{
    if word.is_empty() || !are_digits(word) {
        return None;
    }
    Some(value_of(word))
}

// The number that a word writes, if it is one.
pub fn parse_number(word: &[u8]) -> Option<i32>
    ensures { result ≡ numeral word.now }
{
    // `as` is proved to lose nothing, and no `From` leads from a u32 to an i32.
    match word {
        [b'-', behind @ ..] => parse_digits(behind).map(|n| -(n as i32)),
        _ => parse_digits(word).map(|n| n as i32),
    }
}

// The number that the next word writes, if it does.
pub fn next_number(words: &mut Words) -> Option<i32>
    ensures { Took numeral result (left words.old) (left words.new) }
{
    parse_number(words.next()?)
}
