// A text in hexadecimal, byte by byte: blanks stand anywhere, and a line that begins with # is a comment.
ghost use Rattle.std.specs.Prelude.{◌≡◌, ◌+◌, ◌*◌, ◌%◌};
ghost use Rattle.report.specs.Hex.{blank, fault_of, hex_digit, paired, spot_after, step_of, token_at};
ghost use Rattle.report.specs.declared.scan.HexError.TheVariants.{NoMemory};

use std::alloc::AllocFailed;
use thiserror::Error;

// Why a text gives no bytes.
#[derive(Clone, Copy, PartialEq, Eq, Debug, Error)]
pub enum HexError {
    #[error("The input is not hexadecimal.")]
    NotHex,
    #[error("The input has an odd number of hexadecimal digits.")]
    OddDigits,
    #[error("There is not enough memory for the input.")]
    NoMemory,
}

impl<T: Drop> From<AllocFailed<T>> for HexError {
    ghost from_gives = { λ _ e. e ≡ NoMemory };

    fn from(_failed: AllocFailed<T>) -> HexError {
        HexError::NoMemory
    }
}

// Where a byte of the text stands.
#[derive(Clone, Copy)]
pub(crate) enum Spot {
    LineStart,
    InLine,
    Comment,
}

#[derive(Clone, Copy)]
enum Token {
    Skipped,
    Digit(u8),
    Wrong,
}

// What is known before the next byte of the text: a first digit waits for its second, and whether no byte was wrong.
#[derive(Clone, Copy)]
pub(crate) struct Scan {
    pub(crate) spot: Spot,
    pub(crate) high: Option<u8>,
    pub(crate) sound: bool,
}

// The scan behind a byte of the text, and the byte that its digit completes.
#[derive(Clone, Copy)]
pub(crate) struct Step {
    pub(crate) scan: Scan,
    pub(crate) byte: Option<u8>,
}

fn hex_digit(b: u8) -> Option<u8>
    ensures { result ≡ hex_digit b }
{
    // `as` is proved to lose nothing: a digit is below 16.
    char::from(b).to_digit(16).map(|d| d as u8)
}

// As the words of a line are parted in `console`, on which this crate does not stand. A vertical tab is a blank too,
// which `is_ascii_whitespace` leaves out.
fn is_blank(b: u8) -> bool
    ensures { result ≡ blank b }
{
    b == b' ' || (b'\t'..=b'\r').contains(&b)
}

// Where the text stands once b was read.
fn spot_after(spot: Spot, b: u8) -> Spot
    ensures { result ≡ spot_after spot b }
{
    if b == b'\n' {
        return Spot::LineStart;
    }
    match spot {
        Spot::LineStart if b == b'#' => Spot::Comment,
        Spot::LineStart if is_blank(b) => Spot::LineStart,
        Spot::LineStart | Spot::InLine => Spot::InLine,
        Spot::Comment => Spot::Comment,
    }
}

// What b is, at the spot that it leads to.
fn token_at(spot: Spot, b: u8) -> Token
    ensures { result ≡ token_at spot b }
{
    match spot {
        Spot::InLine if !is_blank(b) => hex_digit(b).map_or(Token::Wrong, Token::Digit),
        Spot::InLine | Spot::LineStart | Spot::Comment => Token::Skipped,
    }
}

// Two digits are below 16, so that nothing wraps.
fn paired(high: u8, low: u8) -> u8
    ensures { result ≡ paired high low }
{
    high.wrapping_mul(16).wrapping_add(low)
}

pub(crate) fn advance(scan: Scan, b: u8) -> Step
    ensures { result ≡ step_of scan b }
{
    let spot = spot_after(scan.spot, b);
    let Scan { high, sound, .. } = scan;
    match (token_at(spot, b), high) {
        (Token::Skipped, _) => Step {
            scan: Scan { spot, high, sound },
            byte: None,
        },
        (Token::Wrong, _) => Step {
            scan: Scan {
                spot,
                high,
                sound: false,
            },
            byte: None,
        },
        (Token::Digit(digit), None) => Step {
            scan: Scan {
                spot,
                high: Some(digit),
                sound,
            },
            byte: None,
        },
        (Token::Digit(digit), Some(first)) => Step {
            scan: Scan {
                spot,
                high: None,
                sound,
            },
            byte: Some(paired(first, digit)),
        },
    }
}

// What is wrong with a text that ends here.
pub(crate) fn fault_of(scan: Scan) -> Option<HexError>
    ensures { result ≡ fault_of scan }
{
    if !scan.sound {
        Some(HexError::NotHex)
    } else if scan.high.is_some() {
        Some(HexError::OddDigits)
    } else {
        None
    }
}
