// The bytes of a text in hexadecimal.
ghost use Rattle.report.specs.Hex.{Refuses, hex_bytes, hex_fault};
ghost use Rattle.std.specs.Prelude.{◌≡◌, ◌++◌, None, MatchResult};
ghost use Rattle.std.specs.Option.{option_to_list};

use crate::scan::{HexError, Scan, Spot, advance, fault_of};
use std::alloc::Global;

// Puts a byte, if there is one, behind the others.
fn keep(bytes: &mut Vec<u8>, byte: Option<u8>) -> Result<(), HexError>
    ensures { MatchResult result (λ _. bytes.new.items ≡ bytes.old.items ++ option_to_list byte) (λ e. e ≡ HexError.NoMemory) }
{
    if let Some(byte) = byte {
        bytes.push(byte)?;
    }
    Ok(())
}

// The bytes that a text writes, two digits each. The kit's `hex` reads neither blanks nor comments, and tells odd digits before wrong
// ones. A text is read to its end also where it is wrong, so that want of memory is told where it is wanting.
pub fn bytes_of_hex(heap: Global, text: &[u8]) -> Result<Vec<u8>, HexError>
    ensures { MatchResult result (λ v. (hex_fault text.now ≡ None) × (v.items ≡ hex_bytes text.now)) (λ e. Refuses (hex_fault text.now) e) }
{
    let mut scan = Scan {
        spot: Spot::LineStart,
        high: None,
        sound: true,
    };
    let mut bytes = Vec::new(heap);
    for b in text {
        let next = advance(scan, *b);
        keep(&mut bytes, next.byte)?;
        scan = next.scan;
    }
    match fault_of(scan) {
        Some(error) => Err(error),
        None => Ok(bytes),
    }
}
