// Text that is put together in a buffer: bytes and numbers.
ghost use Rattle.std.specs.Prelude.{OnOk};
ghost use Rattle.console.specs.Texts.{Grown};

use itoa::{Buffer, Integer};
use std::alloc::AllocError;

// Puts bytes behind a text.
pub fn push_bytes(text: &mut Vec<u8>, bytes: &[u8]) -> Result<(), AllocError>
    ensures { OnOk result (Grown text.old.items bytes.now text.new.items) }
{
    text.extend_from_slice(bytes)
}

// Puts a number behind a text, with its sign if it is below 0.
pub fn push_number<I: Integer>(text: &mut Vec<u8>, number: I) -> Result<(), AllocError>
    ensures { OnOk result (Grown text.old.items (I.text number) text.new.items) }
{
    push_bytes(text, Buffer::new().format(number).as_bytes())
}
