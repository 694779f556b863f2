// The journal's bytes in hexadecimal, as they are typed and printed.
ghost use Rattle.std.specs.Prelude.{◌≤◌, length};

use crate::denied::Denied;
use console::push_bytes;
use std::alloc::AllocError;

// Overwrites the journal's bytes from a place on, where all that are typed lie in it.
pub fn overwrite(journal: &mut [u8], place: usize, word: &[u8]) -> Result<(), Denied> {
    if word.len() % 2 != 0 || !word.iter().all(|b| b.is_ascii_hexdigit()) {
        return Err(Denied::Syntax);
    }
    let end = place.saturating_add(word.len() / 2);
    let bytes = journal.get_mut(place..end).ok_or(Denied::Misuse)?;
    hex::decode_to_slice(word, bytes).map_err(|_| Denied::Syntax)
}

// As many bytes as are written in one piece, in fixed memory.
const PIECE: usize = 64;

fn push_piece(text: &mut Vec<u8>, piece: &[u8]) -> Result<(), AllocError>
    requires { length piece.now ≤ 64 }
{
    let mut room = [0; 2 * PIECE];
    let digits = &mut room[..2 * piece.len()];
    hex::encode_to_slice(piece, digits).unwrap();
    push_bytes(text, digits)
}

// Puts the answer with the journal's bytes behind a text.
pub fn push_dump(text: &mut Vec<u8>, journal: &[u8]) -> Result<(), AllocError> {
    push_bytes(text, b"ok ")?;
    if journal.is_empty() {
        push_bytes(text, b"-")?;
    }
    let mut rest = journal;
    while !rest.is_empty() {
        // short pieces first, so that the text's room grows by doubling from the least on
        let size = (text.len() / 2).clamp(1, PIECE);
        let (piece, behind) = rest.split_at(rest.len().min(size));
        push_piece(text, piece)?;
        rest = behind;
    }
    Ok(())
}
