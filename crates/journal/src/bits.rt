// A row of bits, the most significant first: fields are put behind one another, or taken off one by one.
ghost use Rattle.std.specs.Prelude.{◌≡◌, ◌+◌, ◌-◌, ◌*◌, ◌%◌, ◌^◌, ◌≤◌, true, length};
ghost use Rattle.journal.specs.Bits.{word_of};
ghost use Rattle.journal.specs.Cursor.{behind, first, put};

use crate::coded::Coded;
use crate::field::Field;

// The bits that were put so far, as one number; how many more the record has; whether each number was in its range.
// A flag, and no Result: what is packed is said of every number, in its range or not.
#[derive(Drop)]
pub struct Packing {
    pub(crate) word: u128,
    pub(crate) left: u32,
    pub(crate) in_range: bool,
}

impl Packing {
    // Puts a field behind the others.
    #[tactic(auto, using(crate::specs::Shifts::code_below), unfolding(crate::specs::Cursor::put))]
    pub(crate) fn put<T: Coded>(&mut self, field: Field, value: T)
        requires { field.width ≤ 30 }
        ensures { self.new ≡ put field (T.code_of value) self.old }
    {
        let number = value.code();
        self.word = (self.word << field.width) + u128::from(field.code(number));
        self.left = self.left.saturating_sub(field.width);
        self.in_range &= field.holds(number);
    }
}

// The bits that are still to be taken, at the head of 128; whether each number that was taken was in its range.
// A flag, and no Result, which would end the taking: the fill is asked about before the ranges.
#[derive(Drop)]
pub struct Unpacking {
    pub(crate) word: u128,
    pub(crate) in_range: bool,
}

impl Unpacking {
    // The bits behind the kind of the record that these bytes are.
    #[tactic(auto, using(crate::proofs::Bytes::headed_bytes))]
    pub(crate) fn behind_kind(bytes: &[u8]) -> Unpacking
        requires { length bytes.now ≤ 16 }
        ensures { result ≡ record { word = (word_of (length bytes.now) bytes.now * 2 ^ (132 - 8 * length bytes.now)) % 2 ^ 128; in_range = true } }
    {
        let mut head = [0; 16];
        head[..bytes.len()].copy_from_slice(bytes);
        Unpacking {
            word: u128::from_be_bytes(head) << 4,
            in_range: true,
        }
    }

    // Takes the value that the first field holds.
    #[tactic(auto, using(crate::specs::Shifts::first_below, crate::specs::Shifts::first_fits), unfolding(crate::specs::Cursor::first, crate::specs::Cursor::behind))]
    pub(crate) fn take<T: Coded>(&mut self, field: Field) -> T
        requires some { 1 ≤ field.width }
        requires narrow { field.width ≤ 30 }
        ensures value { result ≡ T.value_of (first field self.old) }
        ensures rest { self.new ≡ behind field self.old }
    {
        // At most 30 bits: `as` is proved to lose nothing.
        let number = field.number((self.word >> (128 - field.width)) as u32);
        self.word <<= field.width;
        self.in_range &= field.holds(number);
        T::of(number)
    }
}
