// What crosses the boundary, at fixed widths: C reads kinds, refusals and what is not there as numbers.

// A call: 0 open (main signal or code, meter, reference, agreement), 1 level, 2 code, 3 late, 4 close, 5 certify. A closing
// and a certificate are lent the first `lent` bytes of the journal.
#[repr(C)]
#[derive(Clone, Copy)]
pub struct Call {
    pub kind: u32,
    pub value: i32,
    pub meter: i32,
    pub reference: i32,
    pub agreement: i32,
    pub lent: usize,
    pub place: usize,
}

// An answer: 0 refused (number), 1 done, 2 level (value, number, soonest), 3 undecided, 4 fit, 5 unfit, 6 written and fit,
// 7 written and unfit (length).
#[repr(C)]
#[derive(Clone, Copy)]
pub struct Reply {
    pub kind: u32,
    pub value: i32,
    pub number: u32,
    pub soonest: u32,
    pub length: usize,
}

impl Reply {
    // An answer that has a kind alone.
    pub(crate) fn plain(kind: u32) -> Reply {
        Reply {
            kind,
            value: 0,
            number: 0,
            soonest: 0,
            length: 0,
        }
    }
}

// What a plan answers, or the number of the question that refused it.
#[repr(C)]
#[derive(Clone, Copy)]
pub struct Asked {
    pub refused: u32,
    pub cut: u32,
    pub cut_number: u32,
    pub margin: u32,
    pub trapezoid: u32,
    pub uniform: u32,
    pub accept: i32,
    pub reject: u32,
    pub offset: i32,
}

// As many fields as the longest record has.
pub const FIELDS: usize = 13;

// A record by the number of its kind and its fields in order; or a fault, whose kind is 0 and whose fields are the number of
// the question and the layer (1 kind, 2 bits, 3 field).
#[repr(C)]
#[derive(Clone, Copy)]
pub struct Item {
    pub ordinal: usize,
    pub first_byte: usize,
    pub kind: u32,
    pub fields: [i32; FIELDS],
}
