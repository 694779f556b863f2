// A call that a list makes of a verification.

// With the arguments of its call: an opening's numbers, a code, the place at which a record is to be written.
#[derive(Clone, Copy, PartialEq, Eq, Debug)]
pub enum Call {
    Open {
        signal: i32,
        meter: i32,
        reference: i32,
        agreement: i32,
    },
    Level,
    Code(i32),
    Late,
    Close(usize),
}
