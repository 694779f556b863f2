// The rows and numbers of a laboratory's own plan, as a caller passes them.

// From observation `from` on: the accept number, -1 for none, and the reject number.
#[derive(Clone, Copy, PartialEq, Eq, Debug, Default)]
pub struct Row {
    pub from: i32,
    pub accept: i32,
    pub reject: i32,
}

// A table's other numbers: as they are passed, or as a `TableLimits`.
#[derive(Clone, Copy, PartialEq, Eq, Debug)]
pub struct TableNumbers<N = i32> {
    pub cut: N,
    pub cut_number: N,
    pub margin: N,
    pub trapezoid: N,
    pub uniform: N,
    pub peak: N,
}

// The same numbers once they are known to lie in their ranges.
pub type TableLimits = TableNumbers<u32>;
