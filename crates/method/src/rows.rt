// A table's rows, in fixed memory.
ghost use Rattle.std.specs.Prelude.{◌≡◌, ◌≤◌, length};
ghost use Rattle.method.specs.Tables.{in_force};

use crate::measures::ROWS_MAX;
use crate::row::Row;
use std::marker::Model;

const NO_ROW: Row = Row {
    from: 0,
    accept: -1,
    reject: 49,
};

// Up to 8 rows, with no heap. A plan copies, as an `ArrayVec` would not, so the length stands beside. No row stands in the
// places behind them, so that the rows alone say what is kept.
#[derive(Clone, Copy)]
pub struct Rows {
    all: [Row; ROWS_MAX],
    len: usize,
}

impl Model for Rows {
    ghost use Rattle.std.specs.Prelude.{◌≤◌, List, length, take, refl};
    ghost use Rattle.method.specs.declared.row.Row.{Row};
    ghost use Rattle.method.specs.FixedRows.{Fixed, fixed};

    ghost Value = { List Row };

    ghost view = { λ r. take r.len r.all };

    ghost invariant = { λ r. Fixed r.all r.len };

    ghost inverse = { λ rows. record { all = fixed rows; len = length rows } };

    ghost inverse_ok = { λ r h. rw (h.all, h.len) refl };
}

impl Rows {
    pub(crate) fn new(rows: &[Row]) -> Rows
        requires { length rows.now ≤ 8 }
        ensures { result ≡ rows.now }
    {
        let mut all = [NO_ROW; ROWS_MAX];
        all[..rows.len()].copy_from_slice(rows);
        Rows {
            all,
            len: rows.len(),
        }
    }

    // The row in force at observation i.
    pub(crate) fn in_force(&self, i: u32) -> Row
        ensures { result ≡ in_force self.now i }
    {
        self.all[..self.len].iter().fold(NO_ROW, |earlier, row| {
            if i64::from(row.from) <= i64::from(i) {
                *row
            } else {
                earlier
            }
        })
    }
}
