// A laboratory's own plan, kept in fixed memory.
ghost use Rattle.std.specs.Prelude.{◌≡◌, ◌≤◌, true, length, take, pos, is_some, IfSome, IfOk};
ghost use Rattle.method.specs.Refusals.{between, refused_by};
ghost use Rattle.method.specs.Tables.{Limited, in_force, numbers_ranged, passed, rising, rows_ranged, rows_stand, table_refusal, tabled};
ghost use Rattle.method.specs.TableRanges.{table_ranged};

use crate::measures::{
    COEFFICIENT_MAX, CUT_MAX, CUT_MIN, MARGIN_MAX, NO_ACCEPT, NO_OFFSET, NO_REJECT, PEAK_MAX,
    ROWS_MAX,
};
use crate::plan::{Plan, is_within, peaked_offset};
use crate::question::Question;
use crate::ranges::limit;
use crate::row::{Row, TableLimits, TableNumbers};
use crate::rows::Rows;

#[derive(Clone, Copy)]
pub struct Tabled {
    rows: Rows,
    limits: TableLimits,
    ghost ranged: { rows_ranged rows ≡ true },
    ghost cut_low: { 2 ≤ limits.cut },
    ghost cut_high: { limits.cut ≤ 48 },
    ghost cut_number_high: { limits.cut_number ≤ limits.cut },
    ghost margin_high: { limits.margin ≤ 100000 },
    ghost trapezoid_high: { limits.trapezoid ≤ 9999 },
    ghost uniform_high: { limits.uniform ≤ 9999 },
    ghost peak_high: { limits.peak ≤ 24 },
}

// Whether the rows' first observations rise strictly, none above the cut.
fn rise(cut: i32, rows: &[Row]) -> bool
    ensures { result ≡ rising cut (pos 0) rows.now }
{
    let mut last = 0;
    for row in rows {
        if row.from <= last || row.from > cut {
            return false;
        }
        last = row.from;
    }
    true
}

fn stand(cut: i32, rows: &[Row]) -> bool
    ensures { result ≡ rows_stand cut rows.now }
{
    (1..=ROWS_MAX).contains(&rows.len()) && rows[0].from == 1 && rise(cut, rows)
}

// Whether each row's accept and reject numbers lie in their ranges.
fn are_ranged(rows: &[Row]) -> bool
    ensures { result ≡ rows_ranged rows.now }
{
    rows.iter().all(|row| (-1..=48).contains(&row.accept) && (0..=49).contains(&row.reject))
}

// The numbers behind the cut, where they lie in their ranges.
fn limited(cut: u32, t: TableNumbers) -> Option<TableLimits>
    requires low { 2 ≤ cut }
    requires high { cut ≤ 48 }
    requires cut { pos cut ≡ t.cut }
    ensures test { is_some result ≡ numbers_ranged t }
    ensures value { IfSome result (λ l. (passed l ≡ t) × Limited l) }
{
    Some(TableNumbers {
        cut,
        cut_number: limit(0, cut, t.cut_number)?,
        margin: limit(0, MARGIN_MAX, t.margin)?,
        trapezoid: limit(0, COEFFICIENT_MAX, t.trapezoid)?,
        uniform: limit(0, COEFFICIENT_MAX, t.uniform)?,
        peak: limit(0, PEAK_MAX, t.peak)?,
    })
}

impl Tabled {
    // A plan of 1 to 8 rows, in their order, with the table's other numbers.
    pub fn new(rows: &[Row], numbers: TableNumbers) -> Result<Tabled, Question>
        ensures refuses { refused_by result ≡ table_refusal rows.now numbers }
        ensures makes { IfOk result (λ t. (t.rows ≡ rows.now) × (passed t.limits ≡ numbers)) }
    {
        let cut = limit(CUT_MIN, CUT_MAX, numbers.cut).ok_or(Question::TableInRange)?;
        if !stand(numbers.cut, rows) {
            return Err(Question::RowsStand);
        }
        let limits = limited(cut, numbers).ok_or(Question::TableInRange)?;
        if !are_ranged(rows) {
            return Err(Question::TableInRange);
        }
        Ok(Tabled {
            rows: Rows::new(rows),
            limits,
        })
    }
}

impl Plan for Tabled {
    ghost meaning = { λ t. tabled t.rows t.limits };

    ghost ranged = { λ t. table_ranged t.rows t.limits t.ranged (t.cut_low, t.cut_high, t.cut_number_high, t.margin_high, t.trapezoid_high, t.uniform_high, t.peak_high) };

    fn cut(&self) -> u32 {
        self.limits.cut
    }

    fn cut_number(&self) -> u32 {
        self.limits.cut_number
    }

    // Each answer is asked for by its own name: a function over the three would name them as often.
    fn accept_number(&self, i: u32) -> i32 {
        if is_within(self.limits.cut, i) {
            self.rows.in_force(i).accept
        } else {
            NO_ACCEPT
        }
    }

    fn reject_number(&self, i: u32) -> u32 {
        if is_within(self.limits.cut, i) {
            self.rows.in_force(i).reject.unsigned_abs()
        } else {
            NO_REJECT
        }
    }

    fn offset(&self, i: u32) -> i32 {
        if is_within(self.limits.cut, i) {
            peaked_offset(self.limits.peak, i)
        } else {
            NO_OFFSET
        }
    }

    fn margin(&self) -> u32 {
        self.limits.margin
    }

    fn trapezoid_k(&self) -> u32 {
        self.limits.trapezoid
    }

    fn uniform_k(&self) -> u32 {
        self.limits.uniform
    }
}
