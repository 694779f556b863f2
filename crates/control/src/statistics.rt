// Quantity control and dominance, on an attempt's numbers.
ghost use Rattle.std.specs.Prelude.{◌≡◌, ◌-◌, ◌*◌, ◌≤◌, pos, ◌*ℤ◌, ◌≤ℤ◌, unsigned_abs};
ghost use Rattle.control.specs.Statistics.{dominant, quantity_verdict, room_left, spread_leaves_room, spread_of, student};

use crate::tally::Tally;
use method::Verdict;
use method::measures::SCALE;

// a b.
fn product(a: u32, b: u32) -> u64
    ensures { result ≡ a * b }
{
    u64::from(a) * u64::from(b)
}

// S S.
fn square_of(sum: i32) -> u64
    ensures { result ≡ unsigned_abs sum * unsigned_abs sum }
{
    let size = sum.unsigned_abs();
    product(size, size)
}

// V = N Q - S S.
fn spread_of(tally: Tally) -> i128
    ensures is { result ≡ spread_of tally }
    ensures small { unsigned_abs result ≤ 18446744073709551616 }
{
    i128::from(product(tally.squares, tally.observations)) - i128::from(square_of(tally.sum))
}

// u, 25 of Student's factor.
pub fn student(n: u32) -> u32
    ensures is { result ≡ student n }
    ensures small { result ≤ 150 }
{
    if n < 10 {
        150
    } else {
        120u32.saturating_sub(n)
    }
}

// 160,000 u u.
fn weight(u: u32) -> u64
    requires { u ≤ 150 }
    ensures is { result ≡ 160000 * (u * u) }
    ensures small { result ≤ 3600000000 }
{
    160_000 * product(u, u)
}

// k v, where neither is large.
fn scaled(k: u64, v: i128) -> i128
    requires factor { k ≤ 274877906944 }
    requires value { unsigned_abs v ≤ 18446744073709551616 }
    ensures { result ≡ pos k *ℤ v }
{
    i128::from(k) * v
}

// N - 1.
fn freedom(tally: Tally) -> u64
    ensures { result ≡ tally.observations - 1 }
{
    u64::from(tally.observations.saturating_sub(1))
}

// An attempt's numbers and its tolerance D, in their ranges.
#[derive(Clone, Copy)]
struct Judged {
    tally: Tally,
    width: u32,
    ghost few: { tally.observations ≤ 48 },
    ghost high: { width ≤ 10000000 },
}

impl Judged {
    // W = N D - 10,000 |S|, or 0 where that is negative.
    fn room(self) -> u32
        ensures { result ≡ self.tally.observations * self.width - 10000 * unsigned_abs self.tally.sum }
    {
        let Judged { tally, width, .. } = self;
        (tally.observations * width).saturating_sub(SCALE.saturating_mul(tally.sum.unsigned_abs()))
    }

    // Whether the mean and the spread of the errors leave room in the tolerance. At equality they do not.
    fn leaves_room(self) -> bool
        ensures { result ≡ spread_leaves_room self.width self.tally }
    {
        let room = self.room();
        let tally = self.tally;
        let spread = scaled(weight(student(tally.observations)), spread_of(tally));
        room > 0 && spread < scaled(freedom(tally), i128::from(product(room, room)))
    }
}

// Quantity control of an attempt's numbers under a tolerance. Callers hold numbers that no Attempt or Tolerance carries, so
// both bounds are asked of them.
pub fn quantity_control(tally: Tally, width: u32) -> Verdict
    requires few { tally.observations ≤ 48 }
    requires high { width ≤ 10000000 }
    ensures { result ≡ quantity_verdict width tally }
{
    let enough = !tally.wild && tally.observations >= 2;
    Verdict::from(enough && (tally.sum == 0 || Judged { tally, width }.leaves_room()))
}

// Whether the systematic part of the errors dominates their spread. At equality it does not.
pub fn is_dominant(tally: Tally) -> bool
    ensures { result ≡ dominant tally }
{
    let systematic = scaled(freedom(tally), i128::from(square_of(tally.sum)));
    let spread = scaled(64 * u64::from(tally.observations), spread_of(tally));
    !tally.wild && systematic > spread
}
