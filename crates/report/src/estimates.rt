// The mean error, its confidence limit and the ratio of the systematic part to the random one, in hundredths.
ghost use Rattle.std.specs.Prelude.{◌≡◌, ◌*◌, ◌≤◌, is_some, IfSome, unsigned_abs};
ghost use Rattle.report.specs.Estimates.{LimitOf, MeanOf, RatioOf, estimable, ranged, spread_of};

use crate::dispersion::Dispersion;
use crate::ratio::Ratio;
use crate::rounding::rounded;
use control::student;
use journal::SequenceFields;

// Whether the numbers lie in a record's ranges, with two observations at least.
fn are_ranged(fields: &SequenceFields) -> bool
    ensures { result ≡ ranged fields.now }
{
    (2..=48).contains(&fields.observations)
        && (-96_000..=96_000).contains(&fields.sum)
        && (0..=192_000_000).contains(&fields.squares)
}

// N, |S| and V, unless no deviation can be estimated: one observation, or squares too small for the sum.
fn dispersion_of(fields: &SequenceFields) -> Option<Dispersion>
    ensures test { is_some result ≡ estimable fields.now }
    ensures numbers { IfSome result (λ d. (d.observations ≡ unsigned_abs fields.now.observations) × (d.size ≡ unsigned_abs fields.now.sum) × (d.spread ≡ spread_of fields.now)) }
{
    if !are_ranged(fields) {
        return None;
    }
    let observations = fields.observations.unsigned_abs();
    let size = u64::from(fields.sum.unsigned_abs());
    let squares = u64::from(observations) * u64::from(fields.squares.unsigned_abs());
    let spread = squares.checked_sub(size * size)?;
    Some(Dispersion {
        observations,
        size,
        spread,
    })
}

// The size of the mean of as many errors in tenths, in hundredths of a step.
pub fn mean_size(sum: i32, observations: i32) -> Option<u64>
    ensures { MeanOf sum observations result }
{
    if observations < 1 {
        return None;
    }
    let n = u64::from(observations.unsigned_abs());
    Some(rounded(n, 10 * u64::from(sum.unsigned_abs()), 0, 1))
}

// The size of the error's confidence limit, in hundredths of a step: the mean's and Student's factor times its deviation.
pub fn limit_size(fields: &SequenceFields) -> Option<u64>
    ensures { LimitOf fields.now result }
{
    let d = dispersion_of(fields)?;
    let n = u64::from(d.observations);
    let u = u64::from(student(d.observations));
    let p = 4 * (u * u) * d.spread;
    let q = 25 * (n - 1);
    Some(rounded(n, 10 * d.size, p, q))
}

// The size of the ratio of the mean to the standard deviation of the observations.
pub fn ratio_size(fields: &SequenceFields) -> Ratio
    ensures { RatioOf fields.now result }
{
    let Some(d) = dispersion_of(fields) else {
        return Ratio::Undefined;
    };
    let n = u64::from(d.observations);
    if d.spread > 0 {
        let p = 10_000 * (d.size * d.size) * (n - 1);
        Ratio::Hundredths(rounded(1, 0, p, n * d.spread))
    } else if d.size > 0 {
        Ratio::Infinite
    } else {
        Ratio::Undefined
    }
}
