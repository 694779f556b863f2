// Means, confidence limits and ratios, in hundredths, and how a point came to its verdict.
use journal::{FirstAttempt, Quantity, SequenceFields};
use method::Verdict;
use report::{Ratio, SettlingEnd, attempts_made, limit_size, mean_size, ratio_size, settling_end};

// A record with these N, S and Q.
fn attempt(observations: i32, sum: i32, squares: i32) -> SequenceFields {
    SequenceFields {
        point: 1,
        first_attempt: FirstAttempt::Absent,
        observations,
        outs: 0,
        sequence: Verdict::Fit,
        quantity: Quantity::Fit,
        wild: false,
        dominance: false,
        verdict: Verdict::Fit,
        settling_codes: 3,
        tolerance: 877_460,
        sum,
        squares,
    }
}

// Errors of 1.0, 0.9, 1.8 and 1.7 steps: V = 260, and 13.5 + 6 √(260 / 48) = 27.46 tenths.
#[test]
fn example_of_the_method(rt: HostRuntime) {
    let fields = attempt(4, 54, 794);
    assert_eq!(rt; mean_size(54, 4), Some(135));
    assert_eq!(rt; limit_size(&fields), Some(275));
    assert_eq!(rt; ratio_size(&fields), Ratio::Hundredths(290));
    assert_eq!(rt; limit_size(&attempt(4, -54, 794)), Some(275));
}

// With S = 0 and a mean's deviation of one tenth the limit is Student's factor: 6, 4.4 and 2.88 tenths.
#[test]
fn student_by_observations(rt: HostRuntime) {
    assert_eq!(rt; limit_size(&attempt(9, 0, 72)), Some(60));
    assert_eq!(rt; limit_size(&attempt(10, 0, 90)), Some(44));
    assert_eq!(rt; limit_size(&attempt(48, 0, 2256)), Some(29));
}

#[test]
fn no_deviation(rt: HostRuntime) {
    assert_eq!(rt; limit_size(&attempt(1, 90, 8100)), None);
    assert_eq!(rt; ratio_size(&attempt(1, 90, 8100)), Ratio::Undefined);
    assert_eq!(rt; limit_size(&attempt(10, 100, 999)), None, "V is -10");
    assert_eq!(rt; ratio_size(&attempt(10, 100, 999)), Ratio::Undefined);
    assert_eq!(rt; limit_size(&attempt(49, 0, 49)), None);
    assert_eq!(rt; limit_size(&attempt(10, 0, -1)), None);
}

#[test]
fn no_spread(rt: HostRuntime) {
    assert_eq!(rt; limit_size(&attempt(15, 600, 24_000)), Some(400));
    assert_eq!(rt; ratio_size(&attempt(15, 600, 24_000)), Ratio::Infinite);
    assert_eq!(rt; limit_size(&attempt(15, 0, 0)), Some(0));
    assert_eq!(rt; ratio_size(&attempt(15, 0, 0)), Ratio::Undefined);
}

// Errors of 9 and 7: 8 over √2 is 5.657.
#[test]
fn ratios(rt: HostRuntime) {
    assert_eq!(rt; ratio_size(&attempt(2, 16, 130)), Ratio::Hundredths(566));
    assert_eq!(rt; ratio_size(&attempt(2, 0, 2)), Ratio::Hundredths(0));
}

// A half is rounded up: a tenth over 20 observations is half a hundredth.
#[test]
fn means(rt: HostRuntime) {
    assert_eq!(rt; mean_size(1, 20), Some(1));
    assert_eq!(rt; mean_size(-1, 20), Some(1));
    assert_eq!(rt; mean_size(1, 21), Some(0));
    assert_eq!(rt; mean_size(i32::MIN, 1), Some(21_474_836_480));
    assert_eq!(rt; mean_size(5, 0), None);
    assert_eq!(rt; mean_size(5, -3), None);
}

#[test]
fn settlings(rt: HostRuntime) {
    assert_eq!(rt; settling_end(0), SettlingEnd::Late);
    assert_eq!(rt; settling_end(2), SettlingEnd::Late);
    assert_eq!(rt; settling_end(3), SettlingEnd::AgreementOrLate);
    assert_eq!(rt; settling_end(199), SettlingEnd::AgreementOrLate);
    assert_eq!(rt; settling_end(200), SettlingEnd::LimitAtLatest);
}

#[test]
fn attempts(rt: HostRuntime) {
    assert_eq!(rt; attempts_made(FirstAttempt::Absent), 1);
    assert_eq!(rt; attempts_made(FirstAttempt::SequenceAlone), 2);
    assert_eq!(rt; attempts_made(FirstAttempt::QuantityAlone), 2);
    assert_eq!(rt; attempts_made(FirstAttempt::ShortUnfit), 2);
}
