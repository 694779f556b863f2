// Quantity control and dominance at equality, and where Student's factor changes.
use control::{Tally, is_dominant, quantity_control, student};

const NINE: Tally = Tally {
    observations: 9,
    outs: 0,
    sum: 9,
    squares: 20_009,
    wild: false,
};

const TEN: Tally = Tally {
    observations: 10,
    outs: 0,
    sum: 5,
    squares: 45_565,
    wild: false,
};

const TWO: Tally = Tally {
    observations: 2,
    outs: 0,
    sum: 2,
    squares: 2,
    wild: false,
};

#[test]
fn the_factor_falls_from_ten_on(rt: HostRuntime) {
    // 25 times 6, 4.4, 2.88 and 0
    assert_eq!(rt; student(9), 150);
    assert_eq!(rt; student(10), 110);
    assert_eq!(rt; student(48), 72);
    assert_eq!(rt; student(u32::MAX), 0);
}

#[test]
fn nine_observations_have_the_factor_six(rt: HostRuntime) {
    // V = 9 x 20,009 - 81 = 180,000 and W = 9 x 1,010,000 - 90,000 = 9,000,000:
    // 160,000 x 150 x 150 x 180,000 = 648,000,000,000,000 = 9,000,000 x 9,000,000 x 8, so there is no room.
    assert!(rt; !quantity_control(NINE, 1_010_000).is_fit());
    let less = Tally {
        squares: 20_008,
        ..NINE
    };
    assert!(rt; quantity_control(less, 1_010_000).is_fit());
}

#[test]
fn ten_observations_have_a_smaller_factor(rt: HostRuntime) {
    // V = 10 x 45,565 - 25 = 455,625 and W = 10 x 995,000 - 50,000 = 9,900,000:
    // 160,000 x 110 x 110 x 455,625 = 882,090,000,000,000 = 9,900,000 x 9,900,000 x 9, so there is no room.
    assert!(rt; !quantity_control(TEN, 995_000).is_fit());
    let less = Tally {
        squares: 45_564,
        ..TEN
    };
    assert!(rt; quantity_control(less, 995_000).is_fit());
}

#[test]
fn a_mean_beyond_the_tolerance_is_unfit(rt: HostRuntime) {
    // Two errors of 1: V = 2 x 2 - 4 = 0, and W = 2 D - 20,000.
    assert!(rt; quantity_control(TWO, 10_001).is_fit());
    assert!(rt; !quantity_control(TWO, 10_000).is_fit());
    // W = -2, whose square is 4
    assert!(rt; !quantity_control(TWO, 9_999).is_fit());
}

#[test]
fn one_observation_is_unfit_and_not_dominant(rt: HostRuntime) {
    let one = Tally {
        observations: 1,
        outs: 0,
        sum: 0,
        squares: 0,
        wild: false,
    };
    assert!(rt; !quantity_control(one, 10_000_000).is_fit());
    assert!(rt; !is_dominant(one));
    let off = Tally {
        sum: 50,
        squares: 2_500,
        ..one
    };
    assert!(rt; !quantity_control(off, 10_000_000).is_fit());
    assert!(rt; !is_dominant(off));
}

#[test]
fn a_wild_error_is_unfit_and_not_dominant(rt: HostRuntime) {
    // 2,000 and -2,000 with a sum of 0
    let wild = Tally {
        observations: 2,
        outs: 2,
        sum: 0,
        squares: 8_000_000,
        wild: true,
    };
    assert!(rt; !quantity_control(wild, 10_000_000).is_fit());
    let tame = Tally {
        wild: false,
        ..wild
    };
    assert!(rt; quantity_control(tame, 10_000_000).is_fit());
    // 2,000 twice: V = 0, so that the sum would dominate
    let high = Tally { sum: 4_000, ..wild };
    assert!(rt; !is_dominant(high));
    assert!(rt;
        is_dominant(Tally {
            wild: false,
            ..high
        })
    );
}

#[test]
fn dominance_is_strict(rt: HostRuntime) {
    // V = 2 x 129 - 256 = 2, and 16 x 16 x 1 = 256 = 64 x 2 x 2
    let level = Tally {
        observations: 2,
        outs: 0,
        sum: 16,
        squares: 129,
        wild: false,
    };
    assert!(rt; !is_dominant(level));
    // 8 and 8: V = 0
    assert!(rt;
        is_dominant(Tally {
            squares: 128,
            ..level
        })
    );
}
