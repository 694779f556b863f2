// The measures and their limits. A step is one unit of the meter's last digit; a tenth is a tenth of a step.

// A meter's code counts steps; a legal one is at most this in size.
pub const CODE_MAX: i32 = 1_999_999;

// The main signal is at most this in size, in tenths.
pub const SIGNAL_MAX: i32 = 20_000_000;

// The meter's permitted error, in tenths. The reference's is 0 to the meter's.
pub const METER_ERROR_MIN: i32 = 1;

pub const METER_ERROR_MAX: i32 = 1_000;

// The agreement of codes that have settled, in steps.
pub const AGREEMENT_MAX: i32 = 9;

// An error larger than this, in tenths, is wild, and counts as this with its sign.
pub const WILD: i32 = 2_000;

// A plan's limits.
pub const CUT_MIN: u32 = 2;

pub const CUT_MAX: u32 = 48;

pub const ACCEPT_MAX: i32 = 48;

pub const REJECT_MAX: u32 = 49;

pub const OFFSET_MAX: i32 = 48;

pub const MARGIN_MAX: u32 = 100_000;

pub const COEFFICIENT_MAX: u32 = 9_999;

// What a plan answers outside 1 to its cut: it accepts none, rejects none, and does not shift the signal.
// Numbers and no Option: -1 is below every count of outs and 49 above, so that one comparison serves all.
pub const NO_ACCEPT: i32 = -1;

pub const NO_REJECT: u32 = 49;

pub const NO_OFFSET: i32 = 0;

// A laboratory's table.
pub const ROWS_MAX: usize = 8;

pub const PEAK_MAX: u32 = 24;

// The points of one verification.
pub const POINTS_MAX: i32 = 999;

// The coefficients and the tolerances made with them are in ten-thousandths.
pub const SCALE: u32 = 10_000;
