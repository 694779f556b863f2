// Tables 1 and 2: the errors at each observation, and the lines that reject and accept there.
use crate::meter::error_at;
use method::{Line, Plan, Truncated};
use std::process::Abort;
use std::test::Fail;

// The observation; its errors in tenths at the biases of 1.3 and of 4.0 steps; the reject and the accept line in thousandths.
type Row = (u8, i64, i64, u32, i32);

// Strengthened control.
const TABLE_1: [Row; 44] = [
    (1, 10, 40, 1_500, -1_400),
    (2, 9, 39, 1_600, -1_380),
    (3, 18, 38, 1_700, -1_300),
    (4, 17, 37, 1_740, -1_200),
    (5, 16, 36, 1_800, -1_180),
    (6, 15, 45, 1_860, -1_120),
    (7, 14, 44, 1_920, -1_060),
    (8, 13, 43, 1_980, -1_000),
    (9, 12, 42, 2_040, -900),
    (10, 11, 41, 2_100, -880),
    (11, 10, 40, 2_170, -800),
    (12, 9, 39, 2_230, -760),
    (13, 18, 38, 2_290, -700),
    (14, 17, 37, 2_350, -640),
    (15, 16, 36, 2_410, -570),
    (16, 15, 45, 2_470, -500),
    (17, 14, 44, 2_530, -450),
    (18, 13, 43, 2_590, -390),
    (19, 12, 42, 2_650, -330),
    (20, 11, 41, 2_720, -270),
    (21, 10, 40, 2_780, -210),
    (22, 9, 39, 2_840, -150),
    (23, 10, 40, 2_900, -80),
    (24, 11, 41, 2_960, -20),
    (25, 12, 42, 3_020, 40),
    (26, 13, 43, 3_080, 90),
    (27, 14, 44, 3_140, 160),
    (28, 15, 45, 3_200, 220),
    // the accept line is 0.2823; the accept number is 0 in either way
    (29, 16, 36, 3_260, 380),
    (30, 17, 37, 3_300, 340),
    (31, 18, 38, 3_390, 400),
    (32, 9, 39, 3_450, 460),
    (33, 10, 40, 3_510, 530),
    (34, 11, 41, 3_570, 590),
    (35, 12, 42, 3_630, 650),
    (36, 13, 43, 3_690, 700),
    (37, 14, 44, 3_760, 770),
    (38, 15, 45, 3_820, 830),
    (39, 16, 36, 3_880, 890),
    (40, 17, 37, 3_940, 900),
    (41, 18, 38, 4_001, 1_020),
    (42, 9, 39, 4_060, 1_080),
    (43, 10, 40, 4_120, 1_140),
    (44, 11, 41, 4_180, 1_200),
];

// Normal control.
const TABLE_2: [Row; 40] = [
    // printed 2.0 for the reject line of 2.0084; no attempt has two outs by then
    (1, 9, 39, 2_008, -1_500),
    (2, 18, 38, 2_100, -1_400),
    (3, 17, 37, 2_200, -1_300),
    (4, 16, 36, 2_300, -1_200),
    (5, 15, 45, 2_400, -1_100),
    (6, 14, 44, 2_600, -900),
    (7, 13, 43, 2_700, -800),
    (8, 12, 42, 2_800, -700),
    (9, 11, 41, 2_900, -600),
    (10, 10, 40, 3_010, -500),
    (11, 9, 39, 3_100, -400),
    (12, 18, 38, 3_200, -300),
    (13, 17, 37, 3_300, -200),
    (14, 16, 36, 3_400, -100),
    (15, 15, 45, 3_500, 30),
    (16, 14, 44, 3_700, 100),
    (17, 13, 43, 3_800, 200),
    (18, 12, 42, 3_900, 300),
    (19, 11, 41, 3_990, 500),
    (20, 10, 40, 4_100, 600),
    (21, 9, 39, 4_200, 700),
    (22, 18, 38, 4_300, 800),
    (23, 17, 37, 4_400, 900),
    (24, 16, 36, 4_500, 1_020),
    (25, 15, 45, 4_700, 1_100),
    (26, 14, 44, 4_800, 1_200),
    (27, 13, 43, 4_870, 1_300),
    (28, 12, 42, 4_900, 1_400),
    (29, 11, 41, 5_100, 1_600),
    (30, 10, 40, 5_200, 1_700),
    (31, 9, 39, 5_300, 1_800),
    (32, 18, 38, 5_400, 1_900),
    (33, 17, 37, 5_500, 2_000),
    (34, 16, 36, 5_600, 2_100),
    (35, 15, 45, 5_800, 2_200),
    (36, 14, 44, 5_870, 2_300),
    (37, 13, 43, 5_900, 2_500),
    (38, 12, 42, 6_100, 2_600),
    (39, 11, 41, 6_200, 2_700),
    // printed 4.1 for the error of 4.0, which stands at 10, 20 and 30
    (40, 10, 40, 6_300, 2_800),
];

fn errors_at(rt: &impl Abort, level: i32, row: Row) -> Result<(), Fail> {
    let (i, small, large, _, _) = row;
    let errors = (error_at(level, 13)?, error_at(level, 40)?);
    assert_eq!(rt; (i, errors), (i, (small, large)));
    Ok(())
}

// At the signal 0 the level of an observation is its offset.
#[test]
fn the_meter_shows_table_1(rt: HostRuntime) -> Result<(), Fail> {
    let plan = Truncated::standard(Line::Strengthened);
    for row in TABLE_1 {
        errors_at(&rt, plan.offset(u32::from(row.0)), row)?;
    }
    Ok(())
}

// Table 2 is of a signal that goes on rising after observation 20, where formula (3.2), and our plan, have it fall again.
#[test]
fn the_meter_shows_table_2(rt: HostRuntime) -> Result<(), Fail> {
    let plan = Truncated::standard(Line::Normal);
    for row in TABLE_2 {
        let level = i32::from(row.0) - 10;
        errors_at(&rt, level, row)?;
        let ours = if level <= 10 { level } else { 20 - level };
        assert_eq!(rt; plan.offset(u32::from(row.0)), ours);
    }
    Ok(())
}

// The plan's numbers are the lines, rounded to the side of going on.
fn lines_round(rt: &impl Abort, plan: Truncated<Line>, row: Row) -> Result<(), Fail> {
    let (i, _, _, reject, accept) = row;
    let numbers = (
        plan.reject_number(u32::from(i)),
        plan.accept_number(u32::from(i)),
    );
    let rounded = (reject.div_ceil(1_000), accept.div_euclid(1_000).max(-1));
    assert_eq!(rt; (i, numbers), (i, rounded));
    Ok(())
}

#[test]
fn the_plans_have_the_printed_lines(rt: HostRuntime) -> Result<(), Fail> {
    for row in TABLE_1 {
        lines_round(&rt, Truncated::standard(Line::Strengthened), row)?;
    }
    for row in TABLE_2 {
        lines_round(&rt, Truncated::standard(Line::Normal), row)?;
    }
    Ok(())
}
