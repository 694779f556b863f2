// The lines, the standard controls and three-step control, at numbers worked by hand.
use method::{Line, Plan, ThreeStep, Truncated};
use std::process::Abort;

fn accepts<P: Plan>(rt: &impl Abort, plan: &P, expected: &[(u32, i32)]) {
    for (i, accept) in expected {
        assert_eq!(rt; plan.accept_number(*i), *accept);
    }
}

fn rejects<P: Plan>(rt: &impl Abort, plan: &P, expected: &[(u32, u32)]) {
    for (i, reject) in expected {
        assert_eq!(rt; plan.reject_number(*i), *reject);
    }
}

fn offsets<P: Plan>(rt: &impl Abort, plan: &P, expected: &[(u32, i32)]) {
    for (i, offset) in expected {
        assert_eq!(rt; plan.offset(*i), *offset);
    }
}

// 612 i - 14,925 is first not negative at 25 (375), and 10,000 at 41 (10,167).
#[test]
fn strengthened_line_accepts(rt: HostRuntime) {
    accepts(
        &rt,
        &Line::Strengthened,
        &[
            (0, -1),
            (1, -1),
            (9, -1),
            (24, -1),
            (25, 0),
            (40, 0),
            (41, 1),
            (48, 1),
            (49, -1),
        ],
    );
}

// 612 i + 14,925 first passes 20,000 at 9 (20,433), 30,000 at 25 (30,225), 40,000 at 41 (40,017).
#[test]
fn strengthened_line_rejects(rt: HostRuntime) {
    rejects(
        &rt,
        &Line::Strengthened,
        &[
            (0, 49),
            (1, 2),
            (8, 2),
            (9, 3),
            (24, 3),
            (25, 4),
            (40, 4),
            (41, 5),
            (48, 5),
            (49, 49),
        ],
    );
}

// 1,103 i - 16,223 first reaches 0 at 15 (322), 10,000 at 24 (10,249), 20,000 at 33 (20,176), 30,000 at 42 (30,103).
#[test]
fn normal_line_accepts(rt: HostRuntime) {
    accepts(
        &rt,
        &Line::Normal,
        &[
            (0, -1),
            (14, -1),
            (15, 0),
            (23, 0),
            (24, 1),
            (32, 1),
            (33, 2),
            (41, 2),
            (42, 3),
            (48, 3),
        ],
    );
}

// 1,103 i + 18,981 is 20,084 at 1, and first passes 30,000 at 10 (30,011), 40,000 at 20 (41,041), 50,000 at 29
// (50,968), 60,000 at 38 (60,895), 70,000 at 47 (70,822).
#[test]
fn normal_line_rejects(rt: HostRuntime) {
    rejects(
        &rt,
        &Line::Normal,
        &[
            (1, 3),
            (9, 3),
            (10, 4),
            (19, 4),
            (20, 5),
            (28, 5),
            (29, 6),
            (37, 6),
            (38, 7),
            (46, 7),
            (47, 8),
            (48, 8),
        ],
    );
}

#[test]
fn controls_shift_the_signal(rt: HostRuntime) {
    offsets(
        &rt,
        &Truncated::standard(Line::Strengthened),
        &[(0, 0), (1, -10), (22, 11), (44, -11), (45, 0)],
    );
    offsets(
        &rt,
        &Truncated::standard(Line::Normal),
        &[(0, 0), (1, -9), (20, 10), (40, -10), (41, 0)],
    );
}

#[test]
fn controls_are_cut(rt: HostRuntime) {
    let strengthened = Truncated::standard(Line::Strengthened);
    assert_eq!(rt; (strengthened.cut(), strengthened.cut_number()), (44, 2));
    assert_eq!(rt;
        (strengthened.trapezoid_k(), strengthened.uniform_k()),
        (8_775, 9_800)
    );
    accepts(
        &rt,
        &strengthened,
        &[(44, 1), (45, -1), (4_294_967_295, -1)],
    );
    rejects(
        &rt,
        &strengthened,
        &[(44, 5), (45, 49), (4_294_967_295, 49)],
    );
    let normal = Truncated::standard(Line::Normal);
    assert_eq!(rt; (normal.cut(), normal.cut_number()), (40, 4));
    assert_eq!(rt; (normal.trapezoid_k(), normal.uniform_k()), (6_127, 8_000));
    accepts(&rt, &normal, &[(40, 2), (41, -1)]);
    rejects(&rt, &normal, &[(40, 7), (41, 49)]);
}

#[test]
fn lines_have_the_longest_cut(rt: HostRuntime) {
    assert_eq!(rt; (Line::Normal.cut(), Line::Normal.cut_number()), (48, 48));
    assert_eq!(rt; Line::Strengthened.margin(), 0);
}

#[test]
fn three_step_control(rt: HostRuntime) {
    assert_eq!(rt; (ThreeStep.cut(), ThreeStep.cut_number()), (3, 0));
    accepts(
        &rt,
        &ThreeStep,
        &[(0, -1), (1, -1), (2, -1), (3, 0), (4, -1)],
    );
    rejects(&rt, &ThreeStep, &[(0, 49), (1, 1), (2, 1), (3, 1), (4, 49)]);
    offsets(&rt, &ThreeStep, &[(0, 0), (1, -5), (2, 0), (3, 5), (4, 0)]);
    assert_eq!(rt; ThreeStep.margin(), 50_001);
    assert_eq!(rt;
        (ThreeStep.trapezoid_k(), ThreeStep.uniform_k()),
        (8_000, 8_000)
    );
}

// A plan is cloned without memory.
#[test]
fn a_truncation_is_cloned(rt: HostRuntime) {
    let cloned = Truncated::standard(Line::Normal).clone().ok();
    let cloned = cloned.map(|plan| (plan.cut(), plan.cut_number()));
    assert_eq!(rt; cloned, Some((40, 4)));
}
