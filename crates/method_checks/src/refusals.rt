// Every plan question at its edge, from both sides.
use method::{Line, Question, Row, TableNumbers, Tabled, Truncated};

// The number of the question, or 0: the tables of tests name questions by their numbers.
fn number<T: Drop>(made: Result<T, Question>) -> u8 {
    match made {
        Ok(_) => 0,
        Err(question) => question.number(),
    }
}

#[test]
fn a_truncation_asks_its_cut_and_then_its_cut_number(rt: HostRuntime) {
    let expected = [
        (1, 0, 4),
        (2, 0, 0),
        (48, 48, 0),
        (49, 0, 4),
        (1, -1, 4),
        (-2_147_483_648, 0, 4),
        (2_147_483_647, 0, 4),
        (20, -1, 5),
        (20, 20, 0),
        (20, 21, 5),
    ];
    for (cut, cut_number, question) in expected {
        assert_eq!(rt;
            number(Truncated::new(Line::Normal, cut, cut_number)),
            question
        );
    }
}

// The cut beneath is the truncation's own.
#[test]
fn a_truncation_of_a_truncation_asks_the_same(rt: HostRuntime) {
    for (cut, cut_number, question) in [
        (41, 0, 4),
        (40, 41, 5),
        (40, 40, 0),
        (2, 2, 0),
        (1, 0, 4),
    ] {
        assert_eq!(rt;
            number(Truncated::standard(Line::Normal).truncate(cut, cut_number)),
            question
        );
    }
}

const NUMBERS: TableNumbers = TableNumbers {
    cut: 20,
    cut_number: 2,
    margin: 0,
    trapezoid: 6_127,
    uniform: 8_000,
    peak: 5,
};

fn row(from: i32) -> Row {
    Row {
        from,
        accept: 0,
        reject: 3,
    }
}

#[test]
fn rows_are_one_to_eight(rt: HostRuntime) {
    let nine = [
        row(1),
        row(2),
        row(3),
        row(4),
        row(5),
        row(6),
        row(7),
        row(8),
        row(9),
    ];
    assert_eq!(rt; number(Tabled::new(&[], NUMBERS)), 6);
    assert_eq!(rt; number(Tabled::new(&nine[0..1], NUMBERS)), 0);
    assert_eq!(rt; number(Tabled::new(&nine[0..8], NUMBERS)), 0);
    assert_eq!(rt; number(Tabled::new(&nine, NUMBERS)), 6);
}

#[test]
fn rows_rise_from_one_to_the_cut(rt: HostRuntime) {
    assert_eq!(rt; number(Tabled::new(&[row(0)], NUMBERS)), 6);
    assert_eq!(rt; number(Tabled::new(&[row(2)], NUMBERS)), 6);
    assert_eq!(rt; number(Tabled::new(&[row(1), row(1)], NUMBERS)), 6);
    assert_eq!(rt; number(Tabled::new(&[row(1), row(3), row(2)], NUMBERS)), 6);
    assert_eq!(rt; number(Tabled::new(&[row(1), row(20)], NUMBERS)), 0);
    assert_eq!(rt; number(Tabled::new(&[row(1), row(21)], NUMBERS)), 6);
}

// A bad cut is answered before bad rows, and bad rows before the other numbers.
#[test]
fn the_cut_is_asked_before_the_rows(rt: HostRuntime) {
    for cut in [1, 49, -1, 2_147_483_647] {
        assert_eq!(rt;
            number(Tabled::new(&[], TableNumbers { cut, ..NUMBERS })),
            7
        );
    }
    for cut in [2, 48] {
        assert_eq!(rt;
            number(Tabled::new(&[], TableNumbers { cut, ..NUMBERS })),
            6
        );
    }
    assert_eq!(rt;
        number(Tabled::new(
            &[],
            TableNumbers {
                peak: 25,
                ..NUMBERS
            },
        )),
        6
    );
}

#[test]
fn the_other_numbers_have_ranges(rt: HostRuntime) {
    let rows = [row(1)];
    for (value, question) in [(-1, 7), (0, 0), (20, 0), (21, 7)] {
        assert_eq!(rt;
            number(Tabled::new(
                &rows,
                TableNumbers {
                    cut_number: value,
                    ..NUMBERS
                },
            )),
            question
        );
    }
    for (value, question) in [(-1, 7), (0, 0), (100_000, 0), (100_001, 7)] {
        assert_eq!(rt;
            number(Tabled::new(
                &rows,
                TableNumbers {
                    margin: value,
                    ..NUMBERS
                },
            )),
            question
        );
    }
    for (value, question) in [(-1, 7), (0, 0), (9_999, 0), (10_000, 7)] {
        assert_eq!(rt;
            number(Tabled::new(
                &rows,
                TableNumbers {
                    trapezoid: value,
                    ..NUMBERS
                },
            )),
            question
        );
        assert_eq!(rt;
            number(Tabled::new(
                &rows,
                TableNumbers {
                    uniform: value,
                    ..NUMBERS
                },
            )),
            question
        );
    }
    for (value, question) in [(-1, 7), (0, 0), (24, 0), (25, 7)] {
        assert_eq!(rt;
            number(Tabled::new(
                &rows,
                TableNumbers {
                    peak: value,
                    ..NUMBERS
                },
            )),
            question
        );
    }
}

#[test]
fn each_row_s_numbers_have_ranges(rt: HostRuntime) {
    for (value, question) in [(-2, 7), (-1, 0), (48, 0), (49, 7)] {
        let rows = [
            row(1),
            Row {
                accept: value,
                ..row(5)
            },
        ];
        assert_eq!(rt; number(Tabled::new(&rows, NUMBERS)), question);
    }
    for (value, question) in [(-1, 7), (0, 0), (49, 0), (50, 7)] {
        let rows = [
            row(1),
            Row {
                reject: value,
                ..row(5)
            },
        ];
        assert_eq!(rt; number(Tabled::new(&rows, NUMBERS)), question);
    }
}

#[test]
fn questions_have_their_numbers(rt: HostRuntime) {
    assert_eq!(rt; Question::PointsInRange.number(), 1);
    assert_eq!(rt; Question::SignalInRange.number(), 10);
    assert_eq!(rt; Question::FitsBuffer.number(), 19);
    assert_eq!(rt; Question::Ended.number(), 20);
    assert_eq!(rt; Question::FillZero.number(), 24);
}
