// A laboratory's own table of eight rows.
use method::{Plan, Row, TableNumbers, Tabled, Truncated};
use std::test::Fail;

const NUMBERS: TableNumbers = TableNumbers {
    cut: 48,
    cut_number: 6,
    margin: 100_000,
    trapezoid: 9_999,
    uniform: 0,
    peak: 24,
};

const fn row(from: i32, accept: i32, reject: i32) -> Row {
    Row {
        from,
        accept,
        reject,
    }
}

fn eight_rows() -> [Row; 8] {
    [
        row(1, -1, 2),
        row(2, -1, 3),
        row(10, 0, 3),
        row(11, 1, 4),
        row(20, 2, 5),
        row(30, 3, 6),
        row(40, 48, 49),
        row(48, 4, 0),
    ]
}

// The row in force is the last whose first observation is not later.
#[test]
fn each_row_is_in_force_from_its_first_observation(rt: HostRuntime) -> Result<(), Fail> {
    let table = Tabled::new(&eight_rows(), NUMBERS)?;
    let expected = [
        (0, -1, 49),
        (1, -1, 2),
        (2, -1, 3),
        (9, -1, 3),
        (10, 0, 3),
        (11, 1, 4),
        (19, 1, 4),
        (20, 2, 5),
        (39, 3, 6),
        (40, 48, 49),
        (47, 48, 49),
        (48, 4, 0),
        (49, -1, 49),
    ];
    for (i, accept, reject) in expected {
        assert_eq!(rt;
            (table.accept_number(i), table.reject_number(i)),
            (accept, reject)
        );
    }
    Ok(())
}

// p - |2p - i| with the peak 24 at the cut.
#[test]
fn a_table_has_its_own_numbers(rt: HostRuntime) -> Result<(), Fail> {
    let table = Tabled::new(&eight_rows(), NUMBERS)?;
    assert_eq!(rt;
        (table.cut(), table.cut_number(), table.margin()),
        (48, 6, 100_000)
    );
    assert_eq!(rt; (table.trapezoid_k(), table.uniform_k()), (9_999, 0));
    assert_eq!(rt;
        (table.offset(1), table.offset(24), table.offset(48)),
        (-23, 0, 24)
    );
    assert_eq!(rt; (table.offset(0), table.offset(49)), (0, 0));
    Ok(())
}

#[test]
fn a_truncated_table_passes_its_rows_on(rt: HostRuntime) -> Result<(), Fail> {
    let table = Tabled::new(&eight_rows(), NUMBERS)?;
    let cut = Truncated::new(table, 11, 1)?.truncate(10, 2)?;
    assert_eq!(rt;
        (cut.cut(), cut.cut_number(), cut.margin()),
        (10, 2, 100_000)
    );
    assert_eq!(rt;
        (cut.accept_number(10), cut.reject_number(10), cut.offset(10)),
        (0, 3, -14)
    );
    assert_eq!(rt;
        (cut.accept_number(11), cut.reject_number(11), cut.offset(11)),
        (-1, 49, 0)
    );
    Ok(())
}
