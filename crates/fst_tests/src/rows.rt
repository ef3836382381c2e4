use fst_base::{OutOfMemory, Seq};
use fst_linear::{LinearAnswer, refute};
use fst_rows::{Coef, Row, RowFault, are_ordered, combine, gcd};
use std::alloc::Global;
use std::test::Fail;

/// A row's constant, and its unknowns with their coefficients.
type Plain = (i128, &'static [(u32, i128)]);

/// What `refute` answers: the steps, or a word for the other two.
#[derive(Clone, Copy, Debug, PartialEq, Eq)]
enum Wanted {
    Steps(&'static [(i128, u32, i128, u32)]),
    NoCombination,
    TooWide,
}

const LEAST: i128 = i128::MIN;

const GREATEST: i128 = i128::MAX;

// Each system with its answer.
static SYSTEMS: [(&'static [Plain], Wanted); 17] = [
    (&[], Wanted::NoCombination),
    (&[(0, &[])], Wanted::NoCombination),
    (&[(-1, &[])], Wanted::Steps(&[])),
    (&[(5, &[(0, 1)]), (-1, &[])], Wanted::Steps(&[])),
    // 1 <= x and x <= 0
    (
        &[(-1, &[(0, 1)]), (0, &[(0, -1)])],
        Wanted::Steps(&[(1, 1, 1, 2)]),
    ),
    // 0 <= x and x <= 0
    (&[(0, &[(0, 1)]), (0, &[(0, -1)])], Wanted::NoCombination),
    // x = 1 and x = 2
    (
        &[
            (-1, &[(0, 1)]),
            (1, &[(0, -1)]),
            (-2, &[(0, 1)]),
            (2, &[(0, -1)]),
        ],
        Wanted::Steps(&[(1, 2, 1, 3)]),
    ),
    // x = y and y = 3
    (
        &[
            (0, &[(0, 1), (1, -1)]),
            (0, &[(0, -1), (1, 1)]),
            (-3, &[(1, 1)]),
            (3, &[(1, -1)]),
        ],
        Wanted::NoCombination,
    ),
    // 2x = 1, not tightened: x = 1/2 solves it
    (&[(-1, &[(0, 2)]), (1, &[(0, -2)])], Wanted::NoCombination),
    // the same tightened: 1 <= x and x <= 0
    (
        &[(-1, &[(0, 1)]), (0, &[(0, -1)])],
        Wanted::Steps(&[(1, 1, 1, 2)]),
    ),
    // 2 <= 3x + y, 2 <= x + 3y, x + y <= 1: x = y = 1/2 alone solves them
    (
        &[
            (-2, &[(0, 3), (1, 1)]),
            (-2, &[(0, 1), (1, 3)]),
            (1, &[(0, -1), (1, -1)]),
        ],
        Wanted::NoCombination,
    ),
    // 1 <= 2x - 2y tightened is 1 <= x - y, against x <= y
    (
        &[(-1, &[(0, 2), (1, -2)]), (0, &[(0, -1), (1, 1)])],
        Wanted::Steps(&[(1, 1, 2, 2)]),
    ),
    // 3 <= 2x + 3y, x <= 0, y <= 0, with multipliers 1, 2 and 3
    (
        &[(-3, &[(0, 2), (1, 3)]), (0, &[(0, -1)]), (0, &[(1, -1)])],
        Wanted::Steps(&[(1, 1, 2, 2), (1, 4, 1, 3)]),
    ),
    // the greatest coefficient, and its negation
    (
        &[(-1, &[(0, GREATEST)]), (0, &[(0, -GREATEST)])],
        Wanted::Steps(&[(1, 1, 1, 2)]),
    ),
    // the least constant and the greatest
    (
        &[(LEAST, &[(0, 1)]), (GREATEST, &[(0, -1)])],
        Wanted::Steps(&[(1, 1, 1, 2)]),
    ),
    // the least coefficient
    (&[(-1, &[(0, LEAST)]), (0, &[(0, 1)])], Wanted::TooWide),
    // 2^126 x <= 3y, (2^126 + 1) y <= 7x and 1 <= x
    (
        &[
            (0, &[(0, -85070591730234615865843651857942052864), (1, 3)]),
            (0, &[(0, 7), (1, -85070591730234615865843651857942052865)]),
            (-1, &[(0, 1)]),
        ],
        Wanted::TooWide,
    ),
];

fn row(alloc: Global, plain: &Plain) -> Result<Row, OutOfMemory> {
    let mut coefs = Seq::new(alloc);
    for (unknown, by) in plain.1 {
        coefs.push(Coef {
            unknown: *unknown,
            by: *by,
        })?;
    }
    Ok(Row {
        constant: plain.0,
        coefs,
    })
}

fn is_wanted(answer: &LinearAnswer, wanted: Wanted) -> bool {
    match (answer, wanted) {
        (LinearAnswer::Steps(steps), Wanted::Steps(plain)) => {
            steps.len() == plain.len()
                && steps
                    .as_slice()
                    .iter()
                    .zip(plain.iter())
                    .all(|(s, w)| (s.p, s.i, s.q, s.j) == *w)
        }
        (LinearAnswer::NoCombination, Wanted::NoCombination) => true,
        (LinearAnswer::TooWide, Wanted::TooWide) => true,
        _ => false,
    }
}

/// The number of the first system with another answer.
fn first_other(alloc: Global) -> Result<Option<usize>, OutOfMemory> {
    for (number, (plain, wanted)) in SYSTEMS.iter().enumerate() {
        let mut rows = Seq::new(alloc);
        for one in *plain {
            rows.push(row(alloc, one)?)?;
        }
        if !are_ordered(rows.as_slice()) || !is_wanted(&refute(alloc, &rows)?, *wanted) {
            return Ok(Some(number));
        }
    }
    Ok(None)
}

#[test]
fn systems_are_refuted_or_not(rt: HostRuntime) -> Result<(), Fail> {
    let other = first_other(rt.alloc())?;
    assert!(&rt; other == None, "{other:?}");
    Ok(())
}

/// Multipliers and rows, with their sum; none where that is past 128 bits.
type Sum = (i128, Plain, i128, Plain, Option<Plain>);

static SUMS: [Sum; 10] = [
    (
        1,
        (-1, &[(0, 2)]),
        1,
        (-1, &[(0, 2)]),
        Some((-1, &[(0, 1)])),
    ),
    (
        1,
        (1, &[(0, -2)]),
        1,
        (1, &[(0, -2)]),
        Some((0, &[(0, -1)])),
    ),
    (1, (-1, &[(0, 1)]), 1, (0, &[(0, -1)]), Some((-1, &[]))),
    (
        2,
        (3, &[(0, 1), (2, 1)]),
        3,
        (1, &[(1, 2), (2, -2)]),
        Some((4, &[(0, 1), (1, 3), (2, -2)])),
    ),
    (
        2,
        (-7, &[(0, 3)]),
        1,
        (0, &[(1, 6)]),
        Some((-3, &[(0, 1), (1, 1)])),
    ),
    (1, (GREATEST, &[]), 1, (1, &[]), None),
    (
        1,
        (LEAST, &[(0, 1)]),
        1,
        (0, &[(0, -1)]),
        Some((LEAST, &[])),
    ),
    (2, (0, &[(0, LEAST)]), 1, (0, &[]), None),
    (1, (0, &[(0, LEAST)]), 1, (0, &[]), Some((0, &[(0, -1)]))),
    (2, (0, &[(0, GREATEST)]), 2, (0, &[(0, -GREATEST)]), None),
];

fn is_row(row: &Row, plain: &Plain) -> bool {
    row.constant == plain.0
        && row.coefs.len() == plain.1.len()
        && row
            .coefs
            .as_slice()
            .iter()
            .zip(plain.1.iter())
            .all(|(c, w)| (c.unknown, c.by) == *w)
}

/// The number of the first sum with another answer.
fn first_other_sum(alloc: Global) -> Result<Option<usize>, OutOfMemory> {
    for (number, (p, a, q, b, wanted)) in SUMS.iter().enumerate() {
        let is_same = match combine(alloc, *p, &row(alloc, a)?, *q, &row(alloc, b)?) {
            Ok(sum) => wanted.is_some_and(|plain| is_row(&sum, &plain)),
            Err(RowFault::PastRange) => wanted.is_none(),
            Err(RowFault::NoMemory) => return Err(OutOfMemory),
        };
        if !is_same {
            return Ok(Some(number));
        }
    }
    Ok(None)
}

#[test]
fn sums_are_tightened(rt: HostRuntime) -> Result<(), Fail> {
    let other = first_other_sum(rt.alloc())?;
    assert!(&rt; other == None, "{other:?}");
    assert!(&rt; gcd(12, 18) == 6 && gcd(0, 5) == 5 && gcd(0, 0) == 0);
    Ok(())
}
