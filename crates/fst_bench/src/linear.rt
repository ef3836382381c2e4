// Systems of rows.

use fst_base::{OutOfMemory, Seq};
use fst_linear::{LinearAnswer, refute};
use fst_rows::{Coef, Row, are_ordered};
use std::alloc::Global;

/// The next number of a linear congruential sequence, from `-most` to `most`.
fn next(seed: &mut u64, most: u32) -> i128 {
    *seed = seed
        .wrapping_mul(6364136223846793005)
        .wrapping_add(1442695040888963407);
    let span = u64::from(most) * 2 + 1;
    i128::from((*seed >> 33) % span) - i128::from(most)
}

/// Rows in which nearly every unknown stands.
fn dense(
    alloc: Global,
    count: u32,
    unknowns: u32,
    most: u32,
    seed: u32,
) -> Result<Seq<Row>, OutOfMemory> {
    let mut seed = u64::from(seed);
    let mut rows = Seq::new(alloc);
    for _ in 0..count {
        let constant = next(&mut seed, most);
        let mut coefs = Seq::new(alloc);
        for unknown in 0..unknowns {
            let by = next(&mut seed, most);
            if by != 0 {
                coefs.push(Coef { unknown, by })?;
            }
        }
        rows.push(Row { constant, coefs })?;
    }
    Ok(rows)
}

/// The row `second` is at least `first` and a constant more.
fn at_least(alloc: Global, first: u32, second: u32, constant: i128) -> Result<Row, OutOfMemory> {
    let (low, high) = if first < second {
        (first, second)
    } else {
        (second, first)
    };
    let sign: i128 = if first < second { 1 } else { -1 };
    let mut coefs = Seq::new(alloc);
    coefs.push(Coef {
        unknown: low,
        by: sign.wrapping_neg(),
    })?;
    coefs.push(Coef {
        unknown: high,
        by: sign,
    })?;
    Ok(Row {
        constant: constant.wrapping_neg(),
        coefs,
    })
}

/// Each unknown is greater than the one before it, and the first isn't below the last.
fn chain(alloc: Global, count: u32) -> Result<Seq<Row>, OutOfMemory> {
    let mut rows = Seq::new(alloc);
    for unknown in 1..count {
        rows.push(at_least(alloc, unknown - 1, unknown, 1)?)?;
    }
    rows.push(at_least(alloc, count, 0, 0)?)?;
    rows.push(at_least(alloc, count.saturating_sub(1), count, 0)?)?;
    Ok(rows)
}

fn number_of(answer: &LinearAnswer) -> u8 {
    match answer {
        LinearAnswer::Steps(_) => 0,
        LinearAnswer::NoCombination => 1,
        LinearAnswer::TooWide => 2,
    }
}

/// The number of the last answer, 3 where rows aren't in order.
pub fn refuted(
    alloc: Global,
    count: u32,
    unknowns: u32,
    most: u32,
    seed: u32,
    times: u32,
) -> Result<u8, OutOfMemory> {
    let rows = if unknowns == 0 {
        chain(alloc, count)?
    } else {
        dense(alloc, count, unknowns, most, seed)?
    };
    if !are_ordered(rows.as_slice()) {
        return Ok(3);
    }
    let mut last = 3;
    for _ in 0..times {
        last = number_of(&refute(alloc, &rows)?);
    }
    Ok(last)
}
