// The rows by the sign of an unknown, and the least unknown.

ghost use Rattle.std.specs.Prelude.{◌≡◌, ◌+◌, ◌≤◌, length, IfOk, MatchOption};
ghost use Rattle.fst_rows.specs.Plain.{coefficients};
ghost use Rattle.fst_linear.specs.Living.{Bounds, Lives, Split, least_of};

use crate::derivation::{Made, row_at};
use crate::pairs::coef;
use crate::sweep::note;
use fst_base::OutOfMemory;
use fst_rows::Row;
use std::alloc::Global;

/// Places of rows without an unknown, with it and a positive coefficient, and with a negative one.
#[derive(Debug, Drop)]
pub struct Signs {
    pub without: Vec<usize>,
    pub ups: Vec<usize>,
    pub downs: Vec<usize>,
}

pub fn split(
    alloc: Global,
    given: &[Row],
    made: &[Made],
    unknown: u32,
    live: &[usize],
) -> Result<Signs, OutOfMemory>
    requires { Lives given.now made.now unknown live.now }
    ensures { IfOk result (λ s. Split given.now made.now unknown live.now (length live.now) s.without.items s.ups.items s.downs.items) }
{
    let mut without = Vec::new(alloc);
    let mut ups = Vec::new(alloc);
    let mut downs = Vec::new(alloc);
    for i in live {
        let by = coef(row_at(given, made, *i), unknown);
        if by > 0 {
            note(&mut ups, *i)?;
            continue;
        }
        if by < 0 {
            note(&mut downs, *i)?;
            continue;
        }
        note(&mut without, *i)?;
    }
    Ok(Signs {
        without,
        ups,
        downs,
    })
}

fn lower(best: Option<u32>, row: &Row) -> Option<u32>
    ensures { result ≡ least_of best (coefficients row.now.coefs) }
{
    match row.coefs.as_slice() {
        [] => best,
        [first, ..] => match best {
            None => Some(first.unknown),
            Some(least) => Some(least.min(first.unknown)),
        },
    }
}

/// The least unknown of the rows.
pub fn least_unknown(given: &[Row], made: &[Made], from: u64, live: &[usize]) -> Option<u32>
    requires { Lives given.now made.now from live.now }
    ensures { Bounds given.now made.now from live.now (length live.now) result }
{
    let mut best = None;
    for i in live {
        best = lower(best, row_at(given, made, *i));
    }
    best
}
