//! The table of the first lifts of paths, to which lifts are added one after the other: what a lift makes reachable goes through it
//! once.

ghost use Rattle.std.specs.Prelude.{◌≡◌, ◌∷◌, [], IfOk, None};
ghost use Rattle.fst_lattice.specs.Tables.{tabled, step_in, reaches, next_step};

use fst_base::{OutOfMemory, Seq};
use fst_program::LiftDef;
use std::alloc::Global;

/// For each effect the first lifts of the paths to all effects.
pub type Rows = Seq<Seq<Option<u32>>>;

/// The first lift of the path from one effect to another; none where the two are equal or there is no path.
pub fn step_in(rows: &Rows, from: u32, to: u32) -> Option<u32>
    ensures { result ≡ step_in rows.now from to }
{
    match rows.get(from as usize) {
        Some(row) => entry_in(row, to),
        None => None,
    }
}

fn entry_in(row: &Seq<Option<u32>>, to: u32) -> Option<u32>
    ensures { result ≡ step_in (row.now ∷ []) 0 to }
{
    match row.get(to as usize) {
        Some(step) => *step,
        None => None,
    }
}

/// Whether there is a path, the empty one counted.
pub fn reaches(rows: &Rows, from: u32, to: u32) -> bool
    ensures { result ≡ reaches rows.now from to }
{
    from == to || step_in(rows, from, to).is_some()
}

/// The first lift from one effect to another, with a lift of this number added.
fn next_step(rows: &Rows, number: u32, lift: &LiftDef, from: u32, to: u32) -> Option<u32>
    ensures { result ≡ next_step rows.now number lift.now.from lift.now.to from to }
{
    if reaches(rows, from, to) {
        return step_in(rows, from, to);
    }
    if !reaches(rows, from, lift.from) || !reaches(rows, lift.to, to) {
        return None;
    }
    if from == lift.from {
        Some(number)
    } else {
        step_in(rows, from, lift.from)
    }
}

fn next_row(
    alloc: Global,
    rows: &Rows,
    number: u32,
    lift: &LiftDef,
    from: u32,
    count: u32,
) -> Result<Seq<Option<u32>>, OutOfMemory>
    ensures { IfOk result (λ row. row ≡ tabled (λ E. next_step rows.now number lift.now.from lift.now.to from E) count) }
{
    let mut row = Seq::new(alloc);
    for to in 0..count {
        row.push(next_step(rows, number, lift, from, to))?;
    }
    Ok(row)
}

/// The table with a lift of this number added.
pub fn next_rows(
    alloc: Global,
    rows: &Rows,
    number: u32,
    lift: &LiftDef,
    count: u32,
) -> Result<Rows, OutOfMemory>
    ensures { IfOk result (λ next. next ≡ tabled (λ D. tabled (λ E. next_step rows.now number lift.now.from lift.now.to D E) count) count) }
{
    let mut next = Seq::new(alloc);
    for from in 0..count {
        next.push(next_row(alloc, rows, number, lift, from, count)?)?;
    }
    Ok(next)
}

fn empty_row(alloc: Global, count: u32) -> Result<Seq<Option<u32>>, OutOfMemory>
    ensures { IfOk result (λ row. row ≡ tabled (λ E. None) count) }
{
    let mut row = Seq::new(alloc);
    for _to in 0..count {
        row.push(None)?;
    }
    Ok(row)
}

/// The table of no lifts.
pub fn empty_rows(alloc: Global, count: u32) -> Result<Rows, OutOfMemory>
    ensures { IfOk result (λ rows. rows ≡ tabled (λ D. tabled (λ E. None) count) count) }
{
    let mut rows = Seq::new(alloc);
    for _from in 0..count {
        rows.push(empty_row(alloc, count)?)?;
    }
    Ok(rows)
}
