ghost use Rattle.std.specs.Prelude.{◌≡◌, ◌+◌, ◌<◌, ◌≤◌, ℕ, false, length, get_or, map, slice_index, IfOk};
ghost use Rattle.fst_congruence.specs.Extracts.{Stands, renumbered, IsWanted, EarlierLines, WantedFrom, Copied, Keeps};

use crate::equation::Equation;
use crate::log::note;
use fst_base::{OutOfMemory, Seq};
use fst_cert::Line;
use std::alloc::Global;

/// The lines of a log that are needed, and for each line of the log the number that it has among them.
#[derive(Debug, Drop)]
pub struct Needed {
    pub log: Seq<Equation>,
    pub numbers: Seq<u32>,
}

/// Marks these lines.
fn mark_all(lines: &[u32], wanted: &mut [bool])
    requires within { (k : ℕ) → k < length lines.now → slice_index lines.now k < length wanted.old }
    ensures kept { (i : ℕ) → IsWanted wanted.old i → IsWanted wanted.new i }
    ensures marked { (k : ℕ) → k < length lines.now → IsWanted wanted.new (slice_index lines.now k) }
    ensures above { (b : ℕ) → ((k : ℕ) → k < length lines.now → slice_index lines.now k < b) → (i : ℕ) → b ≤ i → get_or wanted.new i false ≡ get_or wanted.old i false }
{
    for at in 0..lines.len() {
        wanted[lines[at] as usize] = true;
    }
}

/// Marks the lines that this one stands on.
fn mark(line: &Line, wanted: &mut [bool])
    requires within { Stands (λ r. r < length wanted.old) line.now }
    ensures kept { (i : ℕ) → IsWanted wanted.old i → IsWanted wanted.new i }
    ensures marked { Stands (IsWanted wanted.new) line.now }
    ensures above { (b : ℕ) → Stands (λ r. r < b) line.now → (i : ℕ) → b ≤ i → get_or wanted.new i false ≡ get_or wanted.old i false }
{
    match line {
        Line::Flip(first) => {
            wanted[*first as usize] = true;
        }
        Line::Chain(first, second) => {
            wanted[*first as usize] = true;
            wanted[*second as usize] = true;
        }
        Line::Same(_, _, lines) => mark_all(lines.as_slice(), wanted),
        Line::Part(first, _) => {
            wanted[*first as usize] = true;
        }
        _ => {}
    }
}

/// Marks all lines that marked ones stand on, from the last line back.
fn mark_needed(log: &[Equation], wanted: &mut [bool])
    requires size { length wanted.old ≡ length log.now + 1 }
    requires earlier { EarlierLines log.now }
    ensures kept { (i : ℕ) → IsWanted wanted.old i → IsWanted wanted.new i }
    ensures closed { WantedFrom log.now wanted.new 0 }
{
    for done in 0..log.len() {
        let at = log.len() - 1 - done;
        if wanted[at + 1] {
            mark(&log[at].by, wanted);
        }
    }
}

/// The line with new numbers for the lines that it stands on.
fn renumber(alloc: Global, line: &Line, numbers: &[u32]) -> Result<Line, OutOfMemory>
    requires within { Stands (λ r. r < length numbers.now) line.now }
    ensures { IfOk result (λ new. new ≡ renumbered numbers.now line.now) }
{
    Ok(match line {
        Line::Flip(first) => Line::Flip(numbers[*first as usize]),
        Line::Chain(first, second) => {
            Line::Chain(numbers[*first as usize], numbers[*second as usize])
        }
        Line::Same(left, right, lines) => {
            Line::Same(
                *left,
                *right,
                renumber_all(alloc, lines.as_slice(), numbers)?,
            )
        }
        Line::Part(first, place) => Line::Part(numbers[*first as usize], *place),
        _ => line.copy(alloc)?,
    })
}

fn renumber_all(alloc: Global, lines: &[u32], numbers: &[u32]) -> Result<Seq<u32>, OutOfMemory>
    requires within { (k : ℕ) → k < length lines.now → slice_index lines.now k < length numbers.now }
    ensures { IfOk result (λ new. new ≡ map (λ r. get_or numbers.now r 0) lines.now) }
{
    let mut new = Seq::new(alloc);
    for line in lines {
        new.push(numbers[*line as usize])?;
    }
    Ok(new)
}

/// The marked lines with the numbers that they have among themselves.
fn copy_wanted(alloc: Global, log: &[Equation], wanted: &[bool]) -> Result<Needed, OutOfMemory>
    requires size { length wanted.now ≡ length log.now + 1 }
    requires earlier { EarlierLines log.now }
    requires closed { WantedFrom log.now wanted.now 0 }
    ensures { IfOk result (λ kept. Copied log.now kept.log wanted.now kept.numbers (length log.now)) }
{
    let mut new = Seq::new(alloc);
    let mut numbers = Seq::new(alloc);
    numbers.push(0)?;
    for at in 0..log.len() {
        let number = if wanted[at + 1] {
            let equation = &log[at];
            let by = renumber(alloc, &equation.by, numbers.as_slice())?;
            let (left, right) = (equation.left, equation.right);
            note(&mut new, Equation { left, right, by })?
        } else {
            0
        };
        numbers.push(number)?;
    }
    Ok(Needed { log: new, numbers })
}

/// The lines of a log that two of them need; 0 stands for none.
pub fn needed_lines(
    alloc: Global,
    log: &[Equation],
    first: u32,
    second: u32,
) -> Result<Needed, OutOfMemory>
    requires earlier { EarlierLines log.now }
    requires first { first ≤ length log.now }
    requires second { second ≤ length log.now }
    ensures { IfOk result (λ kept. Keeps log.now kept first second) }
{
    let mut wanted = unmarked(alloc, log.len())?;
    let marks = wanted.as_mut_slice();
    marks[first as usize] = true;
    marks[second as usize] = true;
    mark_needed(log, marks);
    copy_wanted(alloc, log, wanted.as_slice())
}

/// A mark for each line of a log and one more in front; none is set.
fn unmarked(alloc: Global, count: usize) -> Result<Vec<bool>, OutOfMemory>
    ensures { IfOk result (λ marks. length marks.items ≡ count + 1) }
{
    let mut marks = Vec::new(alloc);
    marks.push(false)?;
    for _at in 0..count {
        marks.push(false)?;
    }
    Ok(marks)
}
