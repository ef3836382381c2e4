//! The marks that two refutations use together.

ghost use Rattle.std.specs.Prelude.{◌≡◌, ◌≤◌, length, drop, IfOk};
ghost use Rattle.fst_cases.specs.Knowing.{Shows, first_mark, joined, stronger, turn_of, without};

use crate::known::Known;
use fst_base::{OutOfMemory, Seq};
use fst_terms::Mark;
use std::alloc::Global;

/// What comes next of two falling lists: a mark of one of them, or of both.
#[derive(Clone, Copy, Debug)]
pub enum Turn {
    First(Known),
    Second(Known),
    Both(Known),
    End,
}

/// Of two marks of one atom, the one that says more.
fn stronger(left: Mark, right: Mark) -> Mark
    ensures { result ≡ stronger left right }
{
    match left {
        Mark::False => right,
        Mark::True | Mark::Less | Mark::Greater => left,
    }
}

/// Which of two next marks comes first.
fn turn_of(left: Known, right: Known) -> Turn
    ensures { result ≡ turn_of left right }
{
    if right.atom < left.atom {
        Turn::First(left)
    } else if left.atom < right.atom {
        Turn::Second(right)
    } else {
        Turn::Both(Known {
            atom: left.atom,
            mark: stronger(left.mark, right.mark),
        })
    }
}

/// What comes next.
fn next(left: &[Known], right: &[Known]) -> Turn
    ensures { Shows result left.now right.now }
{
    match left {
        [] => match right {
            [] => Turn::End,
            [second, ..] => Turn::Second(*second),
        },
        [first, ..] => match right {
            [] => Turn::First(*first),
            [second, ..] => turn_of(*first, *second),
        },
    }
}

fn rest(marks: &[Known]) -> &[Known]
    requires { 1 ≤ length marks.now }
    ensures { result.now ≡ drop 1 marks.now }
{
    &marks[1..]
}

/// The marks of both lists, by falling atoms.
pub fn joined(alloc: Global, left: &[Known], right: &[Known]) -> Result<Seq<Known>, OutOfMemory>
    ensures { IfOk result (λ all. all ≡ joined left.now right.now) }
{
    let mut all = Seq::new(alloc);
    let mut left = left;
    let mut right = right;
    loop {
        match next(left, right) {
            Turn::First(known) => {
                all.push(known)?;
                left = rest(left);
            }
            Turn::Second(known) => {
                all.push(known)?;
                right = rest(right);
            }
            Turn::Both(known) => {
                all.push(known)?;
                left = rest(left);
                right = rest(right);
            }
            Turn::End => return Ok(all),
        }
    }
}

/// The mark of this atom, where it comes first.
pub fn first_mark(marks: &[Known], atom: u32) -> Option<Mark>
    ensures { result ≡ first_mark marks.now atom }
{
    match marks {
        [] => None,
        [first, ..] => {
            if first.atom == atom {
                Some(first.mark)
            } else {
                None
            }
        }
    }
}

/// The marks but that of this atom, where it comes first.
pub fn without(marks: &[Known], atom: u32) -> &[Known]
    ensures { result.now ≡ without marks.now atom }
{
    if first_mark(marks, atom).is_some() {
        rest(marks)
    } else {
        marks
    }
}
