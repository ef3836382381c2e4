//! Sorts for the sort variables of definition text.

ghost use Rattle.std.specs.Prelude.{◌≡◌, IfOk};
ghost use Rattle.fst_base.specs.Sorts.{plain_sort};
ghost use Rattle.fst_program.specs.Paths.{dm_arms_at, dm_at};
ghost use Rattle.fst_program.specs.Plain.{plain_dm};
ghost use Rattle.fst_program.proofs.PlainLemmas.{plain_dm_arms};

use crate::sort_putting::term_at;
use fst_base::{Box, Name, OutOfMemory, Seq, Sort, boxed, pair};
use fst_program::{Arm, DmTerm};
use std::alloc::Global;

/// The text with a and b in place of the sort variables.
#[cycle(definition_at)]
#[tactic(auto, using(crate::proofs::PlainForms::dm_variants))]
pub fn definition_at(
    alloc: Global,
    text: &DmTerm,
    a: &Sort,
    b: &Sort,
) -> Result<DmTerm, OutOfMemory>
    ensures { IfOk result (λ made. plain_dm made ≡ dm_at (plain_sort a.now) (plain_sort b.now) (plain_dm text.now)) }
{
    match text {
        DmTerm::Ret(term) => Ok(DmTerm::Ret(term_at(alloc, term, a, b)?)),
        DmTerm::Let(name, bound, rest) => {
            let front = pair(name.copy(alloc), boxed_at(alloc, bound, a, b));
            let ((name, bound), rest) = pair(front, boxed_at(alloc, rest, a, b))?;
            Ok(DmTerm::Let(name, bound, rest))
        }
        DmTerm::If(test, left, right) => {
            let front = pair(term_at(alloc, test, a, b), boxed_at(alloc, left, a, b));
            let ((test, left), right) = pair(front, boxed_at(alloc, right, a, b))?;
            Ok(DmTerm::If(test, left, right))
        }
        DmTerm::Match(term, arms) => {
            let arms = arms_at(alloc, arms.as_slice(), a, b);
            let (term, arms) = pair(term_at(alloc, term, a, b), arms)?;
            Ok(DmTerm::Match(term, arms))
        }
        DmTerm::RunF(input) => Ok(DmTerm::RunF(term_at(alloc, input, a, b)?)),
        DmTerm::RunG(value, input) => {
            let (value, input) = pair(term_at(alloc, value, a, b), term_at(alloc, input, a, b))?;
            Ok(DmTerm::RunG(value, input))
        }
    }
}

#[cycle(definition_at)]
fn boxed_at(
    alloc: Global,
    text: &Box<DmTerm>,
    a: &Sort,
    b: &Sort,
) -> Result<Box<DmTerm>, OutOfMemory>
    ensures { IfOk result (λ made. plain_dm made ≡ dm_at (plain_sort a.now) (plain_sort b.now) (plain_dm text.now)) }
{
    boxed(alloc, definition_at(alloc, text.get(), a, b))
}

/// The arms with a and b in place of the sort variables.
#[cycle(definition_at)]
fn arms_at(
    alloc: Global,
    arms: &[Arm<DmTerm>],
    a: &Sort,
    b: &Sort,
) -> Result<Seq<Arm<DmTerm>>, OutOfMemory>
    ensures { IfOk result (λ made. plain_dm_arms made ≡ dm_arms_at (plain_sort a.now) (plain_sort b.now) (plain_dm_arms arms.now)) }
{
    let mut made = Seq::new(alloc);
    for arm in arms {
        let names = copy_names(alloc, arm.names.as_slice());
        let (names, body) = pair(names, definition_at(alloc, &arm.body, a, b))?;
        let con = arm.con;
        made.push(Arm { con, names, body })?;
    }
    Ok(made)
}

fn copy_names(alloc: Global, names: &[Name]) -> Result<Seq<Name>, OutOfMemory>
    ensures { IfOk result (λ copies. copies ≡ names.now) }
{
    let mut copies = Seq::new(alloc);
    for name in names {
        copies.push(name.copy(alloc)?)?;
    }
    Ok(copies)
}
