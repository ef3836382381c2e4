//! Copies of the lists and options that texts and headers hold.
ghost use Rattle.std.specs.Prelude.{◌≡◌, Ok, IfOk};

use fst_base::{Name, OutOfMemory, Seq};
use fst_terms::{Formula, Term};
use std::alloc::Global;

pub(crate) fn copy_names(alloc: Global, names: &[Name]) -> Result<Seq<Name>, OutOfMemory>
    ensures { IfOk result (λ copies. copies ≡ names.now) }
{
    let mut copies = Seq::new(alloc);
    for name in names {
        copies.push(name.copy(alloc)?)?;
    }
    Ok(copies)
}

pub(crate) fn copy_terms(alloc: Global, terms: &[Term]) -> Result<Seq<Term>, OutOfMemory>
    ensures { IfOk result (λ copies. copies ≡ terms.now) }
{
    let mut copies = Seq::new(alloc);
    for term in terms {
        copies.push(term.copy(alloc)?)?;
    }
    Ok(copies)
}

pub(crate) fn copy_formula(
    alloc: Global,
    formula: &Option<Formula>,
) -> Result<Option<Formula>, OutOfMemory>
    ensures { IfOk result (λ copy. copy ≡ formula.now) }
{
    match formula {
        Some(formula) => Ok(Some(formula.copy(alloc)?)),
        None => Ok(None),
    }
}
