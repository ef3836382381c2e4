ghost use Rattle.std.specs.Prelude.{◌≡◌, map, IfOk};
ghost use Rattle.fst_flats.specs.Steps.{assembled, finished, plain_forms};
ghost use Rattle.fst_terms.specs.Flats.{plain_flat};
ghost use Rattle.fst_terms.specs.FlatForms.{flat_of};
ghost use Rattle.fst_terms.specs.Meaning.{plain_sequent};
ghost use Rattle.fst_terms.specs.Terms.{plain_term};

use crate::forms::{Forms, cleared, named, sorts_of};
use crate::numbering::{Numbering, number};
use crate::renaming::count;
use fst_base::{OutOfMemory, Seq};
use fst_terms::{Flat, Formula, Sequent};
use std::alloc::Global;

/// The flat form of these parts: the facts stand behind the hypotheses.
fn assembled(forms: Forms, numbering: Numbering) -> Result<Flat, OutOfMemory>
    ensures { IfOk result (λ flat. plain_flat flat ≡ assembled forms numbering) }
{
    let Forms {
        vars,
        hyps,
        goal,
        facts,
    } = forms;
    let Numbering {
        facts: more,
        atoms,
        terms,
    } = numbering;
    let count = count(hyps.len())?;
    let mut formulas = hyps;
    formulas.append(facts)?;
    formulas.append(more)?;
    Ok(Flat {
        vars,
        formulas,
        hyps: count,
        goal: goal.into_inner(),
        terms: terms.into_terms(),
        atoms: atoms.into_terms(),
    })
}

/// The flat form of formulas: with their data facts and arrangements, and with their atoms and terms numbered.
fn numbered(alloc: Global, forms: Forms) -> Result<Flat, OutOfMemory>
    ensures { IfOk result (λ flat. plain_flat flat ≡ finished (plain_forms forms)) }
{
    let sorts = sorts_of(alloc, forms.vars.as_slice())?;
    let numbering = number(alloc, &forms, sorts.as_slice())?;
    assembled(forms, numbering)
}

/// The flat form of a sequent, with these formulas as facts of its functions. It owns what it needs; `Err` is want of
/// memory, or a sequent of 2^32 variables or more.
pub fn prepare(alloc: Global, sequent: &Sequent, extra: &Seq<Formula>) -> Result<Flat, OutOfMemory>
    ensures { IfOk result (λ flat. plain_flat flat ≡ flat_of (plain_sequent sequent.now) (map plain_term extra.now)) }
{
    let forms = cleared(alloc, sequent, extra.as_slice())?;
    let forms = named(alloc, &forms)?;
    numbered(alloc, forms)
}
