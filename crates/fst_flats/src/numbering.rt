//! The facts that formulas give, and the numbering of their atoms and terms.

ghost use Rattle.std.specs.Prelude.{◌≡◌, ◌++◌, map, IfOk, OnOk};
ghost use Rattle.fst_flats.specs.Preparing.{sorts_in};
ghost use Rattle.fst_flats.specs.Rounds.{Begun};
ghost use Rattle.fst_flats.specs.Steps.{added_facts, completed, plain_forms};
ghost use Rattle.fst_terms.specs.FlatForms.{formulas, numbered_terms};
ghost use Rattle.fst_terms.specs.Skeletons.{atoms_of};
ghost use Rattle.fst_terms.specs.Terms.{plain_term};

use crate::arrangements::arrangements;
use crate::forms::Forms;
use crate::formulas::{collect, collect_all};
use crate::gathering::{data_facts, gather};
use crate::keyed::Keyed;
use crate::lengths::len_sorts;
use crate::pairs::pairs;
use crate::subterms::{add_all_parts, add_literals};
use fst_base::{OutOfMemory, Seq, Sort};
use fst_terms::Formula;
use std::alloc::Global;

/// What is added to formulas: further facts, and the atoms and terms of all, numbered from 1.
#[derive(Drop)]
pub struct Numbering {
    pub facts: Seq<Formula>,
    pub atoms: Keyed,
    pub terms: Keyed,
}

/// The atoms of the formulas, and their subterms.
fn begin(alloc: Global, forms: &Forms, sorts: &[Sort]) -> Result<(Keyed, Keyed), OutOfMemory>
    ensures { IfOk result (λ begun. Begun (sorts_in sorts.now) (formulas (plain_forms forms.now)) (map plain_term begun.0) (map plain_term begun.1)) }
{
    let mut atoms = Keyed::new(alloc);
    let mut terms = Keyed::new(alloc);
    collect_all(alloc, forms.hyps.as_slice(), sorts, &mut atoms)?;
    collect(alloc, forms.goal.get(), sorts, &mut atoms)?;
    collect_all(alloc, forms.facts.as_slice(), sorts, &mut atoms)?;
    add_all_parts(alloc, atoms.as_slice(), &mut terms)?;
    Ok((atoms, terms))
}

/// Adds the pairs of components and their parts, and the literals true, false and ().
fn complete(alloc: Global, sorts: &[Sort], terms: &mut Keyed) -> Result<(), OutOfMemory>
    ensures { OnOk result (map plain_term terms.new ≡ completed (sorts_in sorts.now) (map plain_term terms.old)) }
{
    let pairs = pairs(alloc, terms.as_slice(), sorts)?;
    add_all_parts(alloc, pairs.as_slice(), terms)?;
    add_literals(alloc, terms)
}

/// The further facts of the formulas, and the atoms and terms of all.
pub fn number(alloc: Global, forms: &Forms, sorts: &[Sort]) -> Result<Numbering, OutOfMemory>
    ensures facts { IfOk result (λ made. map plain_term made.facts ≡ added_facts (sorts_in sorts.now) (formulas (plain_forms forms.now))) }
    ensures atoms { IfOk result (λ made. map plain_term made.atoms ≡ atoms_of (sorts_in sorts.now) (formulas (plain_forms forms.now) ++ map plain_term made.facts)) }
    ensures terms { IfOk result (λ made. map plain_term made.terms ≡ numbered_terms (sorts_in sorts.now) (map plain_term made.atoms)) }
{
    let (mut atoms, mut terms) = begin(alloc, forms, sorts)?;
    let lens = len_sorts(alloc, terms.as_slice(), sorts)?;
    let facts = data_facts(alloc, sorts, lens.as_slice(), &mut atoms, &mut terms)?;
    let arranged = arrangements(alloc, terms.as_slice(), sorts)?;
    gather(alloc, arranged.as_slice(), sorts, &mut atoms, &mut terms)?;
    complete(alloc, sorts, &mut terms)?;
    let mut facts = facts.into_terms();
    facts.append(arranged)?;
    Ok(Numbering {
        facts,
        atoms,
        terms,
    })
}
