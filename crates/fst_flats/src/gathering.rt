//! The atoms of formulas, their subterms, and the data facts that these give, in rounds.

ghost use Rattle.std.specs.Prelude.{◌≡◌, ◌++◌, List, [], flat_map, map, length, IfOk, OnOk};
ghost use Rattle.fst_base.specs.Sorts.{plain_sort};
ghost use Rattle.fst_flats.specs.Preparing.{sorts_in};
ghost use Rattle.fst_flats.specs.Relations.{atoms_of_formula};
ghost use Rattle.fst_flats.specs.Rounds.{Begun, Gathered, Moved};
ghost use Rattle.fst_terms.specs.DataFacts.{again, next_facts, subterms};
ghost use Rattle.fst_terms.specs.Skeletons.{first_atoms};
ghost use Rattle.fst_terms.specs.Terms.{Tm, plain_term};

use crate::arguments::after;
use crate::data_facts::add_facts;
use crate::formulas::collect_all;
use crate::keyed::Keyed;
use crate::subterms::add_all_parts;
use fst_base::{OutOfMemory, Sort};
use fst_terms::Term;
use std::alloc::Global;

/// Adds the atoms of these formulas, and the subterms of those that are new.
pub fn gather(
    alloc: Global,
    formulas: &[Term],
    sorts: &[Sort],
    atoms: &mut Keyed,
    terms: &mut Keyed,
) -> Result<(), OutOfMemory>
    ensures atoms { OnOk result (map plain_term atoms.new ≡ first_atoms (map plain_term atoms.old) (flat_map (atoms_of_formula (sorts_in sorts.now)) (map plain_term formulas.now))) }
    ensures terms { OnOk result (map plain_term terms.old ≡ subterms (map plain_term atoms.old) → map plain_term terms.new ≡ subterms (map plain_term atoms.new)) }
{
    let count = atoms.len();
    collect_all(alloc, formulas, sorts, atoms)?;
    add_all_parts(alloc, after(atoms.as_slice(), count), terms)
}

/// A round: adds the facts of the terms from this one on, then the atoms of the new facts and their subterms.
fn round(
    alloc: Global,
    used: usize,
    sorts: &[Sort],
    lens: &[Sort],
    atoms: &mut Keyed,
    terms: &mut Keyed,
    facts: &mut Keyed,
) -> Result<(), OutOfMemory>
    ensures { OnOk result ((phis : List Tm) → Gathered (sorts_in sorts.now) (map plain_sort lens.now) phis (map plain_term atoms.old) (map plain_term terms.old) (map plain_term facts.old) used → Moved (sorts_in sorts.now) (map plain_sort lens.now) phis (map plain_term facts.old) (length terms.old) (map plain_term atoms.new) (map plain_term terms.new) (map plain_term facts.new)) }
{
    let known = facts.len();
    add_facts(alloc, after(terms.as_slice(), used), sorts, lens, facts)?;
    gather(alloc, after(facts.as_slice(), known), sorts, atoms, terms)
}

/// The data facts of the formulas whose atoms and subterms these are; adds the atoms and the subterms of the facts.
pub fn data_facts(
    alloc: Global,
    sorts: &[Sort],
    lens: &[Sort],
    atoms: &mut Keyed,
    terms: &mut Keyed,
) -> Result<Keyed, OutOfMemory>
    ensures facts { IfOk result (λ facts. (phis : List Tm) → Begun (sorts_in sorts.now) phis (map plain_term atoms.old) (map plain_term terms.old) → map plain_term facts ≡ again 6 (next_facts (sorts_in sorts.now) (map plain_sort lens.now) phis) []) }
    ensures atoms { IfOk result (λ facts. (phis : List Tm) → Begun (sorts_in sorts.now) phis (map plain_term atoms.old) (map plain_term terms.old) → Begun (sorts_in sorts.now) (phis ++ map plain_term facts) (map plain_term atoms.new) (map plain_term terms.new)) }
{
    let mut facts = Keyed::new(alloc);
    let mut used = 0;
    let mut turn = 0u8;
    while turn < 6 {
        let count = terms.len();
        round(alloc, used, sorts, lens, atoms, terms, &mut facts)?;
        used = count;
        turn += 1;
    }
    Ok(facts)
}
