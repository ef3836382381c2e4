//! The atoms of formulas, from left to right.

ghost use Rattle.std.specs.Prelude.{◌≡◌, flat_map, map, IfOk, OnOk};
ghost use Rattle.fst_base.specs.declared.op.Op.TheVariants as op;
ghost use Rattle.fst_flats.specs.Preparing.{sorts_in};
ghost use Rattle.fst_flats.specs.Relations.{atoms_of_formula, is_same, relation, relation_two};
ghost use Rattle.fst_terms.specs.Formulas.{sort_of};
ghost use Rattle.fst_terms.specs.Skeletons.{at_most_form, atoms_in, equal, first_atoms, less_form};
ghost use Rattle.fst_terms.specs.Terms.{plain_term, plain_terms};

use crate::atoms::add_atom;
use crate::building::{at_most, copied};
use crate::equations::{are_literals, collect_equal};
use crate::keyed::Keyed;
use crate::sorting::{boxed_sort, is_data_term};
use fst_base::{Box, Op, OutOfMemory, Sort, boxed};
use fst_terms::Term;
use std::alloc::Global;

/// Adds the comparison; that of two literals is no atom.
fn add_at_most(
    alloc: Global,
    left: &Term,
    right: &Term,
    atoms: &mut Keyed,
) -> Result<(), OutOfMemory>
    ensures { OnOk result (map plain_term atoms.new ≡ first_atoms (map plain_term atoms.old) (atoms_in (at_most_form (plain_term left.now) (plain_term right.now)))) }
{
    if are_literals(left, right) {
        return Ok(());
    }
    let made = boxed(
        alloc,
        at_most(alloc, copied(alloc, left), copied(alloc, right)),
    )?;
    add_atom(alloc, made.get(), atoms)
}

/// Adds the atom of left < right, which is right <= left; that of two literals is no atom.
fn add_less(alloc: Global, left: &Term, right: &Term, atoms: &mut Keyed) -> Result<(), OutOfMemory>
    ensures { OnOk result (map plain_term atoms.new ≡ first_atoms (map plain_term atoms.old) (atoms_in (less_form (plain_term left.now) (plain_term right.now)))) }
{
    if are_literals(left, right) {
        return Ok(());
    }
    let made = boxed(
        alloc,
        at_most(alloc, copied(alloc, right), copied(alloc, left)),
    )?;
    add_atom(alloc, made.get(), atoms)
}

/// Adds the atoms of an equation of the two at their sort.
#[tactic(auto, using(crate::proofs::PlainForms::plain_variants))]
fn add_equal(
    alloc: Global,
    left: &Term,
    right: &Term,
    sorts: &[Sort],
    atoms: &mut Keyed,
) -> Result<(), OutOfMemory>
    ensures { OnOk result (map plain_term atoms.new ≡ first_atoms (map plain_term atoms.old) (atoms_in (equal (sort_of (sorts_in sorts.now) (plain_term left.now)) (plain_term left.now) (plain_term right.now)))) }
{
    let sort = boxed_sort(alloc, left, sorts)?;
    let unit = Box::new(alloc, Term::Unit)?;
    collect_equal(alloc, sort.get(), left, right, unit.get(), atoms)
}

/// Adds the atoms of a relation of two terms that is no equation of bools.
fn add_two(
    alloc: Global,
    op: Op,
    sides: (&Term, &Term),
    term: &Term,
    sorts: &[Sort],
    atoms: &mut Keyed,
) -> Result<(), OutOfMemory>
    ensures { OnOk result (map plain_term atoms.new ≡ first_atoms (map plain_term atoms.old) (atoms_in (relation_two (sorts_in sorts.now) op (plain_term sides.entry.0.now) (plain_term sides.entry.1.now) (plain_term term.now)))) }
{
    let (left, right) = sides;
    match op {
        Op::Le => add_at_most(alloc, left, right, atoms),
        Op::Lt => add_less(alloc, left, right, atoms),
        Op::Eq => add_equal(alloc, left, right, sorts, atoms),
        _ => add_atom(alloc, term, atoms),
    }
}

/// Adds the atoms of a term of this operator that is no equation of two bools.
fn add_relation(
    alloc: Global,
    op: Op,
    args: &[Term],
    term: &Term,
    sorts: &[Sort],
    atoms: &mut Keyed,
) -> Result<(), OutOfMemory>
    ensures { OnOk result (map plain_term atoms.new ≡ first_atoms (map plain_term atoms.old) (atoms_in (relation (sorts_in sorts.now) op (plain_terms args.now) (plain_term term.now)))) }
{
    if args.len() == 2 {
        return add_two(alloc, op, (&args[0], &args[1]), term, sorts, atoms);
    }
    add_atom(alloc, term, atoms)
}

/// Whether a term of this operator is an equation of two bools, which is read through.
fn is_same(alloc: Global, op: Op, args: &[Term], sorts: &[Sort]) -> Result<bool, OutOfMemory>
    ensures { IfOk result (λ b. b ≡ is_same (sorts_in sorts.now) op (plain_terms args.now)) }
{
    match op {
        Op::Eq => are_bools(alloc, args, sorts),
        _ => Ok(false),
    }
}

/// Whether these are two bools, by the sort of the first.
fn are_bools(alloc: Global, args: &[Term], sorts: &[Sort]) -> Result<bool, OutOfMemory>
    ensures { IfOk result (λ b. b ≡ is_same (sorts_in sorts.now) op.Eq (plain_terms args.now)) }
{
    if args.len() != 2 {
        return Ok(false);
    }
    Ok(!is_data_term(alloc, sorts, &args[0])?)
}

/// Adds the atoms of a formula to those that were met before.
#[cycle(collect)]
#[tactic(auto, using(crate::proofs::PlainForms::plain_variants))]
pub fn collect(
    alloc: Global,
    term: &Term,
    sorts: &[Sort],
    atoms: &mut Keyed,
) -> Result<(), OutOfMemory>
    ensures { OnOk result (map plain_term atoms.new ≡ first_atoms (map plain_term atoms.old) (atoms_of_formula (sorts_in sorts.now) (plain_term term.now))) }
{
    match term {
        Term::Bool(_) => Ok(()),
        Term::If(test, left, right) => {
            collect(alloc, test.get(), sorts, atoms)?;
            collect(alloc, left.get(), sorts, atoms)?;
            collect(alloc, right.get(), sorts, atoms)
        }
        Term::Prim(op, _, args, _) => {
            if is_same(alloc, *op, args.as_slice(), sorts)? {
                return collect_all(alloc, args.as_slice(), sorts, atoms);
            }
            add_relation(alloc, *op, args.as_slice(), term, sorts, atoms)
        }
        _ => add_atom(alloc, term, atoms),
    }
}

/// Adds the atoms of these formulas to those that were met before.
#[cycle(collect)]
pub fn collect_all(
    alloc: Global,
    terms: &[Term],
    sorts: &[Sort],
    atoms: &mut Keyed,
) -> Result<(), OutOfMemory>
    ensures { OnOk result (map plain_term atoms.new ≡ first_atoms (map plain_term atoms.old) (flat_map (atoms_of_formula (sorts_in sorts.now)) (map plain_term terms.now))) }
{
    for term in terms {
        collect(alloc, term, sorts, atoms)?;
    }
    Ok(())
}
