ghost use Rattle.std.specs.Prelude.{◌≡◌, ◌&&◌, if◌then◌else◌, [], ◌∷◌, false, flat_map, map, OnOk};
ghost use Rattle.fst_flats.specs.Preparing.{sorts_in};
ghost use Rattle.fst_terms.specs.Naming.{is_comparison, named_among, named_in};
ghost use Rattle.fst_terms.specs.Same.{firsts};
ghost use Rattle.fst_terms.specs.Terms.{plain_term, plain_terms};

use crate::keyed::Keyed;
use crate::sorting::{is_data_term, takes_data};
use fst_base::{Op, OutOfMemory, Sort};
use fst_terms::Term;
use std::alloc::Global;

/// Adds the terms that are named in this one, each once: innermost first, and from left to right.
#[cycle(name)]
#[tactic(auto, using(crate::proofs::PlainForms::plain_variants))]
fn name(
    alloc: Global,
    term: &Term,
    is_argument: bool,
    sorts: &[Sort],
    names: &mut Keyed,
) -> Result<(), OutOfMemory>
    ensures { OnOk result (map plain_term names.new ≡ firsts (map plain_term names.old) (named_in (sorts_in sorts.now) is_argument (plain_term term.now))) }
{
    match term {
        Term::If(test, left, right) => {
            let left_is = is_data_term(alloc, sorts, left.get())?;
            name(alloc, test.get(), false, sorts, names)?;
            name(alloc, left.get(), left_is, sorts, names)?;
            name(alloc, right.get(), left_is, sorts, names)?;
            add_if(alloc, is_argument, term, names)
        }
        Term::Prim(op, _, args, _) => {
            let args_are = takes_data(alloc, sorts, *op, args.as_slice())?;
            name_all(alloc, args.as_slice(), args_are, sorts, names)?;
            add_if(alloc, is_named(is_argument, *op), term, names)
        }
        Term::App(_, _, args) => name_all(alloc, args.as_slice(), true, sorts, names),
        Term::Var(_) | Term::Int(_) | Term::Bool(_) | Term::Unit | Term::Let(_, _, _) => Ok(()),
    }
}

#[cycle(name)]
fn name_all(
    alloc: Global,
    terms: &[Term],
    are_arguments: bool,
    sorts: &[Sort],
    names: &mut Keyed,
) -> Result<(), OutOfMemory>
    ensures { OnOk result (map plain_term names.new ≡ firsts (map plain_term names.old) (named_among (sorts_in sorts.now) are_arguments (plain_terms terms.now))) }
{
    for term in terms {
        name(alloc, term, are_arguments, sorts, names)?;
    }
    Ok(())
}

/// Adds the terms that are named in these formulas, each once.
pub fn name_formulas(
    alloc: Global,
    formulas: &[Term],
    sorts: &[Sort],
    names: &mut Keyed,
) -> Result<(), OutOfMemory>
    ensures { OnOk result (map plain_term names.new ≡ firsts (map plain_term names.old) (flat_map (named_in (sorts_in sorts.now) false) (map plain_term formulas.now))) }
{
    for formula in formulas {
        name(alloc, formula, false, sorts, names)?;
    }
    Ok(())
}

/// Adds the terms that are named in this formula, each once.
pub fn name_formula(
    alloc: Global,
    formula: &Term,
    sorts: &[Sort],
    names: &mut Keyed,
) -> Result<(), OutOfMemory>
    ensures { OnOk result (map plain_term names.new ≡ firsts (map plain_term names.old) (named_in (sorts_in sorts.now) false (plain_term formula.now))) }
{
    name(alloc, formula, false, sorts, names)
}

/// Whether the operator compares.
fn is_comparison(op: Op) -> bool
    ensures { result ≡ is_comparison op }
{
    match op {
        Op::Le | Op::Lt | Op::Eq => true,
        _ => false,
    }
}

/// Whether a term of this operator is named here.
pub fn is_named(is_argument: bool, op: Op) -> bool
    ensures { result ≡ (is_argument && is_comparison op) }
{
    is_argument && is_comparison(op)
}

/// Puts the term last where it is wanted, unless it is there.
fn add_if(alloc: Global, wanted: bool, term: &Term, names: &mut Keyed) -> Result<(), OutOfMemory>
    ensures { OnOk result (map plain_term names.new ≡ firsts (map plain_term names.old) (if wanted then plain_term term.now ∷ [] else [])) }
{
    if wanted {
        names.add(alloc, term)
    } else {
        Ok(())
    }
}
