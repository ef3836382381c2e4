//! The pairs of components that are numbered where a component stands.

ghost use Rattle.std.specs.Prelude.{◌≡◌, ◌++◌, flat_map, map, option_map, IfOk, OnOk};
ghost use Rattle.std.specs.Option.{option_copied};
ghost use Rattle.fst_base.specs.Sorts.{plain_sort};
ghost use Rattle.fst_flats.specs.Makes.{Makes};
ghost use Rattle.fst_flats.specs.Pairs.{paired};
ghost use Rattle.fst_flats.specs.Preparing.{sorts_in};
ghost use Rattle.fst_flats.specs.Rows.{given};
ghost use Rattle.fst_terms.specs.DataFacts.{left_component, right_component};
ghost use Rattle.fst_terms.specs.Flats.{parts_of_each};
ghost use Rattle.fst_terms.specs.FlatForms.{component_pair, components};
ghost use Rattle.fst_terms.specs.Terms.{plain_term};

use crate::arguments::only;
use crate::building::{Made, binary, push_made, selector};
use crate::sorting::boxed_sort;
use fst_base::{Op, OutOfMemory, Seq, Sort};
use fst_terms::Term;
use std::alloc::Global;

/// The term of which this one is a component.
#[tactic(auto, using(crate::proofs::PlainForms::plain_variants))]
fn paired(term: &Term) -> Option<&Term>
    ensures { option_map plain_term (option_copied result) ≡ paired (plain_term term.now) }
{
    match term {
        Term::Prim(Op::Fst, _, args, _) => only(args.as_slice()),
        Term::Prim(Op::Snd, _, args, _) => only(args.as_slice()),
        _ => None,
    }
}

/// The sort of a pair's first component.
#[tactic(auto, using(crate::proofs::PlainForms::plain_variants))]
fn left_component(sort: &Sort) -> &Sort
    ensures { plain_sort result.now ≡ left_component (plain_sort sort.now) }
{
    match sort {
        Sort::Pair(left, _) => left.get(),
        _ => sort,
    }
}

/// The sort of a pair's second component.
#[tactic(auto, using(crate::proofs::PlainForms::plain_variants))]
fn right_component(sort: &Sort) -> &Sort
    ensures { plain_sort result.now ≡ right_component (plain_sort sort.now) }
{
    match sort {
        Sort::Pair(_, right) => right.get(),
        _ => sort,
    }
}

/// The pair of a term's components.
fn components(alloc: Global, term: &Term, sorts: &[Sort]) -> Made
    ensures { Makes result (components (sorts_in sorts.now) (plain_term term.now)) }
{
    let sort = boxed_sort(alloc, term, sorts)?;
    let left = selector(alloc, Op::Fst, left_component(sort.get()), term);
    let right = selector(alloc, Op::Snd, right_component(sort.get()), term);
    binary(alloc, Op::Pair, sort.get(), left, right)
}

/// Adds the pair of components of the term that this one is a component of.
fn add_pair(
    alloc: Global,
    term: &Term,
    sorts: &[Sort],
    pairs: &mut Seq<Term>,
) -> Result<(), OutOfMemory>
    ensures { OnOk result (map plain_term pairs.new ≡ map plain_term pairs.old ++ given (components (sorts_in sorts.now)) (paired (plain_term term.now))) }
{
    match paired(term) {
        Some(pair) => push_made(components(alloc, pair, sorts), pairs),
        None => Ok(()),
    }
}

/// The pairs of components of the terms that these are components of.
pub fn pairs(alloc: Global, terms: &[Term], sorts: &[Sort]) -> Result<Seq<Term>, OutOfMemory>
    ensures { IfOk result (λ pairs. parts_of_each (map plain_term pairs) ≡ flat_map (component_pair (sorts_in sorts.now)) (map plain_term terms.now)) }
{
    let mut pairs = Seq::new(alloc);
    for term in terms {
        add_pair(alloc, term, sorts, &mut pairs)?;
    }
    Ok(pairs)
}
