//! The pair of a term's components, and the sorts of variables.

ghost use Rattle.std.specs.Prelude.{◌≡◌, map, IfOk};
ghost use Rattle.fst_base.specs.Sorts.{plain_sort};
ghost use Rattle.fst_shapes.specs.Makes.{Makes};
ghost use Rattle.fst_shapes.specs.Preparing.{sorts_in};
ghost use Rattle.fst_terms.specs.DataFacts.{left_component, right_component};
ghost use Rattle.fst_terms.specs.Flats.{sorts_of_vars};
ghost use Rattle.fst_terms.specs.FlatForms.{components};
ghost use Rattle.fst_terms.specs.Meaning.{plain_var};
ghost use Rattle.fst_terms.specs.Terms.{plain_term};

use crate::building::{Made, binary, selector};
use crate::sorting::boxed_sort;
use fst_base::{Op, OutOfMemory, Seq, Sort};
use fst_terms::{Term, Var};
use std::alloc::Global;

/// The sort of a pair's first component.
#[tactic(auto, using(crate::proofs::PlainForms::plain_variants))]
fn left_component(sort: &Sort) -> &Sort
    ensures { plain_sort result.now ≡ left_component (plain_sort sort.now) }
{
    match sort {
        Sort::Pair(left, _) => left.get(),
        _ => sort,
    }
}

/// The sort of a pair's second component.
#[tactic(auto, using(crate::proofs::PlainForms::plain_variants))]
fn right_component(sort: &Sort) -> &Sort
    ensures { plain_sort result.now ≡ right_component (plain_sort sort.now) }
{
    match sort {
        Sort::Pair(_, right) => right.get(),
        _ => sort,
    }
}

/// The pair of a term's components.
pub fn components(alloc: Global, term: &Term, sorts: &[Sort]) -> Made
    ensures { Makes result (components (sorts_in sorts.now) (plain_term term.now)) }
{
    let sort = boxed_sort(alloc, term, sorts)?;
    let left = selector(alloc, Op::Fst, left_component(sort.get()), term);
    let right = selector(alloc, Op::Snd, right_component(sort.get()), term);
    binary(alloc, Op::Pair, sort.get(), left, right)
}

/// The sorts of the variables.
pub fn sorts_of(alloc: Global, vars: &[Var]) -> Result<Seq<Sort>, OutOfMemory>
    ensures { IfOk result (λ sorts. sorts_in sorts ≡ sorts_of_vars (map plain_var vars.now)) }
{
    let mut sorts = Seq::new(alloc);
    for var in vars {
        sorts.push(var.sort.copy(alloc)?)?;
    }
    Ok(sorts)
}
