//! Sorts of terms.
ghost use Rattle.std.specs.Prelude.{◌≡◌, ◌∷◌, ◌++◌, [], get_or, map, IfOk};
ghost use Rattle.fst_base.specs.Sorts.{plain_sort, s_unit};
ghost use Rattle.fst_program.specs.Paths.{part_sorts};
ghost use Rattle.fst_scopes.specs.Scopes.{sorts_in, terms_for};
ghost use Rattle.fst_terms.specs.Formulas.{sort_of};
ghost use Rattle.fst_terms.specs.Terms.{plain_term};

use fst_base::{Box, OutOfMemory, Seq, Sort};
use fst_program::Con;
use fst_terms::Term;
use std::alloc::Global;

/// Equal sorts, in order.
pub fn copy_sorts(alloc: Global, sorts: &[Sort]) -> Result<Seq<Sort>, OutOfMemory>
    ensures { IfOk result (λ copies. copies ≡ sorts.now) }
{
    let mut copies = Seq::new(alloc);
    for sort in sorts {
        copies.push(sort.copy(alloc)?)?;
    }
    Ok(copies)
}

/// The list with one item more.
fn pushed<T: Drop>(mut items: Seq<T>, item: T) -> Result<Seq<T>, OutOfMemory>
    ensures { IfOk result (λ made. made ≡ items ++ item ∷ []) }
{
    items.push(item)?;
    Ok(items)
}

/// The sort of a variable.
#[tactic(auto, using(crate::proofs::PlainForms::plain_variants))]
fn sort_at(alloc: Global, sorts: &[Sort], index: u32) -> Result<Sort, OutOfMemory>
    ensures { IfOk result (λ sort. plain_sort sort ≡ get_or (sorts_in sorts.now) index s_unit) }
{
    let index = index as usize;
    if index < sorts.len() {
        sorts[sorts.len() - 1 - index].copy(alloc)
    } else {
        Ok(Sort::Unit)
    }
}

/// The sort of the term, where these are the sorts of its variables.
#[tactic(auto, using(crate::proofs::PlainForms::plain_variants))]
pub fn sort_of(alloc: Global, term: &Term, sorts: &[Sort]) -> Result<Sort, OutOfMemory>
    ensures { IfOk result (λ sort. plain_sort sort ≡ sort_of (sorts_in sorts.now) (plain_term term.now)) }
{
    match term {
        Term::Var(index) => sort_at(alloc, sorts, *index),
        Term::Int(_) => Ok(Sort::Int),
        Term::Bool(_) => Ok(Sort::Bool),
        Term::Unit => Ok(Sort::Unit),
        Term::Prim(_, sort, _, _) => sort.copy(alloc),
        Term::If(_, left, _) => sort_of(alloc, left.get(), sorts),
        Term::App(_, sort, _) => sort.copy(alloc),
        Term::Let(_, bound, rest) => {
            let inner = copy_sorts(alloc, sorts)?;
            let inner = pushed(inner, sort_of(alloc, bound.get(), sorts)?)?;
            sort_of(alloc, rest.get(), inner.as_slice())
        }
    }
}

/// The sort of the term, on the heap.
pub fn boxed_sort(alloc: Global, term: &Term, sorts: &[Sort]) -> Result<Box<Sort>, OutOfMemory>
    ensures { IfOk result (λ sort. plain_sort sort ≡ sort_of (sorts_in sorts.now) (plain_term term.now)) }
{
    Box::new(alloc, sort_of(alloc, term, sorts)?)
}

/// The sorts with one more, for the last variable.
pub fn with_sort(alloc: Global, sorts: &[Sort], sort: &Sort) -> Result<Seq<Sort>, OutOfMemory>
    ensures { IfOk result (λ made. sorts_in made ≡ plain_sort sort.now ∷ sorts_in sorts.now) }
{
    let made = copy_sorts(alloc, sorts)?;
    pushed(made, sort.copy(alloc)?)
}

/// The sorts of these terms, in order.
fn each_sort(alloc: Global, terms: &[Term], sorts: &[Sort]) -> Result<Seq<Sort>, OutOfMemory>
    ensures { IfOk result (λ made. map plain_sort made ≡ map (λ t. sort_of (sorts_in sorts.now) (plain_term t)) terms.now) }
{
    let mut made = Seq::new(alloc);
    for term in terms {
        made.push(sort_of(alloc, term, sorts)?)?;
    }
    Ok(made)
}

/// The sorts of the terms that stand for variables.
pub fn sorts_of(alloc: Global, terms: &[Term], sorts: &[Sort]) -> Result<Seq<Sort>, OutOfMemory>
    ensures { IfOk result (λ made. sorts_in made ≡ map (sort_of (sorts_in sorts.now)) (terms_for terms.now)) }
{
    each_sort(alloc, terms, sorts)
}

/// The sorts of the variables and of the parts of a constructor.
#[tactic(auto, using(crate::proofs::PlainForms::plain_variants))]
pub fn with_parts(
    alloc: Global,
    sorts: &[Sort],
    con: Con,
    sort: &Sort,
) -> Result<Seq<Sort>, OutOfMemory>
    ensures { IfOk result (λ inner. sorts_in inner ≡ part_sorts con (plain_sort sort.now) ++ sorts_in sorts.now) }
{
    match (con, sort) {
        (Con::Full, Sort::Opt(item)) => with_sort(alloc, sorts, item.get()),
        (Con::Cons, Sort::List(item)) => {
            let inner = with_sort(alloc, sorts, item.get())?;
            with_sort(alloc, inner.as_slice(), sort)
        }
        (Con::Left, Sort::Either(left, _)) => with_sort(alloc, sorts, left.get()),
        (Con::Right, Sort::Either(_, right)) => with_sort(alloc, sorts, right.get()),
        (Con::Pair, Sort::Pair(left, right)) => {
            let inner = with_sort(alloc, sorts, left.get())?;
            with_sort(alloc, inner.as_slice(), right.get())
        }
        _ => copy_sorts(alloc, sorts),
    }
}
