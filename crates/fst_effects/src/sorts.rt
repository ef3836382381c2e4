//! Sorts that may be known, and their parts.

ghost use Rattle.std.specs.Prelude.{◌≡◌, IfOk, Some, option_map};
ghost use Rattle.fst_base.specs.Sorts.{plain_sort, s_list, s_opt, same_sort};
ghost use Rattle.fst_program.specs.LiftPaths.{or_else};
ghost use Rattle.fst_effects.specs.Known.{with_sort};
ghost use Rattle.fst_effects.specs.Scopes.{known_sort, sort_at};
ghost use Rattle.fst_effects.specs.TermSorts as T;

use fst_base::{Box, OutOfMemory, Sort, boxed};
use std::alloc::Global;

/// A sort that may be known, or want of memory.
pub type Known = Result<Option<Box<Sort>>, OutOfMemory>;

/// The first where there is one, else the second.
pub fn or_else<'a>(first: Option<&'a Sort>, second: Option<&'a Sort>) -> Option<&'a Sort>
    ensures { sort_at result ≡ or_else (sort_at first.entry) (sort_at second.entry) }
{
    match first {
        Some(_) => first,
        None => second,
    }
}

/// Whether the two are one sort.
pub fn is_same(first: &Sort, second: &Sort) -> bool
    ensures { result ≡ same_sort (plain_sort first.now) (plain_sort second.now) }
{
    first.same(second)
}

/// A sort that is there, as a reference.
pub fn as_given(sort: &Option<Box<Sort>>) -> Option<&Sort>
    ensures { sort_at result ≡ known_sort sort.now }
{
    match sort {
        Some(sort) => Some(sort.get()),
        None => None,
    }
}

/// An equal sort on the heap.
pub fn copy_sort(alloc: Global, sort: &Sort) -> Result<Box<Sort>, OutOfMemory>
    ensures { IfOk result (λ s. s ≡ sort.now) }
{
    boxed(alloc, sort.copy(alloc))
}

/// An equal sort, where there is one.
pub fn copied(alloc: Global, sort: Option<&Sort>) -> Known
    ensures { IfOk result (λ s. known_sort s ≡ sort_at sort.entry) }
{
    match sort {
        Some(sort) => Ok(Some(copy_sort(alloc, sort)?)),
        None => Ok(None),
    }
}

/// The sort, on the heap.
pub fn known(alloc: Global, sort: Sort) -> Known
    ensures { IfOk result (λ s. s ≡ Some sort) }
{
    Ok(Some(Box::new(alloc, sort)?))
}

/// The left part of a pair.
#[tactic(auto, using(crate::proofs::PlainLemmas::sorts))]
pub fn left_of(sort: Option<&Sort>) -> Option<&Sort>
    ensures { sort_at result ≡ with_sort (sort_at sort.entry) T.left_of }
{
    match sort? {
        Sort::Pair(left, _) => Some(left.get()),
        _ => None,
    }
}

/// The right part of a pair.
#[tactic(auto, using(crate::proofs::PlainLemmas::sorts))]
pub fn right_of(sort: Option<&Sort>) -> Option<&Sort>
    ensures { sort_at result ≡ with_sort (sort_at sort.entry) T.right_of }
{
    match sort? {
        Sort::Pair(_, right) => Some(right.get()),
        _ => None,
    }
}

/// What an option may hold.
#[tactic(auto, using(crate::proofs::PlainLemmas::sorts))]
pub fn option_of(sort: Option<&Sort>) -> Option<&Sort>
    ensures { sort_at result ≡ with_sort (sort_at sort.entry) T.option_of }
{
    match sort? {
        Sort::Opt(value) => Some(value.get()),
        _ => None,
    }
}

/// An item of a list.
#[tactic(auto, using(crate::proofs::PlainLemmas::sorts))]
pub fn item_of(sort: Option<&Sort>) -> Option<&Sort>
    ensures { sort_at result ≡ with_sort (sort_at sort.entry) T.item_of }
{
    match sort? {
        Sort::List(item) => Some(item.get()),
        _ => None,
    }
}

/// What stands at the left of an either.
#[tactic(auto, using(crate::proofs::PlainLemmas::sorts))]
pub fn inl_of(sort: Option<&Sort>) -> Option<&Sort>
    ensures { sort_at result ≡ with_sort (sort_at sort.entry) T.inl_of }
{
    match sort? {
        Sort::Either(left, _) => Some(left.get()),
        _ => None,
    }
}

/// What stands at the right of an either.
#[tactic(auto, using(crate::proofs::PlainLemmas::sorts))]
pub fn inr_of(sort: Option<&Sort>) -> Option<&Sort>
    ensures { sort_at result ≡ with_sort (sort_at sort.entry) T.inr_of }
{
    match sort? {
        Sort::Either(_, right) => Some(right.get()),
        _ => None,
    }
}

/// The sort of pairs of these, where both are known.
#[tactic(auto, using(crate::proofs::PlainLemmas::sorts))]
pub fn pair_of(alloc: Global, first: Option<Box<Sort>>, second: Option<Box<Sort>>) -> Known
    ensures { IfOk result (λ s. known_sort s ≡ T.pair_of (known_sort first) (known_sort second)) }
{
    match (first, second) {
        (Some(first), Some(second)) => known(alloc, Sort::Pair(first, second)),
        _ => Ok(None),
    }
}

/// The sort of options of this.
#[tactic(auto, using(crate::proofs::PlainLemmas::sorts))]
pub fn option_sort(alloc: Global, value: Option<Box<Sort>>) -> Known
    ensures { IfOk result (λ s. known_sort s ≡ option_map s_opt (known_sort value)) }
{
    match value {
        Some(value) => known(alloc, Sort::Opt(value)),
        None => Ok(None),
    }
}

/// The sort of lists of this.
#[tactic(auto, using(crate::proofs::PlainLemmas::sorts))]
pub fn list_sort(alloc: Global, item: Option<Box<Sort>>) -> Known
    ensures { IfOk result (λ s. known_sort s ≡ option_map s_list (known_sort item)) }
{
    match item {
        Some(item) => known(alloc, Sort::List(item)),
        None => Ok(None),
    }
}
