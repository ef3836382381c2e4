//! Sorts that are written.

ghost use Rattle.std.specs.Prelude.{◌≡◌, Some, IfOk};
ghost use Rattle.fst_base.specs.Sorts.{plain_sort, put_sorts, s_b};
ghost use Rattle.fst_effects.specs.Scopes.{known_sort};
ghost use Rattle.fst_effects.specs.WrittenSorts.{note_of, shape_breaks, written_sort};
ghost use Rattle.fst_trees.specs.declared.sort.SortTree.TheVariants as variant;

use crate::sorts::Known;
use fst_base::{Box, OutOfMemory, Rule, Sort, boxed, pair};
use fst_names::{Broken, Ref, RefKind, least, unless};
use fst_trees::SortTree;
use std::alloc::Global;

/// The sort that a name stands for.
#[tactic(auto, using(crate::proofs::WrittenLemmas::names))]
fn named_sort(name: Ref) -> Sort
    ensures { plain_sort result ≡ written_sort (variant.Ident name) }
{
    match name.kind {
        RefKind::SortA => Sort::VarA,
        _ => Sort::VarB,
    }
}

/// The sort that is written, on the heap.
#[cycle(sort_of)]
pub fn boxed_sort(alloc: Global, tree: &SortTree<Ref>) -> Result<Box<Sort>, OutOfMemory>
    ensures { IfOk result (λ s. plain_sort s ≡ written_sort tree.now) }
{
    boxed(alloc, sort_of(alloc, tree))
}

/// The sort that is written.
#[cycle(sort_of)]
#[tactic(auto, using(crate::proofs::WrittenLemmas::sorts))]
pub fn sort_of(alloc: Global, tree: &SortTree<Ref>) -> Result<Sort, OutOfMemory>
    ensures { IfOk result (λ s. plain_sort s ≡ written_sort tree.now) }
{
    match tree {
        SortTree::Unit => Ok(Sort::Unit),
        SortTree::Bool => Ok(Sort::Bool),
        SortTree::Int => Ok(Sort::Int),
        SortTree::Pair(left, right) => {
            let (left, right) = pair(
                boxed_sort(alloc, left.get()),
                boxed_sort(alloc, right.get()),
            )?;
            Ok(Sort::Pair(left, right))
        }
        SortTree::Opt(item) => Ok(Sort::Opt(boxed_sort(alloc, item.get())?)),
        SortTree::List(item) => Ok(Sort::List(boxed_sort(alloc, item.get())?)),
        SortTree::Either(left, right) => {
            let (left, right) = pair(
                boxed_sort(alloc, left.get()),
                boxed_sort(alloc, right.get()),
            )?;
            Ok(Sort::Either(left, right))
        }
        SortTree::Ident(name) => Ok(named_sort(*name)),
    }
}

/// The sort that is written, where one is.
#[tactic(auto, using(crate::proofs::WrittenLemmas::notes))]
pub fn noted(alloc: Global, note: &Option<SortTree<Ref>>) -> Known
    ensures { IfOk result (λ s. known_sort s ≡ note_of note.now) }
{
    match note {
        Some(tree) => Ok(Some(boxed_sort(alloc, tree)?)),
        None => Ok(None),
    }
}

/// A name in a sort of an effect's header: `a` in a result's sort alone, and `b` nowhere.
#[tactic(auto, using(crate::proofs::ShapeLemmas::names))]
fn check_name(a_too: bool, name: Ref) -> Option<Broken>
    ensures { result ≡ shape_breaks a_too (variant.Ident name) }
{
    match name.kind {
        RefKind::SortA => unless(!a_too, Rule::EffectShape, name.at),
        _ => unless(false, Rule::EffectShape, name.at),
    }
}

/// What a sort of an effect's header breaks, where it may not hold `b`, and not `a` too.
#[tactic(auto, using(crate::proofs::ShapeLemmas::shapes))]
pub fn check_shape(a_too: bool, tree: &SortTree<Ref>) -> Option<Broken>
    ensures { result ≡ shape_breaks a_too tree.now }
{
    match tree {
        SortTree::Unit => None,
        SortTree::Bool => None,
        SortTree::Int => None,
        SortTree::Pair(left, right) => least(
            check_shape(a_too, left.get()),
            check_shape(a_too, right.get()),
        ),
        SortTree::Opt(item) => check_shape(a_too, item.get()),
        SortTree::List(item) => check_shape(a_too, item.get()),
        SortTree::Either(left, right) => least(
            check_shape(a_too, left.get()),
            check_shape(a_too, right.get()),
        ),
        SortTree::Ident(name) => check_name(a_too, *name),
    }
}

/// The sort with `b` in place of `a`, on the heap.
#[cycle(at_b)]
pub fn boxed_at_b(alloc: Global, sort: &Sort) -> Result<Box<Sort>, OutOfMemory>
    ensures { IfOk result (λ made. plain_sort made ≡ put_sorts s_b s_b (plain_sort sort.now)) }
{
    boxed(alloc, at_b(alloc, sort))
}

/// The sort with `b` in place of `a`.
#[cycle(at_b)]
#[tactic(auto, using(crate::proofs::PlainLemmas::sorts))]
fn at_b(alloc: Global, sort: &Sort) -> Result<Sort, OutOfMemory>
    ensures { IfOk result (λ made. plain_sort made ≡ put_sorts s_b s_b (plain_sort sort.now)) }
{
    match sort {
        Sort::VarA => Ok(Sort::VarB),
        Sort::VarB => Ok(Sort::VarB),
        Sort::Unit => Ok(Sort::Unit),
        Sort::Bool => Ok(Sort::Bool),
        Sort::Int => Ok(Sort::Int),
        Sort::Pair(left, right) => {
            let (left, right) = pair(
                boxed_at_b(alloc, left.get()),
                boxed_at_b(alloc, right.get()),
            )?;
            Ok(Sort::Pair(left, right))
        }
        Sort::Opt(item) => Ok(Sort::Opt(boxed_at_b(alloc, item.get())?)),
        Sort::List(item) => Ok(Sort::List(boxed_at_b(alloc, item.get())?)),
        Sort::Either(left, right) => {
            let (left, right) = pair(
                boxed_at_b(alloc, left.get()),
                boxed_at_b(alloc, right.get()),
            )?;
            Ok(Sort::Either(left, right))
        }
    }
}
