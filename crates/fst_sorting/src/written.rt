//! Sorts that are written in bodies and headers.

ghost use Rattle.std.specs.Prelude.{◌≡◌, Some, IfOk};
ghost use Rattle.fst_base.specs.Sorts.{plain_sort};
ghost use Rattle.fst_effects.specs.Scopes.{known_sort};
ghost use Rattle.fst_trees.specs.declared.sort.SortTree.TheVariants as variant;
ghost use Rattle.fst_sorting.specs.Sites.{note_of, written_sort};

use fst_base::{Box, OutOfMemory, Sort, boxed, pair};
use fst_effects::KnownSort;
use fst_names::{Ref, RefKind};
use fst_trees::SortTree;
use std::alloc::Global;

/// The sort that a name stands for.
#[tactic(auto, using(crate::proofs::WrittenLemmas::names))]
fn named_sort(name: Ref) -> Sort
    ensures { plain_sort result ≡ written_sort (variant.Ident name) }
{
    match name.kind {
        RefKind::SortA => Sort::VarA,
        _ => Sort::VarB,
    }
}

/// The sort that is written, on the heap.
#[cycle(sort_of)]
pub fn boxed_sort(alloc: Global, tree: &SortTree<Ref>) -> Result<Box<Sort>, OutOfMemory>
    ensures { IfOk result (λ s. plain_sort s ≡ written_sort tree.now) }
{
    boxed(alloc, sort_of(alloc, tree))
}

/// The sort that is written.
#[cycle(sort_of)]
#[tactic(auto, using(crate::proofs::WrittenLemmas::sorts))]
pub fn sort_of(alloc: Global, tree: &SortTree<Ref>) -> Result<Sort, OutOfMemory>
    ensures { IfOk result (λ s. plain_sort s ≡ written_sort tree.now) }
{
    match tree {
        SortTree::Unit => Ok(Sort::Unit),
        SortTree::Bool => Ok(Sort::Bool),
        SortTree::Int => Ok(Sort::Int),
        SortTree::Pair(left, right) => {
            let (left, right) = pair(
                boxed_sort(alloc, left.get()),
                boxed_sort(alloc, right.get()),
            )?;
            Ok(Sort::Pair(left, right))
        }
        SortTree::Opt(item) => Ok(Sort::Opt(boxed_sort(alloc, item.get())?)),
        SortTree::List(item) => Ok(Sort::List(boxed_sort(alloc, item.get())?)),
        SortTree::Either(left, right) => {
            let (left, right) = pair(
                boxed_sort(alloc, left.get()),
                boxed_sort(alloc, right.get()),
            )?;
            Ok(Sort::Either(left, right))
        }
        SortTree::Ident(name) => Ok(named_sort(*name)),
    }
}

/// The sort that is written, which is known.
pub fn known_written(alloc: Global, tree: &SortTree<Ref>) -> KnownSort
    ensures { IfOk result (λ s. known_sort s ≡ Some (written_sort tree.now)) }
{
    Ok(Some(boxed_sort(alloc, tree)?))
}

/// The sort that is written, where one is.
#[tactic(auto, using(crate::proofs::WrittenLemmas::notes))]
pub fn noted(alloc: Global, note: &Option<SortTree<Ref>>) -> KnownSort
    ensures { IfOk result (λ s. known_sort s ≡ note_of note.now) }
{
    match note {
        Some(tree) => known_written(alloc, tree),
        None => Ok(None),
    }
}
