//! Sorts with their names looked up.

ghost use Rattle.std.specs.Prelude.{◌≡◌, IfOk, option_map};
ghost use Rattle.fst_names.specs.Namings.{sort_named, note_named};
ghost use Rattle.fst_names.specs.Looked.{tables_in};
ghost use Rattle.fst_names.specs.Trees.{plain_wsort};

use crate::reference::Ref;
use crate::tables::Tables;
use fst_base::{OutOfMemory, boxed};
use fst_trees::{SortTree, Word};
use std::alloc::Global;

/// A sort with its names looked up.
#[tactic(auto, using(crate::proofs::NameSortLemmas::name_sorts))]
pub fn name_sort(
    alloc: Global,
    tables: &Tables<'_, '_>,
    tree: &SortTree<Word>,
) -> Result<SortTree<Ref>, OutOfMemory>
    ensures { IfOk result (λ s. plain_wsort s ≡ sort_named (tables_in tables.now) tree.now) }
{
    match tree {
        SortTree::Unit => Ok(SortTree::Unit),
        SortTree::Bool => Ok(SortTree::Bool),
        SortTree::Int => Ok(SortTree::Int),
        SortTree::Pair(left, right) => {
            let left = boxed(alloc, name_sort(alloc, tables, left.get()))?;
            let right = boxed(alloc, name_sort(alloc, tables, right.get()))?;
            Ok(SortTree::Pair(left, right))
        }
        SortTree::Opt(item) => {
            let item = boxed(alloc, name_sort(alloc, tables, item.get()))?;
            Ok(SortTree::Opt(item))
        }
        SortTree::List(item) => {
            let item = boxed(alloc, name_sort(alloc, tables, item.get()))?;
            Ok(SortTree::List(item))
        }
        SortTree::Either(left, right) => {
            let left = boxed(alloc, name_sort(alloc, tables, left.get()))?;
            let right = boxed(alloc, name_sort(alloc, tables, right.get()))?;
            Ok(SortTree::Either(left, right))
        }
        SortTree::Ident(word) => Ok(SortTree::Ident(tables.sort_ref(word))),
    }
}

/// A sort that may be written, with its names looked up.
#[tactic(auto, using(crate::proofs::NameSortLemmas::name_notes))]
pub fn name_note(
    alloc: Global,
    tables: &Tables<'_, '_>,
    note: &Option<SortTree<Word>>,
) -> Result<Option<SortTree<Ref>>, OutOfMemory>
    ensures { IfOk result (λ s. option_map plain_wsort s ≡ note_named (tables_in tables.now) note.now) }
{
    match note {
        None => Ok(None),
        Some(tree) => {
            let tree = name_sort(alloc, tables, tree)?;
            Ok(Some(tree))
        }
    }
}
