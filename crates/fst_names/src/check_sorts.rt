ghost use Rattle.std.specs.Prelude.{◌≡◌};
ghost use Rattle.fst_names.specs.Checks.{sort_breaks, note_breaks};
ghost use Rattle.fst_names.specs.Looked.{tables_in};
ghost use Rattle.fst_names.specs.Names.{is_some, variable_kind};

use crate::broken::{Broken, least, unless};
use crate::tables::Tables;
use fst_base::Rule;
use fst_trees::{SortTree, Word};

/// What a sort breaks.
#[tactic(auto, using(crate::proofs::CheckSortLemmas::sorts))]
pub fn check_sort(tables: &Tables<'_, '_>, tree: &SortTree<Word>) -> Option<Broken>
    ensures { result ≡ sort_breaks (tables_in tables.now) tree.now }
{
    match tree {
        SortTree::Unit => None,
        SortTree::Bool => None,
        SortTree::Int => None,
        SortTree::Pair(left, right) => least(
            check_sort(tables, left.get()),
            check_sort(tables, right.get()),
        ),
        SortTree::Opt(item) => check_sort(tables, item.get()),
        SortTree::List(item) => check_sort(tables, item.get()),
        SortTree::Either(left, right) => least(
            check_sort(tables, left.get()),
            check_sort(tables, right.get()),
        ),
        SortTree::Ident(word) => unless(is_variable(tables, word), Rule::Unknown, word.at),
    }
}

/// Whether the word is a sort variable here.
fn is_variable(tables: &Tables<'_, '_>, word: &Word) -> bool
    ensures { result ≡ is_some (variable_kind (tables_in tables.now) word.now.text) }
{
    tables.has_variables() && (word.text.text() == "a" || word.text.text() == "b")
}

/// What an annotation breaks, where there is one.
#[tactic(auto, using(crate::proofs::CheckSortLemmas::notes))]
pub fn check_note(tables: &Tables<'_, '_>, note: &Option<SortTree<Word>>) -> Option<Broken>
    ensures { result ≡ note_breaks (tables_in tables.now) note.now }
{
    match note {
        None => None,
        Some(tree) => check_sort(tables, tree),
    }
}
