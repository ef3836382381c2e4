use fst_trees::{SortTree, Word};

/// What stands between the word `let` and the rest: a name, its sort and what it is bound to.
#[derive(Drop)]
pub struct Binding<A> {
    pub name: Word,
    pub sort: Option<SortTree<Word>>,
    pub part: A,
}
