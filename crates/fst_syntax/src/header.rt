//! Fronts of declarations.

use fst_base::Seq;
use fst_trees::{DmTree, EffectName, Form, SortTree, Word};

/// The effect of a function and the sort of its result.
#[derive(Drop)]
pub struct Computation {
    pub effect: EffectName<Word>,
    pub sort: SortTree<Word>,
}

/// What stands between a function's computation and its body.
#[derive(Drop)]
pub struct Contract {
    pub needs: Option<Form<Word>>,
    pub gives: Option<Form<Word>>,
    pub measures: Seq<Form<Word>>,
    pub unfold: u8,
}

/// An effect up to its sorts.
#[derive(Drop)]
pub struct Signature {
    pub name: Word,
    pub div: bool,
    pub input: SortTree<Word>,
    pub result: SortTree<Word>,
}

/// A text over the names that it binds.
#[derive(Drop)]
pub struct Abstraction {
    pub names: Seq<Word>,
    pub text: DmTree<Word>,
}
