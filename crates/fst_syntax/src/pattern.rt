use fst_base::{Pos, Seq};
use fst_trees::{ConWord, Word};

/// A pattern, at its first token.
#[derive(Drop)]
pub struct Pattern {
    pub at: Pos,
    pub con: ConWord,
    pub names: Seq<Word>,
}
