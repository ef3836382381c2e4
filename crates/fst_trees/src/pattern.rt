use crate::word::Word;
use fst_base::{Pos, Seq};

/// The constructor of a pattern.
#[derive(Clone, Copy, Debug, PartialEq, Eq)]
pub enum ConWord {
    True,
    False,
    Empty,
    Full,
    Nil,
    Cons,
    Left,
    Right,
    Pair,
}

/// An arm of a match, at its pattern's first token, with the names that the pattern binds.
#[derive(Drop)]
pub struct ArmTree<T> {
    pub at: Pos,
    pub con: ConWord,
    pub names: Seq<Word>,
    pub body: T,
}
