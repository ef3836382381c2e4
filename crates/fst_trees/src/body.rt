use crate::form::Form;
use crate::pattern::ArmTree;
use crate::sort::SortTree;
use crate::word::Word;
use fst_base::{Box, Pos, Seq};

/// The body of a function. The place in `Match` is that of the word.
#[cycle(body)]
#[derive(Drop)]
pub enum BodyTree<R> {
    Let(Word, Option<SortTree<R>>, PartTree<R>, Box<BodyTree<R>>),
    GhostLet(Word, Option<SortTree<R>>, PartTree<R>, Box<BodyTree<R>>),
    Assert(Form<R>, Pos, Box<BodyTree<R>>),
    If(Form<R>, Box<BodyTree<R>>, Box<BodyTree<R>>),
    Match(Form<R>, Pos, Seq<ArmTree<BodyTree<R>>>),
    Part(PartTree<R>),
}

/// A part of a body, at its first token.
#[cycle(body)]
#[derive(Drop)]
pub struct PartTree<R> {
    pub at: Pos,
    pub node: PartNode<R>,
}

/// What a part is: a block, a call, `reify` with a sort, a body and an input, `reflect` with a sort, the input's name and
/// a body, or a term.
#[cycle(body)]
#[derive(Drop)]
pub enum PartNode<R> {
    Block(Box<BodyTree<R>>),
    Call(R, Seq<Form<R>>),
    Reify(R, SortTree<R>, Box<BodyTree<R>>, Form<R>),
    Reflect(R, SortTree<R>, Word, Box<BodyTree<R>>),
    Term(Form<R>),
}
