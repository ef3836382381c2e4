use crate::body::BodyTree;
use crate::definition::DmTree;
use crate::form::Form;
use crate::sort::SortTree;
use crate::word::Word;
use fst_base::{Pos, Seq};

/// A parameter; `hidden` marks a ghost one.
#[derive(Drop)]
pub struct ParamTree<R> {
    pub name: Word,
    pub sort: SortTree<R>,
    pub hidden: bool,
    pub refine: Option<Form<R>>,
}

/// The effect of a function.
#[derive(Drop)]
pub enum EffectName<R> {
    Pure,
    Ghost,
    Div,
    User(R),
}

/// What stands before a function's body. `needs`, `gives` and `measures` hold requires, ensures and decreases.
#[derive(Drop)]
pub struct HeadTree<R> {
    pub name: Word,
    pub params: Seq<ParamTree<R>>,
    pub effect: EffectName<R>,
    pub sort: SortTree<R>,
    pub needs: Option<Form<R>>,
    pub gives: Option<Form<R>>,
    pub measures: Seq<Form<R>>,
    pub unfold: u8,
}

/// A function; `joined` marks one that belongs to the group of the function before it.
#[derive(Drop)]
pub struct FunTree<R> {
    pub head: HeadTree<R>,
    pub joined: bool,
    pub body: BodyTree<R>,
}

/// An effect; `div` tells that its base is DIV.
#[derive(Drop)]
pub struct EffectTree<R> {
    pub name: Word,
    pub div: bool,
    pub input: SortTree<R>,
    pub result: SortTree<R>,
    pub ret_names: Seq<Word>,
    pub ret: DmTree<R>,
    pub bind_names: Seq<Word>,
    pub bind: DmTree<R>,
}

/// A lift, at the word `lift`.
#[derive(Drop)]
pub struct LiftTree<R> {
    pub at: Pos,
    pub from: R,
    pub to: R,
    pub names: Seq<Word>,
    pub text: DmTree<R>,
}

/// A declaration; `R` stands for each use of a name.
#[derive(Drop)]
pub enum Decl<R> {
    Effect(EffectTree<R>),
    Lift(LiftTree<R>),
    Fun(FunTree<R>),
}

pub type RawDecl = Decl<Word>;

pub type RawTerm = Form<Word>;

/// A program as it is written.
#[derive(Drop)]
pub struct RawProgram {
    pub decls: Seq<RawDecl>,
}
