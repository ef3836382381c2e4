//! What stands at a way's beginning and at its end.

use fst_base::{Box, OutOfMemory, Seq, Sort};
use fst_program::{Comp, Con, DmTerm, Program};
use fst_terms::{Term, Var};

/// A constructor with the terms of its parts, and the hypotheses of the way that takes it.
#[derive(Drop)]
pub struct Taken {
    pub con: Con,
    pub parts: Seq<Term>,
    pub hyps: Seq<Term>,
}

/// The end of a way: its hypotheses in order, and its result.
#[derive(Drop)]
pub struct End {
    pub hyps: Seq<Term>,
    pub result: Box<Term>,
}

/// Where the walk of core text stands: the program, the sorts of the sequent's variables, the terms for the text's
/// variables, the input, and the hypotheses.
#[derive(Drop)]
pub struct At<'a> {
    pub program: &'a Program,
    pub sorts: &'a [Sort],
    pub scope: &'a [Term],
    pub input: &'a Term,
    pub hyps: &'a [Term],
}

/// The computations that definition text runs, with the terms for their variables, the second one under one variable
/// more; and the sorts for the sort variables.
#[derive(Drop)]
pub struct Header<'a> {
    pub first: Option<&'a Comp>,
    pub second: Option<&'a Comp>,
    pub scope: Seq<Term>,
    pub a: Box<Sort>,
    pub b: Box<Sort>,
}

/// A text to walk: core text on an input, definition text with its header, or none, which ends in the unit value.
#[derive(Drop)]
pub enum Text<'a> {
    Core(&'a Comp, Box<Term>),
    Definition(&'a DmTerm, Header<'a>),
    Nothing,
}

/// A text, the terms for its variables, and the hypotheses of its way.
#[derive(Drop)]
pub struct Next<'a> {
    pub text: Text<'a>,
    pub scope: Seq<Term>,
    pub hyps: Seq<Term>,
}

/// A text to walk from each end of another: that one's result stands for the variable between these.
#[derive(Drop)]
pub struct Rest<'a> {
    pub text: Text<'a>,
    pub below: Seq<Term>,
    pub above: Seq<Term>,
}

/// What a text comes to: ends, other texts, or a text and what follows it.
#[derive(Drop)]
pub enum Turn<'a> {
    Ends(Seq<End>),
    Ways(Seq<Next<'a>>),
    Then(Next<'a>, Rest<'a>),
}

/// A turn, where there is memory for it.
pub type Turned<'a> = Result<Turn<'a>, OutOfMemory>;

/// Which facts of applications: their postconditions, or what they unfold to over these variables.
#[derive(Drop)]
pub enum Which<'a> {
    Postconditions,
    Unfoldings(&'a [Var]),
}
