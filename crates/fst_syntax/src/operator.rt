ghost use Rattle.std.specs.Prelude.{◌≡◌};
ghost use Rattle.fst_syntax.specs.Separators.{separator};

use crate::terminal::Terminal;
use fst_base::{Op, Pos};

/// An operator at its place.
#[derive(Clone, Copy, Debug)]
pub struct Operator {
    pub op: Op,
    pub at: Pos,
}

#[derive(Clone, Copy, Debug, PartialEq, Eq)]
pub enum Relation {
    Equal,
    NotEqual,
    LessEqual,
    Less,
    GreaterEqual,
    Greater,
}

/// A comparison at its place.
#[derive(Clone, Copy, Debug)]
pub struct Comparison {
    pub relation: Relation,
    pub at: Pos,
}

/// A number at its place; a magnitude past 2^127 stands at 2^127 + 1.
#[derive(Clone, Copy, Debug)]
pub struct Digits {
    pub at: Pos,
    pub magnitude: u128,
}

/// The mark between the terms of a list.
#[derive(Clone, Copy, Debug)]
pub enum Separator {
    Comma,
    Semicolon,
}

impl Separator {
    pub fn terminal(self) -> Terminal
        ensures { result ≡ separator self }
    {
        match self {
            Separator::Comma => Terminal::Comma,
            Separator::Semicolon => Terminal::Semicolon,
        }
    }
}
