use crate::known::Known;
use fst_base::Seq;
use fst_cert::{Line, Proof};
use fst_terms::Branch;

/// What is known of a flat form: a proof, or the first branch that isn't refuted.
#[derive(Debug, Drop)]
pub enum Verdict {
    Proved(Proof),
    Open(Branch),
    TooWide(Branch),
}

/// What is known of a branch in which every atom is marked: the marks that a refutation uses and its lines, or why there is none.
#[derive(Debug, Drop)]
pub enum Leaf {
    Refuted(Seq<Known>, Seq<Line>),
    Open,
    TooWide,
}
