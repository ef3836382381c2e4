use crate::line::Line;
use fst_base::Seq;

/// The lines of a goal's proof; `first` is the number of the first one in the text, counted from 1.
#[derive(Debug, Drop)]
pub struct Proof {
    pub first: u32,
    pub lines: Seq<Line>,
}

/// The proofs of a program's goals, in the order of the goals, in format 1 or 2.
#[derive(Debug, Drop)]
pub struct Cert {
    pub version: u32,
    pub proofs: Seq<Proof>,
}
