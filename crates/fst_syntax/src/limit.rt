//! What is counted on the way to a limit.

use fst_base::{Pos, Rule};

/// What stands before a token.
#[derive(Clone, Copy, Debug)]
pub struct Seen {
    /// The brackets that are open.
    pub brackets: usize,
    /// The tokens since the last word that begins a declaration, that word included.
    pub declared: usize,
    /// Whether the last token may end an operand.
    pub operand: bool,
    /// The last token's place, where it is a minus that belongs to the literal behind it.
    pub minus: Option<Pos>,
}

/// The first token with which a limit is passed: its number, the rule and the place.
#[derive(Clone, Copy, Debug)]
pub struct Limit {
    pub index: usize,
    pub rule: Rule,
    pub at: Pos,
}
