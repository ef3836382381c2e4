use crate::mark::Mark;
use crate::word::Word;

/// What a token is.
#[derive(Clone, Copy, Debug, PartialEq, Eq)]
pub enum Kind {
    /// A word that is reserved, or held for a later version.
    Word(Word),
    /// Any other identifier, `_` among them.
    Ident,
    /// Decimal digits.
    Number,
    /// A mark.
    Mark(Mark),
}

/// A token: the bytes of the text at the offsets from `from` up to `to`.
#[derive(Clone, Copy, Debug, PartialEq, Eq)]
pub struct Token {
    pub kind: Kind,
    pub from: u32,
    pub to: u32,
}
