ghost use Rattle.std.specs.Prelude.{◌≡◌, IfOk};

use fst_base::{OutOfMemory, Seq};
use fst_terms::Mark;
use std::alloc::Global;

/// A line of a proof, with the numbers of the certificate format in their order. Atoms, formulas and terms are numbered from 1 as in
/// the flat form; equations and rows from 1 within their `Close`; shares from 1 within their proof.
#[derive(Debug, Drop)]
pub enum Line {
    /// An atom without a mark: a proof with it true, then one with it false.
    Split(u32),
    /// An equation of ints that is false and not ordered: a proof with less, then one with greater.
    Order(u32),
    /// A formula that is false under the marks.
    Hyp(u32),
    /// The goal is true under the marks.
    Done,
    /// So many equation lines, so many row lines, and a verdict line.
    Close(u32, u32),
    /// The equation of a marked atom.
    Given(u32),
    /// An equation turned round.
    Flip(u32),
    /// Two equations in a row.
    Chain(u32, u32),
    /// Two terms of one head and one sort, with the number of an equation for each argument, 0 where the arguments are the same.
    Same(u32, u32, Seq<u32>),
    /// Of an equation of two terms with one constructor the equation of a part, counted from 1.
    Part(u32, u32),
    /// A term equals the pair of its components.
    Eta(u32),
    /// A term of sort unit equals `()`.
    Unit(u32),
    /// A row, 1 or 2, of a marked atom.
    Atom(u32, u32),
    /// A row, 1 or 2, of an equation of ints.
    Equal(u32, u32),
    /// The tightened sum of two rows, each after its multiplier.
    Add(i128, u32, i128, u32),
    /// The sides of an equation have different constructors.
    Differ(u32),
    /// An equation that is false, and the equation that joins its sides.
    Unequal(u32, u32),
    /// A row without unknowns and with a negative constant.
    Below(u32),
    /// The number of shares of the proof.
    Shared(u32),
    /// A share's number, and the number of its marks.
    Share(u32, u32),
    /// A mark of a share.
    Marked(u32, Mark),
    /// A share that is used.
    Use(u32),
}

impl Line {
    /// An equal line.
    pub fn copy(&self, alloc: Global) -> Result<Line, OutOfMemory>
        ensures { IfOk result (λ line. line ≡ self.now) }
    {
        Ok(match self {
            Line::Split(atom) => Line::Split(*atom),
            Line::Order(atom) => Line::Order(*atom),
            Line::Hyp(formula) => Line::Hyp(*formula),
            Line::Done => Line::Done,
            Line::Close(equations, rows) => Line::Close(*equations, *rows),
            Line::Given(atom) => Line::Given(*atom),
            Line::Flip(line) => Line::Flip(*line),
            Line::Chain(first, second) => Line::Chain(*first, *second),
            Line::Same(left, right, lines) => {
                Line::Same(*left, *right, Seq::from_slice(alloc, lines.as_slice())?)
            }
            Line::Part(line, place) => Line::Part(*line, *place),
            Line::Eta(term) => Line::Eta(*term),
            Line::Unit(term) => Line::Unit(*term),
            Line::Atom(atom, row) => Line::Atom(*atom, *row),
            Line::Equal(line, row) => Line::Equal(*line, *row),
            Line::Add(p, i, q, j) => Line::Add(*p, *i, *q, *j),
            Line::Differ(line) => Line::Differ(*line),
            Line::Unequal(atom, line) => Line::Unequal(*atom, *line),
            Line::Below(row) => Line::Below(*row),
            Line::Shared(shares) => Line::Shared(*shares),
            Line::Share(share, marks) => Line::Share(*share, *marks),
            Line::Marked(atom, mark) => Line::Marked(*atom, *mark),
            Line::Use(share) => Line::Use(*share),
        })
    }
}
