//! Comparisons of values by their parts.

ghost use Rattle.std.specs.Prelude.{◌≡◌, ◌<◌, ℕ, if◌then◌else◌, IfSome};
ghost use Rattle.fst_base.specs.Values.{Val, same};
ghost use Rattle.fst_cells.specs.Made.{RestIs};
ghost use Rattle.fst_cells.specs.Trees.{NodeIs};
ghost use Rattle.fst_cells.specs.declared.store.Store.{Store as M};

use crate::cell::{Cell, Node};

/// What is left of the comparison of two values.
pub(crate) enum Compared {
    Same,
    Other,
    /// These two parts.
    Parts(Cell, Cell),
    /// The first two parts, and the other two.
    TwoParts(Cell, Cell, Cell, Cell),
}

impl Node {
    ghost use Rattle.fst_cells.specs.Compares.{ComparedIs, ComparedBelow};
    ghost use Rattle.fst_cells.specs.Trees.{IsBelow};

    pub(crate) fn rest(self) -> Option<Cell>
        ensures rest { (m : M) (v : Val) → NodeIs m self v → RestIs m result v }
        ensures below { (at : ℕ) → IsBelow at self → IfSome result (λ c. c.at < at) }
    {
        match self {
            Node::Cons(_, rest) => Some(rest),
            _ => None,
        }
    }

    pub(crate) fn compare(self, other: Node) -> Compared
        ensures is { (m : M) (v w : Val) → NodeIs m self v → NodeIs m other w → ComparedIs m result (same v w) }
        ensures below { (at : ℕ) → IsBelow at self → ComparedBelow at result }
    {
        match self {
            Node::Unit => Compared::whether(matches!(other, Node::Unit)),
            Node::Bool(a) => match other {
                Node::Bool(b) => Compared::whether(a == b),
                _ => Compared::Other,
            },
            Node::Int(a) => match other {
                Node::Int(b) => Compared::whether(a == b),
                _ => Compared::Other,
            },
            Node::Pair(a, b) => match other {
                Node::Pair(c, d) => Compared::TwoParts(a, c, b, d),
                _ => Compared::Other,
            },
            Node::Nothing => Compared::whether(matches!(other, Node::Nothing)),
            Node::Just(a) => match other {
                Node::Just(b) => Compared::Parts(a, b),
                _ => Compared::Other,
            },
            Node::Nil => Compared::whether(matches!(other, Node::Nil)),
            Node::Cons(a, b) => match other {
                Node::Cons(c, d) => Compared::TwoParts(a, c, b, d),
                _ => Compared::Other,
            },
            Node::Left(a) => match other {
                Node::Left(b) => Compared::Parts(a, b),
                _ => Compared::Other,
            },
            Node::Right(a) => match other {
                Node::Right(b) => Compared::Parts(a, b),
                _ => Compared::Other,
            },
        }
    }
}

impl Compared {
    ghost use Rattle.fst_cells.specs.declared.compare.Compared.TheVariants as compared;

    fn whether(same: bool) -> Compared
        ensures { result ≡ (if same then compared.Same else compared.Other) }
    {
        if same {
            Compared::Same
        } else {
            Compared::Other
        }
    }
}
