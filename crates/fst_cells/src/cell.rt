ghost use Rattle.std.specs.Prelude.{◌≡◌, ◌↔◌, IsTrue};

/// The number of a value of a store.
#[derive(Clone, Copy, Debug)]
pub struct Cell {
    pub(crate) at: usize,
}

/// The outermost constructor of a value, with cells for its parts.
#[derive(Clone, Copy, Debug)]
pub enum Node {
    Unit,
    Bool(bool),
    Int(i128),
    Pair(Cell, Cell),
    Nothing,
    Just(Cell),
    Nil,
    Cons(Cell, Cell),
    Left(Cell),
    Right(Cell),
}

impl Node {
    ghost use Rattle.fst_cells.specs.Trees.{IsBelow};

    /// Whether the parts stand before this place.
    pub(crate) fn is_below(self, at: usize) -> bool
        ensures { IsTrue result ↔ IsBelow at self }
    {
        match self {
            Node::Pair(first, second) => first.at < at && second.at < at,
            Node::Cons(first, rest) => first.at < at && rest.at < at,
            Node::Just(part) => part.at < at,
            Node::Left(part) => part.at < at,
            Node::Right(part) => part.at < at,
            Node::Unit => true,
            Node::Bool(_) => true,
            Node::Int(_) => true,
            Node::Nothing => true,
            Node::Nil => true,
        }
    }
}
