ghost use Rattle.std.specs.Prelude.{IsTrue};
ghost use Rattle.fst_prims.specs.Table.{all_ops, are_rows};

use fst_base::Op;

/// The sort of an argument or of a result, over two sorts A and B.
#[derive(Clone, Copy, Debug, PartialEq, Eq)]
pub enum Shape {
    Unit,
    Bool,
    Int,
    A,
    B,
    PairAB,
    OptA,
    ListA,
    EitherAB,
}

/// A row of the table: a primitive's name, and the sorts of its arguments and of its result.
#[derive(Clone, Copy, Debug)]
pub struct Row {
    pub name: &'static str,
    pub args: &'static [Shape],
    pub result: Shape,
}

/// A table of primitives, whose rows are those of the definition in order.
#[derive(Clone, Copy)]
pub struct Prims<const N: usize> {
    rows: [Row; N],
    ghost stated: { IsTrue (are_rows all_ops rows) },
}

macro_rules! row {
    ($name:literal, [$($arg:ident),*], $result:ident) => {
        Row {
            name: $name,
            args: &[$(Shape::$arg),*],
            result: Shape::$result,
        }
    };
}

/// The table of the 24 primitives.
pub const PRIMS: Prims<24> = Prims {
    rows: [
        row!("add", [Int, Int], Int),
        row!("sub", [Int, Int], Int),
        row!("mul", [Int, Int], Int),
        row!("div", [Int, Int], Int),
        row!("rem", [Int, Int], Int),
        row!("neg", [Int], Int),
        row!("le", [Int, Int], Bool),
        row!("lt", [Int, Int], Bool),
        row!("eq", [A, A], Bool),
        row!("pair", [A, B], PairAB),
        row!("fst", [PairAB], A),
        row!("snd", [PairAB], B),
        row!("none", [], OptA),
        row!("some", [A], OptA),
        row!("nil", [], ListA),
        row!("cons", [A, ListA], ListA),
        row!("inl", [A], EitherAB),
        row!("inr", [B], EitherAB),
        row!("len", [ListA], Int),
        row!("hd", [ListA], A),
        row!("tl", [ListA], ListA),
        row!("the", [OptA], A),
        row!("outl", [EitherAB], A),
        row!("outr", [EitherAB], B),
    ],
};

impl Prims<24> {
    ghost use Rattle.fst_prims.specs.Table.{IsRow};

    /// The row of a primitive.
    pub fn row(&self, op: Op) -> &Row
        ensures { IsRow op result.now }
    {
        &self.rows[op as usize]
    }
}

/// The table. A use of the constant has to show anew that its rows are those of the definition;
/// here that is shown once.
pub fn table_of_prims() -> Prims<24> {
    PRIMS
}
