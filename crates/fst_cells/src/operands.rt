//! The arguments of a primitive.

ghost use Rattle.std.specs.Prelude.{◌≡◌, ◌++◌, [], ◌∷◌, List};
ghost use Rattle.fst_base.specs.Values.{Val};
ghost use Rattle.fst_cells.specs.Trees.{IsCell};
ghost use Rattle.fst_cells.specs.declared.store.Store.{Store as M};

use crate::cell::Cell;

/// The arguments of a primitive: what stands past the second one is of no account.
#[derive(Clone, Copy)]
pub struct Operands {
    pub(crate) first: Option<Cell>,
    pub(crate) second: Option<Cell>,
}

impl Operands {
    ghost use Rattle.fst_cells.specs.Made.{FilledBy, operands_of};

    pub fn none() -> Operands
        ensures { (m : M) → FilledBy m result [] }
    {
        Operands {
            first: None,
            second: None,
        }
    }

    /// With one argument more.
    pub fn with(self, cell: Cell) -> Operands
        ensures { (m : M) (v : Val) (vs : List Val) → FilledBy m self vs → IsCell m cell v → FilledBy m result (vs ++ v ∷ []) }
    {
        if self.first.is_none() {
            return Operands {
                first: Some(cell),
                second: None,
            };
        }
        if self.second.is_none() {
            return Operands {
                first: self.first,
                second: Some(cell),
            };
        }
        self
    }

    pub(crate) fn of(args: &[Cell]) -> Operands
        ensures { result ≡ operands_of args.now }
    {
        match args {
            [] => Operands {
                first: None,
                second: None,
            },
            [first] => Operands {
                first: Some(*first),
                second: None,
            },
            [first, second, ..] => Operands {
                first: Some(*first),
                second: Some(*second),
            },
        }
    }
}
