ghost use Rattle.std.specs.Prelude.{◌≡◌};
ghost use Rattle.fst_base.specs.Values.{Val};
ghost use Rattle.fst_cells.specs.Trees.{IsCell};

use crate::cell::Cell;
use crate::store::Store;

/// A cell has one tree.
pub fn one_tree(store: &Store, cell: Cell)
    ensures { (v w : Val) → IsCell store.now cell v → IsCell store.now cell w → v ≡ w }
{}
