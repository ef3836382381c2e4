//! The paths of lifts, as a lattice of effects.

ghost use Rattle.std.specs.Prelude.{◌≡◌};
ghost use Rattle.fst_lattice.specs.Tables.{step_in};

use crate::steps::{Rows, step_in};
use std::marker::Model;

/// The paths of lifts between effects: at most one from one effect to another.
#[derive(Drop)]
pub struct Lattice {
    pub(crate) rows: Rows,
}

impl Model for Lattice {
    ghost use Rattle.std.specs.Prelude.{ℕ, List, Option};

    ghost Value = { List (List (Option ℕ)) };

    ghost view = { λ l. l.rows };
}

impl Lattice {
    /// The first lift of the one path from an effect to another; none exactly where the two are equal or there is no path.
    pub fn step(&self, from: u32, to: u32) -> Option<u32>
        ensures { result ≡ step_in self.now from to }
    {
        step_in(&self.rows, from, to)
    }
}
