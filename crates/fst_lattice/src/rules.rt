//! The rules on lifts.

ghost use Rattle.std.specs.Prelude.{◌≡◌, ◌&&◌, ◌↔◌, IsTrue, map};
ghost use Rattle.fst_program.specs.Plain.{plain_effect, plain_lift};
ghost use Rattle.fst_lattice.specs.Lattices.{HasBase, Lowers};
ghost use Rattle.fst_lattice.specs.Tables.{reaches, some_below, second_path};

use crate::steps::{Rows, reaches};
use fst_program::{Effect, EffectDef, LiftDef};

/// Whether the effect of this number has this base.
fn has_base(effects: &[EffectDef], number: u32, base: Effect) -> bool
    ensures { IsTrue result ↔ HasBase (map plain_effect effects.now) number base }
{
    match effects.get(number as usize) {
        Some(effect) => effect.base == base,
        None => false,
    }
}

/// Whether the lift goes from base DIV to base PURE.
pub fn lowers(effects: &[EffectDef], lift: &LiftDef) -> bool
    ensures { IsTrue result ↔ Lowers (map plain_effect effects.now) (plain_lift lift.now) }
{
    has_base(effects, lift.from, Effect::Div) && has_base(effects, lift.to, Effect::Pure)
}

/// Whether `lower`, which leads to where the lift begins, leads already to an effect to which the lift's end leads.
fn is_joined(rows: &Rows, lift: &LiftDef, lower: u32, count: u32) -> bool
    ensures { result ≡ some_below count (λ E. reaches rows.now lift.now.to E && reaches rows.now lower E) }
{
    for upper in 0..count {
        if reaches(rows, lift.to, upper) && reaches(rows, lower, upper) {
            return true;
        }
    }
    false
}

/// Whether the lift makes a second path from one effect to another.
pub fn makes_second_path(rows: &Rows, lift: &LiftDef, count: u32) -> bool
    ensures { result ≡ second_path rows.now lift.now.from lift.now.to count }
{
    for lower in 0..count {
        if reaches(rows, lower, lift.from) && is_joined(rows, lift, lower, count) {
            return true;
        }
    }
    false
}
