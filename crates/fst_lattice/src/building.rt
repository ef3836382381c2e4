//! The lattice of lifts that break no rule.

ghost use Rattle.std.specs.Prelude.{◌≡◌, ◌⊎◌, true, false, length, map, IfOk, IfErr, Ok, Err, MatchOption};
ghost use Rattle.fst_base.specs.declared.place.Pos.{Pos};
ghost use Rattle.fst_base.specs.declared.rule.Rule.{Rule};
ghost use Rattle.fst_base.specs.declared.rule.Rule.TheVariants as rule;
ghost use Rattle.fst_base.specs.declared.rule.Fault.TheVariants as fault;
ghost use Rattle.fst_program.specs.Plain.{plain_effect, plain_lift};
ghost use Rattle.fst_lattice.specs.Lattices.{AreWithin, IsLattice, IsRefused, Lowers};
ghost use Rattle.fst_lattice.specs.Tables.{second_path, step_in};

use crate::paths::Lattice;
use crate::rules::{lowers, makes_second_path};
use crate::steps::{Rows, empty_rows, next_rows};
use fst_base::{Fault, OutOfMemory, Pos, Rule, Seq};
use fst_program::{EffectDef, LiftDef};
use std::alloc::Global;

/// The lattice of these lifts between these effects, each lift declared at its place. Refused is the first lift that goes from base
/// DIV to base PURE or makes a second path between two effects.
pub fn lattice(
    alloc: Global,
    lifts: &Seq<LiftDef>,
    effects: &Seq<EffectDef>,
    places: &Seq<Pos>,
) -> Result<Lattice, Fault>
    requires places { length places.now ≡ length lifts.now }
    requires within { AreWithin (length effects.now) (map plain_lift lifts.now) }
    ensures ok { IfOk result (λ l. IsLattice (map plain_effect effects.now) (map plain_lift lifts.now) (step_in l)) }
    ensures refused { (broken : Rule) (at : Pos) → result ≡ Err (fault.Refused broken at)
        → IsRefused (map plain_effect effects.now) (map plain_lift lifts.now) places.now broken at }
{
    let Ok(count) = u32::try_from(effects.len()) else {
        return Err(Fault::NoMemory);
    };
    let mut rows = or_no_memory(empty_rows(alloc, count))?;
    for number in 0..lifts.len() {
        let lift = &lifts.as_slice()[number];
        if let Some(rule) = broken_by(&rows, effects.as_slice(), lift, count) {
            return Err(Fault::Refused(rule, places.as_slice()[number]));
        }
        let Ok(index) = u32::try_from(number) else {
            return Err(Fault::NoMemory);
        };
        rows = or_no_memory(next_rows(alloc, &rows, index, lift, count))?;
    }
    Ok(Lattice { rows })
}

fn or_no_memory(rows: Result<Rows, OutOfMemory>) -> Result<Rows, Fault>
    ensures ok { IfOk result (λ made. rows ≡ Ok made) }
    ensures err { IfErr result (λ f. f ≡ fault.NoMemory) }
{
    match rows {
        Ok(rows) => Ok(rows),
        Err(OutOfMemory) => Err(Fault::NoMemory),
    }
}

/// The rule that the lift breaks, that on bases before that on paths.
fn broken_by(rows: &Rows, effects: &[EffectDef], lift: &LiftDef, count: u32) -> Option<Rule>
    ensures { MatchOption result
        ((Lowers (map plain_effect effects.now) (plain_lift lift.now) → ⊥) × (second_path rows.now lift.now.from lift.now.to count ≡ false))
        (λ broken. ((broken ≡ rule.NoLift) × Lowers (map plain_effect effects.now) (plain_lift lift.now))
        ⊎ ((broken ≡ rule.TwoPaths) × (Lowers (map plain_effect effects.now) (plain_lift lift.now) → ⊥) × (second_path rows.now lift.now.from lift.now.to count ≡ true))) }
{
    if lowers(effects, lift) {
        return Some(Rule::NoLift);
    }
    if makes_second_path(rows, lift, count) {
        return Some(Rule::TwoPaths);
    }
    None
}
