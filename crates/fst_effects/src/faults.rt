//! The rules that a term breaks by itself.

ghost use Rattle.std.specs.Prelude.{◌≡◌};
ghost use Rattle.fst_effects.specs.Scopes.{callee_at, entry_at, sort_at};
ghost use Rattle.fst_effects.specs.TermSorts.{is_pure_or_ghost};
ghost use Rattle.fst_effects.specs.TermChecks.{clash_of, misused_of, need_of, not_applied_of, other_of};

use crate::callee::Callee;
use crate::scope::Entry;
use crate::sorts::is_same;
use fst_base::{Pos, Rule, Sort};
use fst_names::{Broken, unless};
use fst_program::Effect;

/// A sort that is given where another is wanted.
#[tactic(auto, using(crate::proofs::FaultLemmas::faults))]
pub fn clash(at: Pos, given: Option<&Sort>, want: Option<&Sort>) -> Option<Broken>
    ensures { result ≡ clash_of at (sort_at given.entry) (sort_at want.entry) }
{
    match (given, want) {
        (Some(given), Some(want)) => unless(is_same(given, want), Rule::SortClash, at),
        (Some(_), None) => None,
        (None, _) => None,
    }
}

/// No sort is given where one is needed.
#[tactic(auto, using(crate::proofs::FaultLemmas::faults))]
pub fn need(at: Pos, given: Option<&Sort>) -> Option<Broken>
    ensures { result ≡ need_of at (sort_at given.entry) }
{
    match given {
        Some(_) => None,
        None => unless(false, Rule::SortClash, at),
    }
}

/// A sort of another constructor is wanted than the one of which this is a part.
pub fn other(at: Pos, want: Option<&Sort>, part: Option<&Sort>) -> Option<Broken>
    ensures { result ≡ other_of at (sort_at want.entry) (sort_at part.entry) }
{
    match want {
        Some(_) => need(at, part),
        None => None,
    }
}

/// A ghost variable stands outside of ghost places.
#[tactic(auto, using(crate::proofs::FaultLemmas::faults))]
pub fn misused(ghost_place: bool, at: Pos, variable: Option<&Entry>) -> Option<Broken>
    ensures { result ≡ misused_of ghost_place at (entry_at variable.entry) }
{
    match variable {
        Some(variable) => unless(!variable.hidden || ghost_place, Rule::GhostUse, at),
        None => None,
    }
}

/// Whether the effect is PURE or GHOST.
fn is_pure_or_ghost(effect: Effect) -> bool
    ensures { result ≡ is_pure_or_ghost effect }
{
    match effect {
        Effect::Pure => true,
        Effect::Ghost => true,
        Effect::Div => false,
        Effect::User(_) => false,
    }
}

/// A formula names a function that is neither PURE nor GHOST.
#[tactic(auto, using(crate::proofs::FaultLemmas::faults))]
pub fn not_applied(at: Pos, function: Option<&Callee>) -> Option<Broken>
    ensures { result ≡ not_applied_of at (callee_at function.entry) }
{
    match function {
        Some(function) => unless(is_pure_or_ghost(function.effect), Rule::NoLift, at),
        None => None,
    }
}
