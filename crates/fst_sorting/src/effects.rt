//! Effects of parts: their sorts, their paths, and what a part of an effect breaks at a place.

ghost use Rattle.std.specs.Prelude.{◌≡◌, Some, IfOk, option_map};
ghost use Rattle.fst_base.specs.Sorts.{plain_sort};
ghost use Rattle.fst_effects.specs.Known as N;
ghost use Rattle.fst_effects.specs.Scopes.{callee_at, known_sort, sort_at};
ghost use Rattle.fst_effects.specs.TextSorts as T;
ghost use Rattle.fst_program.specs.declared.effect.Effect.TheVariants as variant;
ghost use Rattle.fst_sorting.specs.Sites.{effect_at, effects_in, entry_in, known_at, path_in, refused_of};

use crate::known::{Known, Paths};
use crate::putting::put_value;
use fst_base::{Pos, Rule, Seq, Sort};
use fst_effects::{Callee, KnownSort};
use fst_names::{Broken, unless};
use fst_program::{Effect, EffectDef};
use std::alloc::Global;

/// The effect of this number.
pub fn effect_at(effects: &[EffectDef], number: u32) -> Option<&EffectDef>
    ensures { effect_at result ≡ effects_in effects.now number }
{
    effects.get(number as usize)
}

/// The base of the effect; PURE where there is none.
pub fn base_of(effect: Option<&EffectDef>) -> Effect
    ensures { result ≡ T.base_of (effect_at effect.entry) }
{
    match effect {
        Some(effect) => effect.base,
        None => Effect::Pure,
    }
}

/// The sort of the effect's input.
pub fn input_sort(effect: Option<&EffectDef>) -> Option<&Sort>
    ensures { sort_at result ≡ T.input_sort (effect_at effect.entry) }
{
    match effect {
        Some(effect) => Some(&effect.input),
        None => None,
    }
}

/// The sort of the effect's results, where values have this sort.
pub fn result_sort(alloc: Global, effect: Option<&EffectDef>, value: &Sort) -> KnownSort
    ensures { IfOk result (λ s. known_sort s ≡ T.result_sort (effect_at effect.entry) (plain_sort value.now)) }
{
    match effect {
        Some(effect) => Ok(Some(put_value(alloc, &effect.result, value)?)),
        None => Ok(None),
    }
}

/// The effect of a function.
pub fn callee_effect(function: Option<&Callee>) -> Effect
    ensures { result ≡ T.callee_effect (callee_at function.entry) }
{
    match function {
        Some(function) => function.effect,
        None => Effect::Pure,
    }
}

/// An entry of a row of paths.
fn entry_in(row: &Seq<Option<Seq<u32>>>, to: u32) -> Option<&[u32]>
    ensures { option_map (λ p. p.now) result ≡ entry_in (Some row.now) to }
{
    match row.get(to as usize) {
        Some(Some(path)) => Some(path.as_slice()),
        Some(None) => None,
        None => None,
    }
}

/// The path of lifts from an effect to another.
pub fn path_of(paths: &Paths, from: u32, to: u32) -> Option<&[u32]>
    ensures { option_map (λ p. p.now) result ≡ path_in paths.now from to }
{
    if from == to {
        return Some(&[]);
    }
    match paths.get(from as usize) {
        Some(row) => entry_in(row, to),
        None => None,
    }
}

/// Whether the base of the effect is DIV.
fn base_is_div(effect: Option<&EffectDef>) -> bool
    ensures { result ≡ N.base_is_div (effect_at effect.entry) }
{
    match effect {
        Some(effect) => matches!(effect.base, Effect::Div),
        None => false,
    }
}

/// What a DIV part breaks at a place.
#[tactic(auto, using(crate::proofs::RefusalLemmas::refusals))]
fn refuse_div(known: Known<'_>, place: Effect, at: Pos) -> Option<Broken>
    ensures { result ≡ refused_of (known_at known.entry) place variant.Div at }
{
    match place {
        Effect::Pure => unless(false, Rule::NoLift, at),
        Effect::Ghost => unless(false, Rule::NoLift, at),
        Effect::Div => None,
        Effect::User(number) => {
            let is_div = base_is_div(effect_at(known.effects, number));
            unless(is_div, Rule::NoLift, at)
        }
    }
}

/// What a part of a user effect breaks at a place.
#[tactic(auto, using(crate::proofs::RefusalLemmas::refusals))]
fn refuse_user(known: Known<'_>, place: Effect, part: u32, at: Pos) -> Option<Broken>
    ensures { result ≡ refused_of (known_at known.entry) place (variant.User part) at }
{
    match place {
        Effect::Pure => unless(false, Rule::NoLift, at),
        Effect::Ghost => unless(false, Rule::NoLift, at),
        Effect::Div => unless(false, Rule::NoLift, at),
        Effect::User(number) => {
            let is_path = is_path(path_of(known.paths, part, number));
            unless(is_path, Rule::NoLift, at)
        }
    }
}

/// What a GHOST part breaks at a place.
#[tactic(auto, using(crate::proofs::RefusalLemmas::refusals))]
fn refuse_ghost(known: Known<'_>, place: Effect, at: Pos) -> Option<Broken>
    ensures { result ≡ refused_of (known_at known.entry) place variant.Ghost at }
{
    match place {
        Effect::Ghost => None,
        Effect::Pure => unless(false, Rule::GhostUse, at),
        Effect::Div => unless(false, Rule::GhostUse, at),
        Effect::User(_) => unless(false, Rule::GhostUse, at),
    }
}

/// What a part of an effect breaks at a place of another.
#[tactic(auto, using(crate::proofs::RefusalLemmas::refusals))]
pub fn refused(known: Known<'_>, place: Effect, part: Effect, at: Pos) -> Option<Broken>
    ensures { result ≡ refused_of (known_at known.entry) place part at }
{
    match part {
        Effect::Pure => None,
        Effect::Ghost => refuse_ghost(known, place, at),
        Effect::Div => refuse_div(known, place, at),
        Effect::User(number) => refuse_user(known, place, number, at),
    }
}

/// Whether there is a path.
fn is_path(path: Option<&[u32]>) -> bool
    ensures { result ≡ N.is_path (option_map (λ p. p.now) path.entry) }
{
    match path {
        Some(_) => true,
        None => false,
    }
}
