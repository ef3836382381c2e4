//! Functions as texts call them and as formulas apply them.

ghost use Rattle.std.specs.Prelude.{◌≡◌, map, IfOk};
ghost use Rattle.fst_base.specs.Sorts.{plain_sort};
ghost use Rattle.fst_effects.specs.Scopes.{callee_of, entry_of};
ghost use Rattle.fst_sorting.specs.Functions.{effect_of};
ghost use Rattle.fst_sorting.specs.Listed.{applied_of, called_of, entries_of, entry_of_param, head_results, own_effect, with_results};
ghost use Rattle.fst_sorting.specs.Sites.{effect_at, effects_in};

use crate::effects::effect_at;
use crate::listing::Placed;
use crate::putting::put_value;
use crate::written::sort_of;
use fst_base::{Box, OutOfMemory, Seq, Sort, boxed, pair};
use fst_effects::{Callee, Entry};
use fst_names::Ref;
use fst_program::{Effect, EffectDef};
use fst_trees::{EffectName, FunTree, HeadTree, ParamTree};
use std::alloc::Global;

/// The effect of a function.
pub fn effect_of(name: &EffectName<Ref>) -> Effect
    ensures { result ≡ effect_of name.now }
{
    match name {
        EffectName::Pure => Effect::Pure,
        EffectName::Ghost => Effect::Ghost,
        EffectName::Div => Effect::Div,
        EffectName::User(name) => Effect::User(name.index),
    }
}

/// A parameter.
#[tactic(auto, using(crate::proofs::CalleeLemmas::params))]
pub fn param_entry(alloc: Global, param: &ParamTree<Ref>) -> Result<Entry, OutOfMemory>
    ensures { IfOk result (λ e. entry_of e ≡ entry_of_param param.now) }
{
    let sort = boxed(alloc, sort_of(alloc, &param.sort))?;
    Ok(Entry {
        sort,
        hidden: param.hidden,
    })
}

/// The parameters.
#[tactic(auto, using(crate::proofs::MapLemmas::maps))]
pub fn entries(alloc: Global, params: &[ParamTree<Ref>]) -> Result<Seq<Entry>, OutOfMemory>
    ensures { IfOk result (λ es. map entry_of es ≡ entries_of params.now) }
{
    let mut entries = Seq::new(alloc);
    for param in params {
        entries.push(param_entry(alloc, param)?)?;
    }
    Ok(entries)
}

/// The effect that a function's results come through, where it has a user effect.
pub fn own_effect<'a>(effects: &'a [EffectDef], effect: Effect) -> Option<&'a EffectDef>
    ensures { effect_at result ≡ own_effect (effects_in effects.now) effect }
{
    match effect {
        Effect::Pure => None,
        Effect::Ghost => None,
        Effect::Div => None,
        Effect::User(number) => effect_at(effects, number),
    }
}

/// The sort of results through this effect, where values have this sort.
fn with_results(
    alloc: Global,
    effect: Option<&EffectDef>,
    value: Box<Sort>,
) -> Result<Box<Sort>, OutOfMemory>
    ensures { IfOk result (λ s. plain_sort s ≡ with_results (effect_at effect.entry) (plain_sort value)) }
{
    match effect {
        None => Ok(value),
        Some(effect) => put_value(alloc, &effect.result, value.get()),
    }
}

/// The sort of a function's results.
pub fn head_results(
    alloc: Global,
    effects: &[EffectDef],
    head: &HeadTree<Ref>,
) -> Result<Box<Sort>, OutOfMemory>
    ensures { IfOk result (λ s. plain_sort s ≡ head_results (effects_in effects.now) head.now) }
{
    let value = boxed(alloc, sort_of(alloc, &head.sort))?;
    let effect = own_effect(effects, effect_of(&head.effect));
    with_results(alloc, effect, value)
}

/// A function as texts call it.
#[tactic(auto, using(crate::proofs::CalleeLemmas::callees))]
fn called_of(alloc: Global, fun: &FunTree<Ref>) -> Result<Callee, OutOfMemory>
    ensures { IfOk result (λ c. callee_of c ≡ called_of fun.now) }
{
    let args = entries(alloc, fun.head.params.as_slice());
    let sort = boxed(alloc, sort_of(alloc, &fun.head.sort));
    let (args, sort) = pair(args, sort)?;
    let effect = effect_of(&fun.head.effect);
    Ok(Callee { args, sort, effect })
}

/// A function as formulas apply it: it has the sort of its results.
#[tactic(auto, using(crate::proofs::CalleeLemmas::callees))]
fn applied_of(
    alloc: Global,
    effects: &[EffectDef],
    fun: &FunTree<Ref>,
) -> Result<Callee, OutOfMemory>
    ensures { IfOk result (λ c. callee_of c ≡ applied_of (effects_in effects.now) fun.now) }
{
    let args = entries(alloc, fun.head.params.as_slice());
    let sort = head_results(alloc, effects, &fun.head);
    let (args, sort) = pair(args, sort)?;
    let effect = effect_of(&fun.head.effect);
    Ok(Callee { args, sort, effect })
}

/// The functions as texts call them.
#[tactic(auto, using(crate::proofs::MapLemmas::maps))]
pub fn all_called(alloc: Global, funs: &[Placed<'_>]) -> Result<Seq<Callee>, OutOfMemory>
    ensures { IfOk result (λ cs. map callee_of cs ≡ map (λ p. called_of p.tree.now) funs.now) }
{
    let mut callees = Seq::new(alloc);
    for fun in funs {
        callees.push(called_of(alloc, fun.tree)?)?;
    }
    Ok(callees)
}

/// The functions as formulas apply them.
#[tactic(auto, using(crate::proofs::MapLemmas::maps))]
pub fn all_applied(
    alloc: Global,
    effects: &[EffectDef],
    funs: &[Placed<'_>],
) -> Result<Seq<Callee>, OutOfMemory>
    ensures { IfOk result (λ cs. map callee_of cs ≡ map (λ p. applied_of (effects_in effects.now) p.tree.now) funs.now) }
{
    let mut callees = Seq::new(alloc);
    for fun in funs {
        callees.push(applied_of(alloc, effects, fun.tree)?)?;
    }
    Ok(callees)
}
