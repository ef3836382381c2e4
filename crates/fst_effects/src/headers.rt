//! Headers of effects: their sorts, what is in scope in their texts, and their computations.

ghost use Rattle.std.specs.Prelude.{◌≡◌, [], ◌∷◌, Some, None, IfOk, OnOk, option_map, slice_get};
ghost use Rattle.fst_base.specs.Sorts.{plain_sort, s_a};
ghost use Rattle.fst_effects.specs.Definitions as D;
ghost use Rattle.fst_effects.specs.Definitions.{at_b, base_effect, computation};
ghost use Rattle.fst_effects.specs.DefinitionTexts.{callee_run};
ghost use Rattle.fst_effects.specs.Headers.{found_sorts, header_sorts, sorts_in};
ghost use Rattle.fst_effects.specs.Scopes.{scope_in};
ghost use Rattle.fst_effects.specs.TermSorts.{visible};

use crate::scope::{Context, Entry};
use crate::sorts::copy_sort;
use crate::wanted::Run;
use crate::written::{boxed_at_b, boxed_sort};
use fst_base::{Box, OutOfMemory, Seq, Sort, one, pair, two};
use fst_names::Ref;
use fst_program::Effect;
use fst_trees::EffectTree;
use std::alloc::Global;

/// The base of an effect, and the sorts of its input and its results.
#[derive(Drop)]
pub struct EffectSorts {
    pub base: Effect,
    pub input: Box<Sort>,
    pub result: Box<Sort>,
}

/// The base that the word DIV tells.
pub fn base_effect(div: bool) -> Effect
    ensures { result ≡ base_effect div }
{
    if div { Effect::Div } else { Effect::Pure }
}

/// The sorts of an effect's header.
pub fn effect_sorts(alloc: Global, effect: &EffectTree<Ref>) -> Result<EffectSorts, OutOfMemory>
    ensures { IfOk result (λ e. sorts_in e ≡ header_sorts effect.now) }
{
    let input = boxed_sort(alloc, &effect.input);
    let (input, carried) = pair(input, boxed_sort(alloc, &effect.result))?;
    Ok(EffectSorts {
        base: base_effect(effect.div),
        input,
        result: carried,
    })
}

/// Equal sorts.
fn copy_sorts(alloc: Global, sorts: &EffectSorts) -> Result<EffectSorts, OutOfMemory>
    ensures { IfOk result (λ e. e ≡ sorts.now) }
{
    let input = copy_sort(alloc, sorts.input.get());
    let (input, carried) = pair(input, copy_sort(alloc, sorts.result.get()))?;
    Ok(EffectSorts {
        base: sorts.base,
        input,
        result: carried,
    })
}

/// What stands for the sorts of an effect that isn't there.
#[tactic(auto, using(crate::proofs::PlainLemmas::sorts))]
fn no_sorts(alloc: Global) -> Result<EffectSorts, OutOfMemory>
    ensures { IfOk result (λ e. sorts_in e ≡ D.no_effect) }
{
    let (input, carried) = pair(Box::new(alloc, Sort::VarA), Box::new(alloc, Sort::VarA))?;
    Ok(EffectSorts {
        base: Effect::Pure,
        input,
        result: carried,
    })
}

/// The sorts of the effect that a name stands for.
pub fn sorts_at(
    alloc: Global,
    effects: &[EffectSorts],
    name: Ref,
) -> Result<EffectSorts, OutOfMemory>
    ensures { IfOk result (λ e. sorts_in e ≡ found_sorts effects.now name) }
{
    match effects.get(name.index as usize) {
        Some(sorts) => copy_sorts(alloc, sorts),
        None => no_sorts(alloc),
    }
}

/// Brings a variable of the sort into scope.
fn put_variable(context: &mut Context, sort: Box<Sort>) -> Result<(), OutOfMemory>
    ensures { OnOk result (scope_in context.new ≡ visible (plain_sort sort) ∷ scope_in context.old) }
{
    context.push(Entry {
        sort,
        hidden: false,
    })
}

/// The variables of a return: the value, and the input.
#[tactic(auto, using(crate::proofs::PlainLemmas::sorts))]
pub fn return_context(alloc: Global, sorts: &EffectSorts) -> Result<Context, OutOfMemory>
    ensures { IfOk result (λ c. scope_in c ≡ D.return_scope (sorts_in sorts.now)) }
{
    let value = Box::new(alloc, Sort::VarA);
    let (value, input) = pair(value, copy_sort(alloc, sorts.input.get()))?;
    let mut context = Context::new(alloc);
    put_variable(&mut context, value)?;
    put_variable(&mut context, input)?;
    Ok(context)
}

/// The variable of a bind or a lift: the input.
pub fn input_context(alloc: Global, sorts: &EffectSorts) -> Result<Context, OutOfMemory>
    ensures { IfOk result (λ c. scope_in c ≡ D.input_scope (sorts_in sorts.now)) }
{
    let input = copy_sort(alloc, sorts.input.get())?;
    let mut context = Context::new(alloc);
    put_variable(&mut context, input)?;
    Ok(context)
}

/// A computation of an effect at `a`, which takes an input.
fn first_run(alloc: Global, sorts: &EffectSorts) -> Result<Run, OutOfMemory>
    ensures { IfOk result (λ r. Some (callee_run r) ≡ computation (plain_sort sorts.now.input ∷ []) (plain_sort sorts.now.result)) }
{
    let input = copy_sort(alloc, sorts.input.get());
    let (input, carried) = pair(input, copy_sort(alloc, sorts.result.get()))?;
    Ok(Run {
        first: input,
        second: None,
        sort: carried,
    })
}

/// A computation of an effect at `b`, which takes a value of `a` and an input.
#[tactic(auto, using(crate::proofs::PlainLemmas::sorts))]
fn second_run(alloc: Global, sorts: &EffectSorts) -> Result<Run, OutOfMemory>
    ensures { IfOk result (λ r. Some (callee_run r) ≡ computation (s_a ∷ plain_sort sorts.now.input ∷ []) (at_b (plain_sort sorts.now.result))) }
{
    let value = Box::new(alloc, Sort::VarA);
    let input = copy_sort(alloc, sorts.input.get());
    let carried = boxed_at_b(alloc, sorts.result.get());
    let (value, (input, carried)) = pair(value, pair(input, carried))?;
    Ok(Run {
        first: value,
        second: Some(input),
        sort: carried,
    })
}

/// The computations of a bind.
pub fn bind_runs(alloc: Global, sorts: &EffectSorts) -> Result<Seq<Run>, OutOfMemory>
    ensures first { IfOk result (λ rs. option_map callee_run (slice_get rs 0) ≡ computation (plain_sort sorts.now.input ∷ []) (plain_sort sorts.now.result)) }
    ensures second { IfOk result (λ rs. option_map callee_run (slice_get rs 1) ≡ computation (s_a ∷ plain_sort sorts.now.input ∷ []) (at_b (plain_sort sorts.now.result))) }
{
    let (first, second) = pair(first_run(alloc, sorts), second_run(alloc, sorts))?;
    two(alloc, first, second)
}

/// The computation of a lift from this effect.
pub fn lift_runs(alloc: Global, sorts: &EffectSorts) -> Result<Seq<Run>, OutOfMemory>
    ensures first { IfOk result (λ rs. option_map callee_run (slice_get rs 0) ≡ computation (plain_sort sorts.now.input ∷ []) (plain_sort sorts.now.result)) }
    ensures second { IfOk result (λ rs. option_map callee_run (slice_get rs 1) ≡ None) }
{
    let first = first_run(alloc, sorts)?;
    one(alloc, first)
}
