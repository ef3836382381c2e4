//! Effects and lifts: what they break, and the definitions that they are.

ghost use Rattle.std.specs.Prelude.{◌≡◌, map, IfOk};
ghost use Rattle.fst_program.specs.Plain.{plain_dm, plain_effect, plain_lift};
ghost use Rattle.fst_effects.specs.Headers.{bind_breaks, bind_core, effect_breaks, effect_core, lift_breaks, lift_core, return_breaks, return_core, sorts_in, text_breaks, text_core};

use crate::check_texts::check_dm;
use crate::checking::Found;
use crate::core_texts::{Made, copy_texts, core_dm};
use crate::headers::{
    EffectSorts, bind_runs, effect_sorts, input_context, lift_runs, return_context, sorts_at,
};
use crate::written::{boxed_at_b, check_shape};
use fst_base::{OutOfMemory, pair};
use fst_names::{Ref, least};
use fst_program::{EffectDef, LiftDef};
use fst_trees::{DmTree, EffectTree, LiftTree};
use std::alloc::Global;

/// What the text of a return breaks.
fn check_return(alloc: Global, sorts: &EffectSorts, text: &DmTree<Ref>) -> Found
    ensures { IfOk result (λ found. found ≡ return_breaks (sorts_in sorts.now) text.now) }
{
    let mut context = return_context(alloc, sorts)?;
    check_dm(alloc, &[], text, Some(sorts.result.get()), &mut context)
}

/// What the text of a bind breaks.
fn check_bind(alloc: Global, sorts: &EffectSorts, text: &DmTree<Ref>) -> Found
    ensures { IfOk result (λ found. found ≡ bind_breaks (sorts_in sorts.now) text.now) }
{
    let runs = bind_runs(alloc, sorts)?;
    let carried = boxed_at_b(alloc, sorts.result.get())?;
    let mut context = input_context(alloc, sorts)?;
    check_dm(
        alloc,
        runs.as_slice(),
        text,
        Some(carried.get()),
        &mut context,
    )
}

/// What the text of a lift from the lower effect to the upper one breaks.
fn check_text(alloc: Global, lower: &EffectSorts, upper: &EffectSorts, text: &DmTree<Ref>) -> Found
    ensures { IfOk result (λ found. found ≡ text_breaks (sorts_in lower.now) (sorts_in upper.now) text.now) }
{
    let runs = lift_runs(alloc, lower)?;
    let mut context = input_context(alloc, upper)?;
    check_dm(
        alloc,
        runs.as_slice(),
        text,
        Some(upper.result.get()),
        &mut context,
    )
}

/// The core text of a return.
fn core_return(alloc: Global, sorts: &EffectSorts, text: &DmTree<Ref>) -> Made
    ensures { IfOk result (λ t. plain_dm t ≡ return_core (sorts_in sorts.now) text.now) }
{
    let mut context = return_context(alloc, sorts)?;
    core_dm(alloc, &[], text, Some(sorts.result.get()), &mut context)
}

/// The core text of a bind.
fn core_bind(alloc: Global, sorts: &EffectSorts, text: &DmTree<Ref>) -> Made
    ensures { IfOk result (λ t. plain_dm t ≡ bind_core (sorts_in sorts.now) text.now) }
{
    let runs = bind_runs(alloc, sorts)?;
    let carried = boxed_at_b(alloc, sorts.result.get())?;
    let mut context = input_context(alloc, sorts)?;
    core_dm(
        alloc,
        runs.as_slice(),
        text,
        Some(carried.get()),
        &mut context,
    )
}

/// The core text of a lift from the lower effect to the upper one.
fn core_text(alloc: Global, lower: &EffectSorts, upper: &EffectSorts, text: &DmTree<Ref>) -> Made
    ensures { IfOk result (λ t. plain_dm t ≡ text_core (sorts_in lower.now) (sorts_in upper.now) text.now) }
{
    let runs = lift_runs(alloc, lower)?;
    let mut context = input_context(alloc, upper)?;
    core_dm(
        alloc,
        runs.as_slice(),
        text,
        Some(upper.result.get()),
        &mut context,
    )
}

/// What an effect breaks.
#[tactic(auto, using(crate::proofs::HeaderLemmas::effects))]
pub fn check_effect(alloc: Global, effect: &EffectTree<Ref>) -> Found
    ensures { IfOk result (λ found. found ≡ effect_breaks effect.now) }
{
    let sorts = effect_sorts(alloc, effect)?;
    let input = check_shape(true, &effect.input);
    let carried = check_shape(false, &effect.result);
    let ret = check_return(alloc, &sorts, &effect.ret)?;
    let bind = check_bind(alloc, &sorts, &effect.bind)?;
    Ok(least(least(least(input, carried), ret), bind))
}

/// What a lift breaks, where these are the effects.
#[tactic(auto, using(crate::proofs::HeaderLemmas::lifts))]
pub fn check_lift(alloc: Global, effects: &[EffectSorts], lift: &LiftTree<Ref>) -> Found
    ensures { IfOk result (λ found. found ≡ lift_breaks (map sorts_in effects.now) lift.now) }
{
    let lower = sorts_at(alloc, effects, lift.from)?;
    let upper = sorts_at(alloc, effects, lift.to)?;
    check_text(alloc, &lower, &upper, &lift.text)
}

/// The definition that an effect is.
#[tactic(auto, using(crate::proofs::HeaderLemmas::effects))]
pub fn core_effect(alloc: Global, effect: &EffectTree<Ref>) -> Result<EffectDef, OutOfMemory>
    ensures { IfOk result (λ d. plain_effect d ≡ effect_core effect.now) }
{
    let sorts = effect_sorts(alloc, effect)?;
    let ret = core_return(alloc, &sorts, &effect.ret);
    let bind = core_bind(alloc, &sorts, &effect.bind);
    let ret_names = copy_texts(alloc, effect.ret_names.as_slice());
    let bind_names = copy_texts(alloc, effect.bind_names.as_slice());
    let names = pair(effect.name.text.copy(alloc), pair(ret_names, bind_names));
    let ((name, (ret_names, bind_names)), (ret, bind)) = pair(names, pair(ret, bind))?;
    let EffectSorts {
        base,
        input,
        result: carried,
    } = sorts;
    Ok(EffectDef {
        name,
        base,
        input: input.into_inner(),
        result: carried.into_inner(),
        ret_names,
        ret: ret.into_inner(),
        bind_names,
        bind: bind.into_inner(),
    })
}

/// The definition that a lift is, where these are the effects.
#[tactic(auto, using(crate::proofs::HeaderLemmas::lifts))]
pub fn core_lift(
    alloc: Global,
    effects: &[EffectSorts],
    lift: &LiftTree<Ref>,
) -> Result<LiftDef, OutOfMemory>
    ensures { IfOk result (λ d. plain_lift d ≡ lift_core (map sorts_in effects.now) lift.now) }
{
    let lower = sorts_at(alloc, effects, lift.from)?;
    let upper = sorts_at(alloc, effects, lift.to)?;
    let text = core_text(alloc, &lower, &upper, &lift.text);
    let (names, text) = pair(copy_texts(alloc, lift.names.as_slice()), text)?;
    Ok(LiftDef {
        from: lift.from.index,
        to: lift.to.index,
        names,
        text: text.into_inner(),
    })
}
