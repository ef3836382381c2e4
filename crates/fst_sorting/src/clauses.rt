//! Requires and ensures: what they break, and what they are in a program.

ghost use Rattle.std.specs.Prelude.{◌≡◌, ◌∷◌, option_map, IfOk, OnOk};
ghost use Rattle.fst_base.specs.Sorts.{plain_sort};
ghost use Rattle.fst_names.specs.Broken.{least};
ghost use Rattle.fst_terms.specs.Terms.{plain_term};
ghost use Rattle.fst_effects.specs.Scopes.{scope_in};
ghost use Rattle.fst_effects.specs.TermSorts.{visible};
ghost use Rattle.fst_sorting.specs.Functions.{effect_of};
ghost use Rattle.fst_sorting.specs.Listed.{clauses_break, head_results, maybe_breaks, maybe_core, own_effect, with_input};
ghost use Rattle.fst_sorting.specs.Sites.{effect_at, effects_in, known_at};

use crate::callees::{effect_of, head_results, own_effect};
use crate::heads::{check_maybe, core_maybe};
use crate::known::Known;
use fst_base::{Box, OutOfMemory, Sort, pair};
use fst_effects::{Context, Entry, Found, copy_sort};
use fst_names::{Ref, least};
use fst_program::EffectDef;
use fst_terms::Formula;
use fst_trees::{Form, HeadTree};
use std::alloc::Global;

/// What ensures breaks; `result` of this sort stands in it.
fn check_gives(
    alloc: Global,
    known: Known<'_>,
    form: &Option<Form<Ref>>,
    results: Box<Sort>,
    context: &mut Context,
) -> Found
    ensures broken { IfOk result (λ found. found ≡ maybe_breaks (known_at known.entry) (visible (plain_sort results) ∷ scope_in context.old) form.now) }
    ensures scope { OnOk result (scope_in context.new ≡ scope_in context.old) }
{
    context.push(Entry {
        sort: results,
        hidden: false,
    })?;
    let found = check_maybe(alloc, known, form, context);
    context.pop();
    found
}

/// What requires and ensures break in this scope.
fn check_pair(
    alloc: Global,
    known: Known<'_>,
    head: &HeadTree<Ref>,
    results: Box<Sort>,
    context: &mut Context,
) -> Found
    ensures broken { IfOk result (λ found. found ≡ least (maybe_breaks (known_at known.entry) (scope_in context.old) head.now.needs) (maybe_breaks (known_at known.entry) (visible (plain_sort results) ∷ scope_in context.old) head.now.gives)) }
    ensures scope { OnOk result (scope_in context.new ≡ scope_in context.old) }
{
    let needs = check_maybe(alloc, known, &head.needs, context)?;
    let gives = check_gives(alloc, known, &head.gives, results, context)?;
    Ok(least(needs, gives))
}

/// Brings `input` into scope.
fn bring_input(alloc: Global, effect: &EffectDef, context: &mut Context) -> Result<(), OutOfMemory>
    ensures { OnOk result (scope_in context.new ≡ visible (plain_sort effect.now.input) ∷ scope_in context.old) }
{
    let sort = copy_sort(alloc, &effect.input)?;
    context.push(Entry {
        sort,
        hidden: false,
    })
}

/// What requires and ensures break, where the results come through this effect; with one, `input` stands in both.
fn check_through(
    alloc: Global,
    known: Known<'_>,
    head: &HeadTree<Ref>,
    effect: Option<&EffectDef>,
    results: Box<Sort>,
    context: &mut Context,
) -> Found
    ensures broken { IfOk result (λ found. found ≡ clauses_break (known_at known.entry) (effect_at effect.entry) (plain_sort results) (scope_in context.old) head.now) }
    ensures scope { OnOk result (scope_in context.new ≡ scope_in context.old) }
{
    match effect {
        None => check_pair(alloc, known, head, results, context),
        Some(effect) => {
            bring_input(alloc, effect, context)?;
            let found = check_pair(alloc, known, head, results, context);
            context.pop();
            found
        }
    }
}

/// What requires and ensures break.
pub fn check_clauses(
    alloc: Global,
    known: Known<'_>,
    head: &HeadTree<Ref>,
    context: &mut Context,
) -> Found
    ensures broken { IfOk result (λ found. found ≡ clauses_break (known_at known.entry) (own_effect (effects_in known.entry.effects.now) (effect_of head.now.effect)) (head_results (effects_in known.entry.effects.now) head.now) (scope_in context.old) head.now) }
    ensures scope { OnOk result (scope_in context.new ≡ scope_in context.old) }
{
    let results = head_results(alloc, known.effects, head)?;
    let effect = own_effect(known.effects, effect_of(&head.effect));
    check_through(alloc, known, head, effect, results, context)
}

/// Requires and ensures.
pub type Clauses = (Option<Formula>, Option<Formula>);

/// Ensures; `result` of this sort stands in it.
fn core_gives(
    alloc: Global,
    known: Known<'_>,
    form: &Option<Form<Ref>>,
    results: Box<Sort>,
    context: &mut Context,
) -> Result<Option<Formula>, OutOfMemory>
    ensures term { IfOk result (λ t. option_map plain_term t ≡ maybe_core (known_at known.entry) (visible (plain_sort results) ∷ scope_in context.old) form.now) }
    ensures scope { OnOk result (scope_in context.new ≡ scope_in context.old) }
{
    context.push(Entry {
        sort: results,
        hidden: false,
    })?;
    let term = core_maybe(alloc, known, form, context);
    context.pop();
    term
}

/// Requires and ensures in this scope.
fn core_pair(
    alloc: Global,
    known: Known<'_>,
    head: &HeadTree<Ref>,
    results: Box<Sort>,
    context: &mut Context,
) -> Result<Clauses, OutOfMemory>
    ensures needs { IfOk result (λ p. option_map plain_term p.0 ≡ maybe_core (known_at known.entry) (scope_in context.old) head.now.needs) }
    ensures gives { IfOk result (λ p. option_map plain_term p.1 ≡ maybe_core (known_at known.entry) (visible (plain_sort results) ∷ scope_in context.old) head.now.gives) }
    ensures scope { OnOk result (scope_in context.new ≡ scope_in context.old) }
{
    let needs = core_maybe(alloc, known, &head.needs, context);
    let gives = core_gives(alloc, known, &head.gives, results, context);
    pair(needs, gives)
}

/// Requires and ensures, where the results come through this effect; with one, `input` stands in both.
fn core_through(
    alloc: Global,
    known: Known<'_>,
    head: &HeadTree<Ref>,
    effect: Option<&EffectDef>,
    results: Box<Sort>,
    context: &mut Context,
) -> Result<Clauses, OutOfMemory>
    ensures needs { IfOk result (λ p. option_map plain_term p.0 ≡ maybe_core (known_at known.entry) (with_input (effect_at effect.entry) (scope_in context.old)) head.now.needs) }
    ensures gives { IfOk result (λ p. option_map plain_term p.1 ≡ maybe_core (known_at known.entry) (visible (plain_sort results) ∷ with_input (effect_at effect.entry) (scope_in context.old)) head.now.gives) }
    ensures scope { OnOk result (scope_in context.new ≡ scope_in context.old) }
{
    match effect {
        None => core_pair(alloc, known, head, results, context),
        Some(effect) => {
            bring_input(alloc, effect, context)?;
            let clauses = core_pair(alloc, known, head, results, context);
            context.pop();
            clauses
        }
    }
}

/// Requires and ensures.
pub fn core_clauses(
    alloc: Global,
    known: Known<'_>,
    head: &HeadTree<Ref>,
    context: &mut Context,
) -> Result<Clauses, OutOfMemory>
    ensures needs { IfOk result (λ p. option_map plain_term p.0 ≡ maybe_core (known_at known.entry) (with_input (own_effect (effects_in known.entry.effects.now) (effect_of head.now.effect)) (scope_in context.old)) head.now.needs) }
    ensures gives { IfOk result (λ p. option_map plain_term p.1 ≡ maybe_core (known_at known.entry) (visible (head_results (effects_in known.entry.effects.now) head.now) ∷ with_input (own_effect (effects_in known.entry.effects.now) (effect_of head.now.effect)) (scope_in context.old)) head.now.gives) }
    ensures scope { OnOk result (scope_in context.new ≡ scope_in context.old) }
{
    let results = head_results(alloc, known.effects, head)?;
    let effect = own_effect(known.effects, effect_of(&head.effect));
    core_through(alloc, known, head, effect, results, context)
}
