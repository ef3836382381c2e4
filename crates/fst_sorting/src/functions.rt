//! Functions: what they break, and what they are in a program.

ghost use Rattle.std.specs.Prelude.{◌≡◌, Some, IfOk, OnOk};
ghost use Rattle.fst_program.specs.Plain.{plain_comp, plain_fun};
ghost use Rattle.fst_program.specs.Texts.{is_ghost};
ghost use Rattle.fst_effects.specs.Scopes.{scope_in};
ghost use Rattle.fst_sorting.specs.Bodies.{text_breaks, text_core};
ghost use Rattle.fst_sorting.specs.Functions.{effect_of};
ghost use Rattle.fst_sorting.specs.Listed.{all_placed, fun_breaks, fun_core, placed_in};
ghost use Rattle.fst_sorting.specs.Sites.{known_at, written_sort};

use crate::building::core_body;
use crate::callees::effect_of;
use crate::checking::check_body;
use crate::clauses::{check_clauses, core_clauses};
use crate::heads::{check_measures, check_params, core_measures, core_params};
use crate::known::{Known, Site};
use crate::listing::Placed;
use crate::measures::loose_of;
use crate::written::sort_of;
use fst_base::{Box, OutOfMemory, boxed, pair};
use fst_effects::{Context, Found};
use fst_names::{Ref, least};
use fst_program::{Comp, Effect, Fun};
use fst_trees::FunTree;
use std::alloc::Global;

/// Whether the effect is GHOST.
fn is_ghost(effect: Effect) -> bool
    ensures { result ≡ is_ghost effect }
{
    match effect {
        Effect::Ghost => true,
        Effect::Pure => false,
        Effect::Div => false,
        Effect::User(_) => false,
    }
}

/// What the body of a function breaks.
fn check_fun_body(
    alloc: Global,
    known: Known<'_>,
    fun: &FunTree<Ref>,
    context: &mut Context,
) -> Found
    ensures broken { IfOk result (λ found. found ≡ text_breaks (known_at known.entry) (effect_of fun.now.head.effect) (is_ghost (effect_of fun.now.head.effect)) (scope_in context.old) fun.now.body (Some (written_sort fun.now.head.sort))) }
    ensures scope { OnOk result (scope_in context.new ≡ scope_in context.old) }
{
    let effect = effect_of(&fun.head.effect);
    let is_ghost = is_ghost(effect);
    let site = Site { effect, is_ghost };
    let sort = boxed(alloc, sort_of(alloc, &fun.head.sort))?;
    check_body(alloc, known, site, &fun.body, Some(sort.get()), context)
}

/// What a function breaks.
#[tactic(auto, using(crate::proofs::FunLemmas::checks))]
pub fn check_fun(alloc: Global, known: Known<'_>, funs: &[Placed<'_>], own: Placed<'_>) -> Found
    ensures { IfOk result (λ found. found ≡ fun_breaks (known_at known.entry) (all_placed funs.now) (placed_in own.entry)) }
{
    let head = &own.tree.head;
    let mut context = Context::new(alloc);
    let loose = loose_of(known, funs, own);
    let params = check_params(alloc, known, head.params.as_slice(), &mut context)?;
    let clauses = check_clauses(alloc, known, head, &mut context)?;
    let measures = check_measures(alloc, known, head.measures.as_slice(), &mut context)?;
    let body = check_fun_body(alloc, known, own.tree, &mut context)?;
    let before = least(least(least(loose, params), clauses), measures);
    Ok(least(before, body))
}

/// The core text of the body of a function.
fn core_fun_body(
    alloc: Global,
    known: Known<'_>,
    fun: &FunTree<Ref>,
    context: &mut Context,
) -> Result<Box<Comp>, OutOfMemory>
    ensures text { IfOk result (λ c. plain_comp c ≡ text_core (known_at known.entry) (effect_of fun.now.head.effect) (scope_in context.old) fun.now.body (Some (written_sort fun.now.head.sort))) }
    ensures scope { OnOk result (scope_in context.new ≡ scope_in context.old) }
{
    let effect = effect_of(&fun.head.effect);
    let sort = boxed(alloc, sort_of(alloc, &fun.head.sort))?;
    core_body(alloc, known, effect, &fun.body, Some(sort.get()), context)
}

/// A function in the program.
#[tactic(auto, using(crate::proofs::FunLemmas::cores))]
pub fn core_fun(alloc: Global, known: Known<'_>, own: Placed<'_>) -> Result<Fun, OutOfMemory>
    ensures { IfOk result (λ f. plain_fun f ≡ fun_core (known_at known.entry) (placed_in own.entry)) }
{
    let head = &own.tree.head;
    let mut context = Context::new(alloc);
    let params = core_params(alloc, known, head.params.as_slice(), &mut context)?;
    let clauses = core_clauses(alloc, known, head, &mut context);
    let measures = core_measures(alloc, known, head.measures.as_slice(), &mut context);
    let body = core_fun_body(alloc, known, own.tree, &mut context);
    let front = pair(head.name.text.copy(alloc), sort_of(alloc, &head.sort));
    let rest = pair(clauses, pair(measures, body));
    let ((name, sort), ((needs, gives), (measures, body))) = pair(front, rest)?;
    Ok(Fun {
        name,
        at: head.name.at,
        params,
        effect: effect_of(&head.effect),
        sort,
        needs,
        gives,
        measures,
        unfold: head.unfold,
        body: body.into_inner(),
        group: own.group,
    })
}
