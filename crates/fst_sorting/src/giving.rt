//! The sorts of the values of bodies, where nothing is wanted.

ghost use Rattle.std.specs.Prelude.{◌≡◌, ◌∷◌, true, false, IfOk, OnOk};
ghost use Rattle.fst_base.specs.Sorts.{plain_sort};
ghost use Rattle.fst_program.specs.LiftPaths.{or_else};
ghost use Rattle.fst_effects.specs.Scopes.{known_sort, scope_in, sort_at};
ghost use Rattle.fst_effects.specs.TextSorts as T;
ghost use Rattle.fst_effects.specs.TextSorts.{entry};
ghost use Rattle.fst_sorting.specs.Bodies.{arm_gives, arms_give, bound_gives, part_gives, text_gives};
ghost use Rattle.fst_sorting.specs.Sites.{effect_at, known_at, written_sort};

use crate::effects::{effect_at, result_sort};
use crate::known::Known;
use crate::written::{boxed_sort, known_written};
use fst_base::{Box, Sort};
use fst_effects::{
    Context, Entry, KnownSort, bind, callee_of, copied, fits, given, unbind, value_of,
};
use fst_names::Ref;
use fst_program::EffectDef;
use fst_trees::{ArmTree, BodyTree, ConWord, PartNode, PartTree, SortTree};
use std::alloc::Global;

/// The sort of an effect's results at this written sort.
fn given_reify(alloc: Global, effect: Option<&EffectDef>, value: &SortTree<Ref>) -> KnownSort
    ensures { IfOk result (λ s. known_sort s ≡ T.result_sort (effect_at effect.entry) (written_sort value.now)) }
{
    let value = boxed_sort(alloc, value)?;
    result_sort(alloc, effect, value.get())
}

/// The sort of a body's value.
#[cycle(given)]
#[tactic(auto, using(crate::proofs::GivenLemmas::texts))]
pub fn given_body(
    alloc: Global,
    known: Known<'_>,
    tree: &BodyTree<Ref>,
    context: &mut Context,
) -> KnownSort
    ensures sort { IfOk result (λ s. known_sort s ≡ text_gives (known_at known.entry) (scope_in context.old) tree.now) }
    ensures scope { OnOk result (scope_in context.new ≡ scope_in context.old) }
{
    match tree {
        BodyTree::Let(_, note, part, rest) => {
            match given_bound(alloc, known, note, part, context)? {
                None => Ok(None),
                Some(sort) => given_under(alloc, known, rest.get(), sort, false, context),
            }
        }
        BodyTree::GhostLet(_, note, part, rest) => {
            match given_bound(alloc, known, note, part, context)? {
                None => Ok(None),
                Some(sort) => given_under(alloc, known, rest.get(), sort, true, context),
            }
        }
        BodyTree::Assert(_, _, rest) => given_body(alloc, known, rest.get(), context),
        BodyTree::If(_, left, right) => match given_body(alloc, known, left.get(), context)? {
            Some(sort) => Ok(Some(sort)),
            None => given_body(alloc, known, right.get(), context),
        },
        BodyTree::Match(form, _, arms) => match given(alloc, known.applied, form, context)? {
            None => Ok(None),
            Some(sort) => given_arms(alloc, known, arms.as_slice(), sort.get(), context),
        },
        BodyTree::Part(part) => given_part(alloc, known, part, context),
    }
}

/// The sort of the variable that a let binds: the one that is written, else the one that is given.
#[cycle(given)]
#[tactic(auto, using(crate::proofs::GivenLemmas::bounds))]
pub fn given_bound(
    alloc: Global,
    known: Known<'_>,
    note: &Option<SortTree<Ref>>,
    part: &PartTree<Ref>,
    context: &mut Context,
) -> KnownSort
    ensures sort { IfOk result (λ s. known_sort s ≡ bound_gives (known_at known.entry) (scope_in context.old) note.now part.now) }
    ensures scope { OnOk result (scope_in context.new ≡ scope_in context.old) }
{
    match note {
        Some(sort) => known_written(alloc, sort),
        None => given_part(alloc, known, part, context),
    }
}

/// The sort of a body's value with one variable more in scope.
#[cycle(given)]
fn given_under(
    alloc: Global,
    known: Known<'_>,
    tree: &BodyTree<Ref>,
    sort: Box<Sort>,
    hidden: bool,
    context: &mut Context,
) -> KnownSort
    ensures sort { IfOk result (λ s. known_sort s ≡ text_gives (known_at known.entry) (entry hidden (plain_sort sort) ∷ scope_in context.old) tree.now) }
    ensures scope { OnOk result (scope_in context.new ≡ scope_in context.old) }
{
    context.push(Entry { sort, hidden })?;
    let found = given_body(alloc, known, tree, context);
    context.pop();
    found
}

/// The sort of a part's value.
#[cycle(given)]
#[tactic(auto, using(crate::proofs::GivenLemmas::parts))]
pub fn given_part(
    alloc: Global,
    known: Known<'_>,
    part: &PartTree<Ref>,
    context: &mut Context,
) -> KnownSort
    ensures sort { IfOk result (λ s. known_sort s ≡ part_gives (known_at known.entry) (scope_in context.old) part.now) }
    ensures scope { OnOk result (scope_in context.new ≡ scope_in context.old) }
{
    match &part.node {
        PartNode::Block(body) => given_body(alloc, known, body.get(), context),
        PartNode::Call(name, _) => copied(alloc, value_of(callee_of(known.called, *name))),
        PartNode::Reify(name, sort, _, _) => {
            given_reify(alloc, effect_at(known.effects, name.index), sort)
        }
        PartNode::Reflect(_, sort, _, _) => known_written(alloc, sort),
        PartNode::Term(form) => given(alloc, known.applied, form, context),
    }
}

/// The sort of an arm's value, where its pattern fits the sort of what is matched.
#[cycle(given)]
#[tactic(auto, using(crate::proofs::GivenLemmas::arms))]
fn given_arm(
    alloc: Global,
    known: Known<'_>,
    tree: &BodyTree<Ref>,
    con: ConWord,
    sort: &Sort,
    context: &mut Context,
) -> KnownSort
    ensures sort { IfOk result (λ s. known_sort s ≡ arm_gives (known_at known.entry) (scope_in context.old) (plain_sort sort.now) con tree.now) }
    ensures scope { OnOk result (scope_in context.new ≡ scope_in context.old) }
{
    if !fits(con, sort) {
        return Ok(None);
    }
    bind(alloc, con, sort, context)?;
    let found = given_body(alloc, known, tree, context);
    unbind(con, sort, context);
    found
}

/// The sort of the value of the first arm that gives one, of those whose pattern fits this sort.
#[cycle(given)]
#[tactic(auto, using(crate::proofs::GivenLemmas::arm_lists))]
fn given_arms(
    alloc: Global,
    known: Known<'_>,
    arms: &[ArmTree<BodyTree<Ref>>],
    sort: &Sort,
    context: &mut Context,
) -> KnownSort
    ensures sort { IfOk result (λ s. known_sort s ≡ arms_give (known_at known.entry) (scope_in context.old) (plain_sort sort.now) arms.now) }
    ensures scope { OnOk result (scope_in context.new ≡ scope_in context.old) }
{
    for index in 0..arms.len() {
        let arm = &arms[index];
        match given_arm(alloc, known, &arm.body, arm.con, sort, context)? {
            Some(found) => return Ok(Some(found)),
            None => {}
        }
    }
    Ok(None)
}

/// What a body gives, looked for only where nothing is wanted.
pub fn given_unless(
    alloc: Global,
    known: Known<'_>,
    tree: &BodyTree<Ref>,
    want: Option<&Sort>,
    context: &mut Context,
) -> KnownSort
    ensures sort { IfOk result (λ s. or_else (sort_at want.entry) (known_sort s) ≡ or_else (sort_at want.entry) (text_gives (known_at known.entry) (scope_in context.old) tree.now)) }
    ensures scope { OnOk result (scope_in context.new ≡ scope_in context.old) }
{
    match want {
        Some(_) => Ok(None),
        None => given_body(alloc, known, tree, context),
    }
}
