//! The core text that bodies are at a place where a sort is wanted, or none.

ghost use Rattle.std.specs.Prelude.{◌≡◌, ◌∷◌, IfOk, OnOk, false};
ghost use Rattle.fst_base.specs.Sorts.{plain_sort};
ghost use Rattle.fst_terms.specs.Terms.{plain_terms};
ghost use Rattle.fst_program.specs.Plain.{plain_comp};
ghost use Rattle.fst_effects.specs.Known.{or_unit};
ghost use Rattle.fst_effects.specs.PatternScopes.{pattern_scope};
ghost use Rattle.fst_effects.specs.Scopes.{scope_in, sort_at};
ghost use Rattle.fst_effects.specs.TermChecks.{form_given, forms_core};
ghost use Rattle.fst_effects.specs.TermSorts.{args_of, wants_of};
ghost use Rattle.fst_effects.specs.TextSorts as T;
ghost use Rattle.fst_sorting.specs.Bodies.{arms_core, bound_gives, made_arms, part_core, tail_core, text_core};
ghost use Rattle.fst_sorting.specs.Sites.{effect_at, known_at, note_of};

use crate::effects::{base_of, effect_at, input_sort, result_sort};
use crate::giving::{given_bound, given_unless};
use crate::known::Known;
use crate::parts::{
    Made, bound_text, copy_texts, effect_of, ghost_text, is_block, made, match_text, tail_text,
};
use crate::written::{boxed_sort, noted};
use fst_base::{Box, OutOfMemory, Seq, Sort, boxed, pair};
use fst_effects::{
    Context, Entry, Wants, as_given, bind, callee_of, copied, core_con, core_forms, core_term,
    given, or_else, params_of, sort_or_unit, unbind,
};
use fst_names::Ref;
use fst_program::{Arm, Comp, Effect, EffectDef};
use fst_terms::Term;
use fst_trees::{ArmTree, BodyTree, ConWord, Form, PartNode, PartTree, SortTree};
use std::alloc::Global;

/// The sort of what is matched, or unit.
fn matched_sort(
    alloc: Global,
    known: Known<'_>,
    form: &Form<Ref>,
    context: &mut Context,
) -> Result<Box<Sort>, OutOfMemory>
    ensures sort { IfOk result (λ s. plain_sort s ≡ or_unit (form_given (known_at known.entry).applied (scope_in context.old) form.now)) }
    ensures scope { OnOk result (scope_in context.new ≡ scope_in context.old) }
{
    let sort = given(alloc, known.applied, form, context);
    boxed(alloc, sort_or_unit(sort))
}

/// The sort of what a let binds, or unit.
fn bound_sort(
    alloc: Global,
    known: Known<'_>,
    note: &Option<SortTree<Ref>>,
    part: &PartTree<Ref>,
    context: &mut Context,
) -> Result<Box<Sort>, OutOfMemory>
    ensures sort { IfOk result (λ s. plain_sort s ≡ or_unit (bound_gives (known_at known.entry) (scope_in context.old) note.now part.now)) }
    ensures scope { OnOk result (scope_in context.new ≡ scope_in context.old) }
{
    let sort = given_bound(alloc, known, note, part, context);
    boxed(alloc, sort_or_unit(sort))
}

/// The arguments of a call.
fn core_args(
    alloc: Global,
    known: Known<'_>,
    name: Ref,
    args: &[Form<Ref>],
    context: &mut Context,
) -> Result<Seq<Term>, OutOfMemory>
    ensures terms { IfOk result (λ ts. plain_terms ts ≡ forms_core (known_at known.entry).applied (scope_in context.old) args.now (wants_of (args_of ((known_at known.entry).called name)))) }
    ensures scope { OnOk result (scope_in context.new ≡ scope_in context.old) }
{
    let wants = Wants::Params(params_of(callee_of(known.called, name)));
    core_forms(alloc, known.applied, args, wants, context)
}

/// The core text that a body is.
#[cycle(core)]
#[tactic(auto, using(crate::proofs::CoreLemmas::texts))]
pub fn core_body(
    alloc: Global,
    known: Known<'_>,
    place: Effect,
    tree: &BodyTree<Ref>,
    want: Option<&Sort>,
    context: &mut Context,
) -> Made
    ensures text { IfOk result (λ c. plain_comp c ≡ text_core (known_at known.entry) place (scope_in context.old) tree.now (sort_at want.entry)) }
    ensures scope { OnOk result (scope_in context.new ≡ scope_in context.old) }
{
    match tree {
        BodyTree::Let(name, note, part, rest) => {
            let sort = bound_sort(alloc, known, note, part, context)?;
            let effect = effect_of(known, place, part);
            let bound = core_bound(alloc, known, place, note, part, context);
            let rest = core_under(alloc, known, place, rest.get(), sort, false, want, context);
            bound_text(alloc, known, place, effect, name, bound, rest)
        }
        BodyTree::GhostLet(name, note, part, rest) => {
            let sort = bound_sort(alloc, known, note, part, context)?;
            let bound = core_bound(alloc, known, Effect::Ghost, note, part, context);
            let rest = core_under(alloc, known, place, rest.get(), sort, true, want, context);
            ghost_text(alloc, name, bound, rest)
        }
        BodyTree::Assert(form, at, rest) => {
            let form = core_term(alloc, known.applied, form, Some(&Sort::Bool), context);
            let rest = core_body(alloc, known, place, rest.get(), want, context);
            let (form, rest) = pair(form, rest)?;
            made(alloc, Comp::Assert(form, *at, rest))
        }
        BodyTree::If(test, left, right) => {
            let own = given_unless(alloc, known, tree, want, context)?;
            let side = or_else(want, as_given(&own));
            let test = core_term(alloc, known.applied, test, Some(&Sort::Bool), context);
            let left = core_body(alloc, known, place, left.get(), side, context);
            let right = core_body(alloc, known, place, right.get(), side, context);
            let (test, (left, right)) = pair(test, pair(left, right))?;
            made(alloc, Comp::If(test, left, right))
        }
        BodyTree::Match(form, at, arms) => {
            let own = given_unless(alloc, known, tree, want, context)?;
            let side = or_else(want, as_given(&own));
            let sort = matched_sort(alloc, known, form, context)?;
            let form = core_term(alloc, known.applied, form, None, context);
            let arms = arms.as_slice();
            let arms = core_arms(alloc, known, place, arms, sort.get(), side, context);
            match_text(alloc, form, *at, arms)
        }
        BodyTree::Part(part) => core_tail(alloc, known, place, part, want, context),
    }
}

/// The core text that is bound to a variable.
#[cycle(core)]
fn core_bound(
    alloc: Global,
    known: Known<'_>,
    place: Effect,
    note: &Option<SortTree<Ref>>,
    part: &PartTree<Ref>,
    context: &mut Context,
) -> Made
    ensures text { IfOk result (λ c. plain_comp c ≡ part_core (known_at known.entry) place (scope_in context.old) part.now (note_of note.now)) }
    ensures scope { OnOk result (scope_in context.new ≡ scope_in context.old) }
{
    let note = noted(alloc, note)?;
    core_part(alloc, known, place, part, as_given(&note), context)
}

/// The core text behind a variable of this sort.
#[cycle(core)]
fn core_under(
    alloc: Global,
    known: Known<'_>,
    place: Effect,
    tree: &BodyTree<Ref>,
    sort: Box<Sort>,
    hidden: bool,
    want: Option<&Sort>,
    context: &mut Context,
) -> Made
    ensures text { IfOk result (λ c. plain_comp c ≡ text_core (known_at known.entry) place (T.entry hidden (plain_sort sort) ∷ scope_in context.old) tree.now (sort_at want.entry)) }
    ensures scope { OnOk result (scope_in context.new ≡ scope_in context.old) }
{
    context.push(Entry { sort, hidden })?;
    let body = core_body(alloc, known, place, tree, want, context);
    context.pop();
    body
}

/// The core text of an arm's body, with the names of its pattern in scope.
#[cycle(core)]
fn core_arm(
    alloc: Global,
    known: Known<'_>,
    place: Effect,
    tree: &BodyTree<Ref>,
    con: ConWord,
    sort: &Sort,
    want: Option<&Sort>,
    context: &mut Context,
) -> Made
    ensures text { IfOk result (λ c. plain_comp c ≡ text_core (known_at known.entry) place (pattern_scope con (plain_sort sort.now) (scope_in context.old)) tree.now (sort_at want.entry)) }
    ensures scope { OnOk result (scope_in context.new ≡ scope_in context.old) }
{
    bind(alloc, con, sort, context)?;
    let body = core_body(alloc, known, place, tree, want, context);
    unbind(con, sort, context);
    body
}

/// The core text of the arms of a match of this sort.
#[cycle(core)]
#[tactic(auto, using(crate::proofs::CoreLemmas::arm_lists))]
fn core_arms(
    alloc: Global,
    known: Known<'_>,
    place: Effect,
    arms: &[ArmTree<BodyTree<Ref>>],
    sort: &Sort,
    want: Option<&Sort>,
    context: &mut Context,
) -> Result<Seq<Arm<Comp>>, OutOfMemory>
    ensures arms { IfOk result (λ bs. made_arms bs ≡ arms_core (known_at known.entry) place (scope_in context.old) (plain_sort sort.now) arms.now (sort_at want.entry)) }
    ensures scope { OnOk result (scope_in context.new ≡ scope_in context.old) }
{
    let mut made = Seq::new(alloc);
    for index in 0..arms.len() {
        let arm = &arms[index];
        let con = arm.con;
        let names = copy_texts(alloc, arm.names.as_slice());
        let body = core_arm(alloc, known, place, &arm.body, con, sort, want, context);
        let (names, body) = pair(names, body)?;
        made.push(Arm {
            con: core_con(con),
            names,
            body: body.into_inner(),
        })?;
    }
    Ok(made)
}

/// The core text of a part that is a tail: behind lifts, or returned, where its effect asks for it.
#[cycle(core)]
#[tactic(auto, using(crate::proofs::CoreLemmas::tails))]
fn core_tail(
    alloc: Global,
    known: Known<'_>,
    place: Effect,
    part: &PartTree<Ref>,
    want: Option<&Sort>,
    context: &mut Context,
) -> Made
    ensures text { IfOk result (λ c. plain_comp c ≡ tail_core (known_at known.entry) place (scope_in context.old) part.now (sort_at want.entry)) }
    ensures scope { OnOk result (scope_in context.new ≡ scope_in context.old) }
{
    let effect = effect_of(known, place, part);
    let text = core_part(alloc, known, place, part, want, context);
    if is_block(part) {
        text
    } else {
        tail_text(alloc, known, place, effect, text)
    }
}

/// The core text that a part is.
#[cycle(core)]
#[tactic(auto, using(crate::proofs::CoreLemmas::parts))]
fn core_part(
    alloc: Global,
    known: Known<'_>,
    place: Effect,
    part: &PartTree<Ref>,
    want: Option<&Sort>,
    context: &mut Context,
) -> Made
    ensures text { IfOk result (λ c. plain_comp c ≡ part_core (known_at known.entry) place (scope_in context.old) part.now (sort_at want.entry)) }
    ensures scope { OnOk result (scope_in context.new ≡ scope_in context.old) }
{
    match &part.node {
        PartNode::Block(body) => core_body(alloc, known, place, body.get(), want, context),
        PartNode::Call(name, args) => {
            let args = core_args(alloc, known, *name, args.as_slice(), context)?;
            made(alloc, Comp::Call(name.index, args, part.at))
        }
        PartNode::Reify(name, sort, body, input) => {
            let effect = effect_at(known.effects, name.index);
            let value = boxed_sort(alloc, sort)?;
            let inner = Effect::User(name.index);
            let body = core_body(alloc, known, inner, body.get(), Some(value.get()), context);
            let input = core_term(alloc, known.applied, input, input_sort(effect), context);
            let (body, input) = pair(body, input)?;
            made(
                alloc,
                Comp::Reify(name.index, value.into_inner(), body, input),
            )
        }
        PartNode::Reflect(name, sort, word, body) => {
            let effect = effect_at(known.effects, name.index);
            let value = boxed_sort(alloc, sort)?;
            let body = core_reflect(alloc, known, body.get(), effect, value.get(), context);
            let (word, body) = pair(word.text.copy(alloc), body)?;
            made(
                alloc,
                Comp::Reflect(name.index, value.into_inner(), word, body),
            )
        }
        PartNode::Term(form) => {
            let term = core_term(alloc, known.applied, form, want, context)?;
            made(alloc, Comp::Ret(term))
        }
    }
}

/// The core text of a reflect's text: of the effect's base, with its input in scope, and a sort of its results wanted.
#[cycle(core)]
fn core_reflect(
    alloc: Global,
    known: Known<'_>,
    tree: &BodyTree<Ref>,
    effect: Option<&EffectDef>,
    value: &Sort,
    context: &mut Context,
) -> Made
    ensures text { IfOk result (λ c. plain_comp c ≡ text_core (known_at known.entry) (T.base_of (effect_at effect.entry)) (T.entry false (or_unit (T.input_sort (effect_at effect.entry))) ∷ scope_in context.old) tree.now (T.result_sort (effect_at effect.entry) (plain_sort value.now))) }
    ensures scope { OnOk result (scope_in context.new ≡ scope_in context.old) }
{
    let input = boxed(alloc, sort_or_unit(copied(alloc, input_sort(effect))))?;
    let result = result_sort(alloc, effect, value)?;
    let base = base_of(effect);
    core_under(
        alloc,
        known,
        base,
        tree,
        input,
        false,
        as_given(&result),
        context,
    )
}
