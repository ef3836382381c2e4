//! What bodies break at a place where a sort is wanted, or none.

ghost use Rattle.std.specs.Prelude.{◌≡◌, ◌∷◌, ◌||◌, Ok, IfOk, OnOk, Option, Some, false};
ghost use Rattle.fst_base.specs.declared.sort.Sort.{Sort};
ghost use Rattle.fst_base.specs.Sorts.{plain_sort};
ghost use Rattle.fst_program.specs.declared.effect.Effect.TheVariants as variant;
ghost use Rattle.fst_names.specs.Broken.{least};
ghost use Rattle.fst_names.specs.declared.broken.Broken.{Broken};
ghost use Rattle.fst_effects.specs.Known.{or_unit};
ghost use Rattle.fst_effects.specs.Scopes.{known_sort, scope_in, sort_at};
ghost use Rattle.fst_effects.specs.TermChecks.{clash_of, form_breaks, form_given, giving_breaks};
ghost use Rattle.fst_effects.specs.TextSorts as T;
ghost use Rattle.fst_effects.specs.TextSorts.{entry};
ghost use Rattle.fst_sorting.specs.Bodies.{arm_breaks, arms_break, arms_where, bound_breaks, bound_gives, part_breaks, rest_where, text_breaks};
ghost use Rattle.fst_sorting.specs.Sites.{effect_at, known_at, refused_of};

use crate::arguments::check_args;
use crate::effects::{base_of, callee_effect, effect_at, input_sort, refused, result_sort};
use crate::giving::{given_bound, given_unless};
use crate::known::{Known, Site};
use crate::written::{boxed_sort, noted};
use fst_base::{Box, OutOfMemory, Pos, Sort, both, boxed};
use fst_effects::{
    Context, Entry, Found, Place, as_given, bind, callee_of, check_giving, check_term, clash,
    copied, fits, given, inner_of, joined, need, or_else, params_of, sort_or_unit, unbind,
    value_of,
};
use fst_names::{Broken, Ref, least};
use fst_program::{Effect, EffectDef};
use fst_trees::{ArmTree, BodyTree, ConWord, Form, PartNode, PartTree, SortTree};
use std::alloc::Global;

/// A sort that may be given, with the broken rule that answers.
type Sorted = Result<(Option<Box<Sort>>, Option<Broken>), OutOfMemory>;

/// Where a term stands that is a part of a text.
pub fn place_of<'a>(known: Known<'a>, is_ghost: bool) -> Place<'a>
    ensures { result ≡ record { callees = known.entry.applied; is_ghost = is_ghost } }
{
    Place {
        callees: known.applied,
        is_ghost,
    }
}

/// What a body breaks.
#[cycle(check)]
#[tactic(auto, using(crate::proofs::CheckLemmas::texts))]
pub fn check_body(
    alloc: Global,
    known: Known<'_>,
    site: Site,
    tree: &BodyTree<Ref>,
    want: Option<&Sort>,
    context: &mut Context,
) -> Found
    ensures broken { IfOk result (λ found. found ≡ text_breaks (known_at known.entry) site.effect site.is_ghost (scope_in context.old) tree.now (sort_at want.entry)) }
    ensures scope { OnOk result (scope_in context.new ≡ scope_in context.old) }
{
    match tree {
        BodyTree::Let(_, note, part, rest) => {
            let bound = check_bound(alloc, known, site, note, part, false, context);
            check_rest(alloc, known, site, rest.get(), bound, false, want, context)
        }
        BodyTree::GhostLet(_, note, part, rest) => {
            let bound = check_bound(alloc, known, site, note, part, true, context);
            check_rest(alloc, known, site, rest.get(), bound, true, want, context)
        }
        BodyTree::Assert(form, _, rest) => {
            let place = place_of(known, true);
            let form = check_term(alloc, place, form, Some(&Sort::Bool), context);
            joined(
                form,
                check_body(alloc, known, site, rest.get(), want, context),
            )
        }
        BodyTree::If(test, left, right) => {
            let own = given_unless(alloc, known, tree, want, context)?;
            let side = or_else(want, as_given(&own));
            let place = place_of(known, site.is_ghost);
            let test = check_term(alloc, place, test, Some(&Sort::Bool), context);
            let left = check_body(alloc, known, site, left.get(), side, context);
            let right = check_body(alloc, known, site, right.get(), side, context);
            joined(joined(test, left), right)
        }
        BodyTree::Match(form, _, arms) => {
            let own = given_unless(alloc, known, tree, want, context)?;
            let side = or_else(want, as_given(&own));
            let inside = check_matched(alloc, known, site, form, context);
            check_match(alloc, known, site, arms.as_slice(), inside, side, context)
        }
        BodyTree::Part(part) => check_part(alloc, known, site, part, want, context),
    }
}

/// The sort of what a let binds, and what it breaks; a ghost let binds a ghost variable, where `hidden`.
#[cycle(check)]
#[tactic(auto, using(crate::proofs::CheckLemmas::bounds))]
fn check_bound(
    alloc: Global,
    known: Known<'_>,
    site: Site,
    note: &Option<SortTree<Ref>>,
    part: &PartTree<Ref>,
    hidden: bool,
    context: &mut Context,
) -> Sorted
    ensures sort { IfOk result (λ p. known_sort p.0 ≡ bound_gives (known_at known.entry) (scope_in context.old) note.now part.now) }
    ensures broken { IfOk result (λ p. p.1 ≡ bound_breaks (known_at known.entry) (T.bound_place hidden site.effect) (site.is_ghost || hidden) (scope_in context.old) note.now part.now (bound_gives (known_at known.entry) (scope_in context.old) note.now part.now)) }
    ensures scope { OnOk result (scope_in context.new ≡ scope_in context.old) }
{
    let sort = given_bound(alloc, known, note, part, context)?;
    let note = noted(alloc, note)?;
    let inside = check_part(
        alloc,
        known,
        site.bound(hidden),
        part,
        as_given(&note),
        context,
    );
    let inside = inner_of(inside, need(part.at, as_given(&sort)));
    both(sort, inside)
}

/// What the text behind a let breaks, where this is what it binds.
#[cycle(check)]
#[tactic(auto, using(crate::proofs::CheckLemmas::rests))]
fn check_rest(
    alloc: Global,
    known: Known<'_>,
    site: Site,
    tree: &BodyTree<Ref>,
    bound: Sorted,
    hidden: bool,
    want: Option<&Sort>,
    context: &mut Context,
) -> Found
    ensures broken { IfOk result (λ found. (s : Option Sort) × ((o : Option Broken) × ((bound ≡ Ok (record { 0 = s; 1 = o })) × (found ≡ least o (rest_where (known_at known.entry) site.effect site.is_ghost hidden (scope_in context.old) tree.now (sort_at want.entry) (known_sort s)))))) }
    ensures scope { OnOk result (scope_in context.new ≡ scope_in context.old) }
{
    let (sort, inside) = bound?;
    match sort {
        None => Ok(inside),
        Some(sort) => {
            let rest = check_under(alloc, known, site, tree, sort, hidden, want, context);
            joined(Ok(inside), rest)
        }
    }
}

/// What a body breaks with one variable more in scope.
#[cycle(check)]
fn check_under(
    alloc: Global,
    known: Known<'_>,
    site: Site,
    tree: &BodyTree<Ref>,
    sort: Box<Sort>,
    hidden: bool,
    want: Option<&Sort>,
    context: &mut Context,
) -> Found
    ensures broken { IfOk result (λ found. found ≡ text_breaks (known_at known.entry) site.effect site.is_ghost (entry hidden (plain_sort sort) ∷ scope_in context.old) tree.now (sort_at want.entry)) }
    ensures scope { OnOk result (scope_in context.new ≡ scope_in context.old) }
{
    context.push(Entry { sort, hidden })?;
    let found = check_body(alloc, known, site, tree, want, context);
    context.pop();
    found
}

/// The sort of what is matched, and what it breaks.
fn check_matched(
    alloc: Global,
    known: Known<'_>,
    site: Site,
    form: &Form<Ref>,
    context: &mut Context,
) -> Sorted
    ensures sort { IfOk result (λ p. known_sort p.0 ≡ form_given (known_at known.entry).applied (scope_in context.old) form.now) }
    ensures broken { IfOk result (λ p. p.1 ≡ giving_breaks (known_at known.entry).applied site.is_ghost (scope_in context.old) form.now) }
    ensures scope { OnOk result (scope_in context.new ≡ scope_in context.old) }
{
    let sort = given(alloc, known.applied, form, context)?;
    let place = place_of(known, site.is_ghost);
    both(sort, check_giving(alloc, place, form, context))
}

/// What the arms of a match break, where this is what is matched.
#[cycle(check)]
fn check_match(
    alloc: Global,
    known: Known<'_>,
    site: Site,
    arms: &[ArmTree<BodyTree<Ref>>],
    matched: Sorted,
    want: Option<&Sort>,
    context: &mut Context,
) -> Found
    ensures broken { IfOk result (λ found. (s : Option Sort) × ((o : Option Broken) × ((matched ≡ Ok (record { 0 = s; 1 = o })) × (found ≡ least o (arms_where (known_at known.entry) site.effect site.is_ghost (scope_in context.old) arms.now (sort_at want.entry) (known_sort s)))))) }
    ensures scope { OnOk result (scope_in context.new ≡ scope_in context.old) }
{
    let (sort, inside) = matched?;
    match sort {
        None => Ok(inside),
        Some(sort) => {
            let arms = check_arms(alloc, known, site, arms, sort.get(), want, context);
            joined(Ok(inside), arms)
        }
    }
}

/// What an arm breaks, whose pattern has to fit this sort.
#[cycle(check)]
#[tactic(auto, using(crate::proofs::CheckLemmas::arms))]
fn check_arm(
    alloc: Global,
    known: Known<'_>,
    site: Site,
    tree: &BodyTree<Ref>,
    at: Pos,
    con: ConWord,
    sort: &Sort,
    want: Option<&Sort>,
    context: &mut Context,
) -> Found
    ensures broken { IfOk result (λ found. found ≡ arm_breaks (known_at known.entry) site.effect site.is_ghost (scope_in context.old) (plain_sort sort.now) at con tree.now (sort_at want.entry)) }
    ensures scope { OnOk result (scope_in context.new ≡ scope_in context.old) }
{
    if !fits(con, sort) {
        return Ok(need(at, None));
    }
    bind(alloc, con, sort, context)?;
    let found = check_body(alloc, known, site, tree, want, context);
    unbind(con, sort, context);
    found
}

/// What any of the arms breaks.
#[cycle(check)]
#[tactic(auto, using(crate::proofs::CheckLemmas::arm_lists))]
fn check_arms(
    alloc: Global,
    known: Known<'_>,
    site: Site,
    arms: &[ArmTree<BodyTree<Ref>>],
    sort: &Sort,
    want: Option<&Sort>,
    context: &mut Context,
) -> Found
    ensures broken { IfOk result (λ found. found ≡ arms_break (known_at known.entry) site.effect site.is_ghost (scope_in context.old) (plain_sort sort.now) arms.now (sort_at want.entry)) }
    ensures scope { OnOk result (scope_in context.new ≡ scope_in context.old) }
{
    let mut found = None;
    for index in 0..arms.len() {
        let arm = &arms[index];
        let (at, con) = (arm.at, arm.con);
        let arm = check_arm(alloc, known, site, &arm.body, at, con, sort, want, context)?;
        found = least(found, arm);
    }
    Ok(found)
}

/// What a part of an effect and a sort breaks by itself.
fn own_of(
    known: Known<'_>,
    place: Effect,
    part: Effect,
    at: Pos,
    sort: Option<&Sort>,
    want: Option<&Sort>,
) -> Option<Broken>
    ensures { result ≡ least (refused_of (known_at known.entry) place part at) (clash_of at (sort_at sort.entry) (sort_at want.entry)) }
{
    least(refused(known, place, part, at), clash(at, sort, want))
}

/// What a reify breaks by itself, where values have this sort.
fn own_reify(
    alloc: Global,
    known: Known<'_>,
    place: Effect,
    name: Ref,
    value: &Sort,
    at: Pos,
    want: Option<&Sort>,
) -> Found
    ensures { IfOk result (λ found. found ≡ least (refused_of (known_at known.entry) place (T.base_of ((known_at known.entry).effects name.index)) at) (clash_of at (T.result_sort ((known_at known.entry).effects name.index) (plain_sort value.now)) (sort_at want.entry))) }
{
    let effect = effect_at(known.effects, name.index);
    let sort = result_sort(alloc, effect, value)?;
    let own = own_of(known, place, base_of(effect), at, as_given(&sort), want);
    Ok(own)
}

/// What the input of a reify breaks.
fn check_input(
    alloc: Global,
    known: Known<'_>,
    site: Site,
    name: Ref,
    input: &Form<Ref>,
    context: &mut Context,
) -> Found
    ensures broken { IfOk result (λ found. found ≡ form_breaks (known_at known.entry).applied site.is_ghost (scope_in context.old) input.now (T.input_sort ((known_at known.entry).effects name.index))) }
    ensures scope { OnOk result (scope_in context.new ≡ scope_in context.old) }
{
    let want = input_sort(effect_at(known.effects, name.index));
    check_term(alloc, place_of(known, site.is_ghost), input, want, context)
}

/// What a part breaks.
#[cycle(check)]
#[tactic(auto, using(crate::proofs::CheckLemmas::parts))]
fn check_part(
    alloc: Global,
    known: Known<'_>,
    site: Site,
    part: &PartTree<Ref>,
    want: Option<&Sort>,
    context: &mut Context,
) -> Found
    ensures broken { IfOk result (λ found. found ≡ part_breaks (known_at known.entry) site.effect site.is_ghost (scope_in context.old) part.now (sort_at want.entry)) }
    ensures scope { OnOk result (scope_in context.new ≡ scope_in context.old) }
{
    match &part.node {
        PartNode::Block(body) => check_body(alloc, known, site, body.get(), want, context),
        PartNode::Call(name, args) => {
            let function = callee_of(known.called, *name);
            let params = params_of(function);
            let inside = check_args(
                alloc,
                known,
                site.is_ghost,
                args.as_slice(),
                params,
                context,
            );
            let effect = callee_effect(function);
            let sort = value_of(function);
            inner_of(
                inside,
                own_of(known, site.effect, effect, part.at, sort, want),
            )
        }
        PartNode::Reify(name, sort, body, input) => {
            let value = boxed_sort(alloc, sort)?;
            let value = value.get();
            let own = own_reify(alloc, known, site.effect, *name, value, part.at, want)?;
            let body = check_reify(alloc, known, site, *name, body.get(), value, context);
            inner_of(
                joined(body, check_input(alloc, known, site, *name, input, context)),
                own,
            )
        }
        PartNode::Reflect(name, sort, _, body) => {
            let value = boxed_sort(alloc, sort)?;
            let value = value.get();
            let own = Effect::User(name.index);
            let own = own_of(known, site.effect, own, part.at, Some(value), want);
            let effect = effect_at(known.effects, name.index);
            let body = check_reflect(alloc, known, site, body.get(), effect, value, context);
            inner_of(body, own)
        }
        PartNode::Term(form) => {
            let place = place_of(known, site.is_ghost);
            check_term(alloc, place, form, want, context)
        }
    }
}

/// What the text of a reify breaks: at a place of the effect, where this sort is wanted.
#[cycle(check)]
fn check_reify(
    alloc: Global,
    known: Known<'_>,
    site: Site,
    name: Ref,
    tree: &BodyTree<Ref>,
    value: &Sort,
    context: &mut Context,
) -> Found
    ensures broken { IfOk result (λ found. found ≡ text_breaks (known_at known.entry) (variant.User name.index) site.is_ghost (scope_in context.old) tree.now (Some (plain_sort value.now))) }
    ensures scope { OnOk result (scope_in context.new ≡ scope_in context.old) }
{
    let inner = site.inside(Effect::User(name.index));
    check_body(alloc, known, inner, tree, Some(value), context)
}

/// What the text of a reflect breaks: at a place of the effect's base, with its input in scope, and a sort of its results wanted.
#[cycle(check)]
fn check_reflect(
    alloc: Global,
    known: Known<'_>,
    site: Site,
    tree: &BodyTree<Ref>,
    effect: Option<&EffectDef>,
    value: &Sort,
    context: &mut Context,
) -> Found
    ensures broken { IfOk result (λ found. found ≡ text_breaks (known_at known.entry) (T.base_of (effect_at effect.entry)) site.is_ghost (T.entry false (or_unit (T.input_sort (effect_at effect.entry))) ∷ scope_in context.old) tree.now (T.result_sort (effect_at effect.entry) (plain_sort value.now))) }
    ensures scope { OnOk result (scope_in context.new ≡ scope_in context.old) }
{
    let input = boxed(alloc, sort_or_unit(copied(alloc, input_sort(effect))))?;
    let result = result_sort(alloc, effect, value)?;
    let inner = site.inside(base_of(effect));
    check_under(
        alloc,
        known,
        inner,
        tree,
        input,
        false,
        as_given(&result),
        context,
    )
}
