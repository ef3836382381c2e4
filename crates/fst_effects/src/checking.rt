//! What terms break where a sort is wanted, or none.

ghost use Rattle.std.specs.Prelude.{◌≡◌, ◌∷◌, Ok, IfOk, OnOk, Option, true, map, option_map};
ghost use Rattle.fst_base.specs.declared.sort.Sort.{Sort};
ghost use Rattle.fst_base.specs.Sorts.{plain_sort};
ghost use Rattle.fst_names.specs.Broken.{inner, least};
ghost use Rattle.fst_names.specs.declared.broken.Broken.{Broken};
ghost use Rattle.fst_effects.specs.Scopes.{applied_at, applied_in, callee_at, entry_of, known_sort, parts_in, scope_in, sort_at, wants_in};
ghost use Rattle.fst_effects.specs.TermChecks.{app_at, arg_given, clash_of, fits_by_parts, form_breaks, first_at, forms_break, giving_breaks, local_breaks, prim_at, rest_breaks, rest_where, seen};
ghost use Rattle.fst_effects.specs.TermSorts.{args_of, visible};

use crate::callee::{Callee, Place, callee_of};
use crate::faults::{clash, misused, need, not_applied};
use crate::giving::{given, given_arg};
use crate::primitives::{fits_by_parts, prim_need, prim_own, prim_wants};
use crate::scope::{Context, Entry};
use crate::sorts::{Known, as_given, or_else};
use crate::wanted::{Parts, Wants, both_parts, want_of};
use fst_base::{Box, Op, OutOfMemory, Pos, Sort, pair};
use fst_names::{Broken, Ref, inner, least};
use fst_trees::{Form, FormNode};
use std::alloc::Global;

/// A broken rule that answers, none where none is broken, or want of memory.
pub type Found = Result<Option<Broken>, OutOfMemory>;

/// What a variable breaks.
fn check_local(
    ghost_place: bool,
    at: Pos,
    name: Ref,
    want: Option<&Sort>,
    context: &Context,
) -> Option<Broken>
    ensures { result ≡ local_breaks ghost_place (scope_in context.now) at name (sort_at want.entry) }
{
    let variable = context.find(name.index);
    let sort = match variable {
        Some(variable) => Some(variable.sort.get()),
        None => None,
    };
    least(misused(ghost_place, at, variable), clash(at, sort, want))
}

/// What the parts break, else what the whole breaks by itself.
pub fn inner_of(parts: Found, own: Option<Broken>) -> Found
    ensures { IfOk result (λ found. (o : Option Broken) × ((parts ≡ Ok o) × (found ≡ inner o own))) }
{
    Ok(inner(parts?, own))
}

/// What the first breaks, and what the second does.
pub fn joined(first: Found, second: Found) -> Found
    ensures { IfOk result (λ found. (o : Option Broken) × ((p : Option Broken) × ((first ≡ Ok o) × (second ≡ Ok p) × (found ≡ least o p)))) }
{
    Ok(least(first?, second?))
}

/// The parameters of a function.
pub fn params_of(function: Option<&Callee>) -> &[Entry]
    ensures { map entry_of result.now ≡ args_of (callee_at function.entry) }
{
    match function {
        Some(function) => function.args.as_slice(),
        None => &[],
    }
}

/// The sort of a function's value.
pub fn value_of(function: Option<&Callee>) -> Option<&Sort>
    ensures { sort_at result ≡ option_map (λ f. f.sort) (callee_at function.entry) }
{
    match function {
        Some(function) => Some(function.sort.get()),
        None => None,
    }
}

/// What the two first arguments give, where what is wanted of them depends on it.
pub(crate) fn seen_parts(
    alloc: Global,
    callees: &[Callee],
    op: Op,
    args: &[Form<Ref>],
    context: &mut Context,
) -> Result<Parts, OutOfMemory>
    ensures parts { IfOk result (λ p. parts_in p ≡ seen (fits_by_parts op) (arg_given (applied_in callees.now) (scope_in context.old) args.now 0) (arg_given (applied_in callees.now) (scope_in context.old) args.now 1)) }
    ensures scope { OnOk result (scope_in context.new ≡ scope_in context.old) }
{
    if fits_by_parts(op) {
        let first = given_arg(alloc, callees, args, 0, context);
        both_parts(first, given_arg(alloc, callees, args, 1, context))
    } else {
        both_parts(Ok(None), Ok(None))
    }
}

/// The place of the first argument, or this one.
fn first_at(at: Pos, args: &[Form<Ref>]) -> Pos
    ensures { result ≡ first_at at args.now }
{
    match args.get(0) {
        Some(arg) => arg.at,
        None => at,
    }
}

/// What a term breaks where a sort is wanted, or none.
#[cycle(check)]
#[tactic(auto, using(crate::proofs::CheckLemmas::checks))]
pub fn check_term(
    alloc: Global,
    place: Place<'_>,
    form: &Form<Ref>,
    want: Option<&Sort>,
    context: &mut Context,
) -> Found
    ensures broken { IfOk result (λ found. found ≡ form_breaks (applied_at place.entry) place.entry.is_ghost (scope_in context.old) form.now (sort_at want.entry)) }
    ensures scope { OnOk result (scope_in context.new ≡ scope_in context.old) }
{
    match &form.node {
        FormNode::Ident(name) => Ok(check_local(place.is_ghost, form.at, *name, want, context)),
        FormNode::Int(_) => Ok(clash(form.at, Some(&Sort::Int), want)),
        FormNode::Bool(_) => Ok(clash(form.at, Some(&Sort::Bool), want)),
        FormNode::Unit => Ok(clash(form.at, Some(&Sort::Unit), want)),
        FormNode::Prim(op, args) => {
            check_prim(alloc, place, form.at, *op, args.as_slice(), want, context)
        }
        FormNode::If(test, left, right) => {
            let own = given(alloc, place.callees, form, context)?;
            let side = or_else(as_given(&own), want);
            let test = check_term(alloc, place, test.get(), Some(&Sort::Bool), context);
            let left = check_term(alloc, place, left.get(), side, context);
            let right = check_term(alloc, place, right.get(), side, context);
            let parts = joined(joined(test, left), right);
            inner_of(parts, clash(form.at, as_given(&own), want))
        }
        FormNode::App(name, args) => {
            check_app(alloc, place, form.at, *name, args.as_slice(), want, context)
        }
        FormNode::Let(_, bound, body) => {
            let sort = given(alloc, place.callees, bound.get(), context);
            let inside = check_giving(alloc, place, bound.get(), context);
            let body = body.get();
            check_let(alloc, place, form.at, body, sort, inside, want, context)
        }
    }
}

/// What a primitive breaks.
#[cycle(check)]
#[tactic(auto, using(crate::proofs::CheckLemmas::primitives))]
fn check_prim(
    alloc: Global,
    place: Place<'_>,
    at: Pos,
    op: Op,
    args: &[Form<Ref>],
    want: Option<&Sort>,
    context: &mut Context,
) -> Found
    ensures broken { IfOk result (λ found. found ≡ prim_at (applied_at place.entry) place.entry.is_ghost (scope_in context.old) at op args.now (sort_at want.entry)) }
    ensures scope { OnOk result (scope_in context.new ≡ scope_in context.old) }
{
    let parts = seen_parts(alloc, place.callees, op, args, context)?;
    let wants = prim_wants(alloc, op, &parts, want)?;
    let inside = check_forms(alloc, place, args, Wants::Parts(&wants), context)?;
    let inside = inner(inside, prim_need(first_at(at, args), op, &parts));
    Ok(inner(inside, prim_own(at, op, &parts, want)))
}

/// The place of an application's arguments.
fn formula(place: Place<'_>) -> Place<'_>
    ensures callees { applied_at result ≡ applied_at place.entry }
    ensures ghost_place { result.is_ghost ≡ true }
{
    Place {
        callees: place.callees,
        is_ghost: true,
    }
}

/// What an application breaks.
#[cycle(check)]
#[tactic(auto, using(crate::proofs::CheckLemmas::applications))]
fn check_app(
    alloc: Global,
    place: Place<'_>,
    at: Pos,
    name: Ref,
    args: &[Form<Ref>],
    want: Option<&Sort>,
    context: &mut Context,
) -> Found
    ensures broken { IfOk result (λ found. found ≡ app_at (applied_at place.entry) place.entry.is_ghost (scope_in context.old) at name args.now (sort_at want.entry)) }
    ensures scope { OnOk result (scope_in context.new ≡ scope_in context.old) }
{
    let function = callee_of(place.callees, name);
    let wants = Wants::Params(params_of(function));
    let inside = check_forms(alloc, formula(place), args, wants, context)?;
    let own = least(
        not_applied(at, function),
        clash(at, value_of(function), want),
    );
    Ok(inner(inside, own))
}

/// What a term breaks that has to give a sort.
#[cycle(check)]
pub fn check_giving(
    alloc: Global,
    place: Place<'_>,
    form: &Form<Ref>,
    context: &mut Context,
) -> Found
    ensures broken { IfOk result (λ found. found ≡ giving_breaks (applied_at place.entry) place.entry.is_ghost (scope_in context.old) form.now) }
    ensures scope { OnOk result (scope_in context.new ≡ scope_in context.old) }
{
    let sort = given(alloc, place.callees, form, context)?;
    let inside = check_term(alloc, place, form, None, context);
    inner_of(inside, need(form.at, as_given(&sort)))
}

/// What a let at a place breaks, where what it binds gives this sort and breaks this.
#[cycle(check)]
fn check_let(
    alloc: Global,
    place: Place<'_>,
    at: Pos,
    body: &Form<Ref>,
    sort: Known,
    inside: Found,
    want: Option<&Sort>,
    context: &mut Context,
) -> Found
    ensures broken { IfOk result (λ found. (s : Option Sort) × ((o : Option Broken) × ((sort ≡ Ok s) × (inside ≡ Ok o) × (found ≡ least o (rest_where (applied_at place.entry) place.entry.is_ghost (scope_in context.old) at body.now (sort_at want.entry) (known_sort s)))))) }
    ensures scope { OnOk result (scope_in context.new ≡ scope_in context.old) }
{
    let (sort, inside) = pair(sort, inside)?;
    match sort {
        None => Ok(inside),
        Some(sort) => {
            let rest = check_under(alloc, place, at, body, sort, want, context);
            joined(Ok(inside), rest)
        }
    }
}

/// What the body of a let at this place breaks, with its variable in scope.
#[cycle(check)]
fn check_under(
    alloc: Global,
    place: Place<'_>,
    at: Pos,
    body: &Form<Ref>,
    sort: Box<Sort>,
    want: Option<&Sort>,
    context: &mut Context,
) -> Found
    ensures broken { IfOk result (λ found. found ≡ rest_breaks (applied_at place.entry) place.entry.is_ghost (visible (plain_sort sort) ∷ scope_in context.old) at body.now (sort_at want.entry)) }
    ensures scope { OnOk result (scope_in context.new ≡ scope_in context.old) }
{
    context.push(Entry {
        sort,
        hidden: false,
    })?;
    let found = check_rest(alloc, place, at, body, want, context);
    context.pop();
    found
}

/// What the body of a let at this place breaks: it has the sort that it gives, and the one that is wanted only where it gives none.
#[cycle(check)]
fn check_rest(
    alloc: Global,
    place: Place<'_>,
    at: Pos,
    body: &Form<Ref>,
    want: Option<&Sort>,
    context: &mut Context,
) -> Found
    ensures broken { IfOk result (λ found. found ≡ rest_breaks (applied_at place.entry) place.entry.is_ghost (scope_in context.old) at body.now (sort_at want.entry)) }
    ensures scope { OnOk result (scope_in context.new ≡ scope_in context.old) }
{
    let own = given(alloc, place.callees, body, context)?;
    let side = or_else(as_given(&own), want);
    let inside = check_term(alloc, place, body, side, context);
    inner_of(inside, clash(at, as_given(&own), want))
}

/// What any of these breaks, where these sorts are wanted of them.
#[cycle(check)]
#[tactic(auto, using(crate::proofs::CheckLemmas::lists))]
pub(crate) fn check_forms(
    alloc: Global,
    place: Place<'_>,
    forms: &[Form<Ref>],
    wants: Wants<'_>,
    context: &mut Context,
) -> Found
    ensures broken { IfOk result (λ found. found ≡ forms_break (applied_at place.entry) place.entry.is_ghost (scope_in context.old) forms.now (wants_in wants.entry)) }
    ensures scope { OnOk result (scope_in context.new ≡ scope_in context.old) }
{
    let mut found = None;
    for index in 0..forms.len() {
        let want = want_of(wants, index);
        found = least(
            found,
            check_term(alloc, place, &forms[index], want, context)?,
        );
    }
    Ok(found)
}
