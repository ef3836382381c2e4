//! The sorts that terms give.

ghost use Rattle.std.specs.Prelude.{◌≡◌, ◌∷◌, Ok, IfOk, OnOk, Option, option_map, slice_get};
ghost use Rattle.fst_base.specs.declared.sort.Sort.{Sort};
ghost use Rattle.fst_base.specs.Sorts.{plain_sort, s_list, s_opt};
ghost use Rattle.fst_program.specs.LiftPaths.{or_else};
ghost use Rattle.fst_effects.specs.Known.{with_sort};
ghost use Rattle.fst_effects.specs.Scopes.{applied_in, known_sort, scope_in};
ghost use Rattle.fst_effects.specs.TermChecks.{applied_sort, arg_given, form_given, prim_given_at};
ghost use Rattle.fst_effects.specs.TermSorts.{item_of, left_of, pair_of, right_of, sort_in, visible};

use crate::callee::{Callee, callee_of};
use crate::scope::{Context, Entry};
use crate::sorts::{
    Known, as_given, copied, item_of, known, left_of, list_sort, option_sort, pair_of, right_of,
};
use fst_base::{Box, Op, Pos, Sort, pair};
use fst_names::Ref;
use fst_trees::{Form, FormNode};
use std::alloc::Global;

/// The sort of a variable.
fn local_sort(alloc: Global, context: &Context, name: Ref) -> Known
    ensures { IfOk result (λ s. known_sort s ≡ sort_in (slice_get (scope_in context.now) name.index)) }
{
    match context.find(name.index) {
        Some(variable) => copied(alloc, Some(variable.sort.get())),
        None => Ok(None),
    }
}

/// The sort of an application.
#[tactic(auto, unfolding(crate::specs::TermChecks::applied_sort))]
pub(crate) fn applied_sort(alloc: Global, callees: &[Callee], name: Ref) -> Known
    ensures { IfOk result (λ s. known_sort s ≡ applied_sort (applied_in callees.now) name) }
{
    match callee_of(callees, name) {
        Some(function) => copied(alloc, Some(function.sort.get())),
        None => Ok(None),
    }
}

/// The sort of pairs of what both give.
fn given_pair(alloc: Global, first: Known, second: Known) -> Known
    ensures { IfOk result (λ s. (f : Option Sort) × ((g : Option Sort) × ((first ≡ Ok f) × (second ≡ Ok g) × (known_sort s ≡ pair_of (known_sort f) (known_sort g))))) }
{
    let (first, second) = pair(first, second)?;
    pair_of(alloc, first, second)
}

/// The left part of the pair.
fn given_left(alloc: Global, whole: Known) -> Known
    ensures { IfOk result (λ s. (f : Option Sort) × ((whole ≡ Ok f) × (known_sort s ≡ with_sort (known_sort f) left_of))) }
{
    let whole = whole?;
    copied(alloc, left_of(as_given(&whole)))
}

/// The right part of the pair.
fn given_right(alloc: Global, whole: Known) -> Known
    ensures { IfOk result (λ s. (f : Option Sort) × ((whole ≡ Ok f) × (known_sort s ≡ with_sort (known_sort f) right_of))) }
{
    let whole = whole?;
    copied(alloc, right_of(as_given(&whole)))
}

/// An item of the list.
fn given_item(alloc: Global, list: Known) -> Known
    ensures { IfOk result (λ s. (f : Option Sort) × ((list ≡ Ok f) × (known_sort s ≡ with_sort (known_sort f) item_of))) }
{
    let list = list?;
    copied(alloc, item_of(as_given(&list)))
}

/// The sort of options of this.
fn given_option(alloc: Global, value: Known) -> Known
    ensures { IfOk result (λ s. (f : Option Sort) × ((value ≡ Ok f) × (known_sort s ≡ option_map s_opt (known_sort f)))) }
{
    option_sort(alloc, value?)
}

/// The sort of lists of this.
fn given_list(alloc: Global, item: Known) -> Known
    ensures { IfOk result (λ s. (f : Option Sort) × ((item ≡ Ok f) × (known_sort s ≡ option_map s_list (known_sort f)))) }
{
    list_sort(alloc, item?)
}

/// The sort that a term gives.
#[cycle(given)]
#[tactic(auto, using(crate::proofs::GivenLemmas::terms))]
pub fn given(alloc: Global, callees: &[Callee], form: &Form<Ref>, context: &mut Context) -> Known
    ensures sort { IfOk result (λ s. known_sort s ≡ form_given (applied_in callees.now) (scope_in context.old) form.now) }
    ensures scope { OnOk result (scope_in context.new ≡ scope_in context.old) }
{
    match &form.node {
        FormNode::Ident(name) => local_sort(alloc, context, *name),
        FormNode::Int(_) => known(alloc, Sort::Int),
        FormNode::Bool(_) => known(alloc, Sort::Bool),
        FormNode::Unit => known(alloc, Sort::Unit),
        FormNode::Prim(op, args) => {
            given_prim(alloc, callees, form.at, *op, args.as_slice(), context)
        }
        FormNode::If(_, left, right) => match given(alloc, callees, left.get(), context)? {
            Some(sort) => Ok(Some(sort)),
            None => given(alloc, callees, right.get(), context),
        },
        FormNode::App(function, _) => applied_sort(alloc, callees, *function),
        FormNode::Let(_, bound, body) => match given(alloc, callees, bound.get(), context)? {
            None => Ok(None),
            Some(sort) => given_under(alloc, callees, body.get(), sort, context),
        },
    }
}

/// The sort that a term gives with one variable more in scope.
#[cycle(given)]
fn given_under(
    alloc: Global,
    callees: &[Callee],
    form: &Form<Ref>,
    sort: Box<Sort>,
    context: &mut Context,
) -> Known
    ensures sort { IfOk result (λ s. known_sort s ≡ form_given (applied_in callees.now) (visible (plain_sort sort) ∷ scope_in context.old) form.now) }
    ensures scope { OnOk result (scope_in context.new ≡ scope_in context.old) }
{
    context.push(Entry {
        sort,
        hidden: false,
    })?;
    let found = given(alloc, callees, form, context);
    context.pop();
    found
}

/// The sort that the argument of this number gives.
#[cycle(given)]
#[tactic(auto, using(crate::proofs::GivenLemmas::arguments))]
pub(crate) fn given_arg(
    alloc: Global,
    callees: &[Callee],
    args: &[Form<Ref>],
    index: usize,
    context: &mut Context,
) -> Known
    ensures sort { IfOk result (λ s. known_sort s ≡ arg_given (applied_in callees.now) (scope_in context.old) args.now index) }
    ensures scope { OnOk result (scope_in context.new ≡ scope_in context.old) }
{
    if index < args.len() {
        given(alloc, callees, &args[index], context)
    } else {
        Ok(None)
    }
}

/// The sort of the items of a list term: what the first argument gives, else what the rest has.
#[cycle(given)]
pub(crate) fn given_items(
    alloc: Global,
    callees: &[Callee],
    args: &[Form<Ref>],
    context: &mut Context,
) -> Known
    ensures sort { IfOk result (λ s. known_sort s ≡ or_else (arg_given (applied_in callees.now) (scope_in context.old) args.now 0) (with_sort (arg_given (applied_in callees.now) (scope_in context.old) args.now 1) item_of)) }
    ensures scope { OnOk result (scope_in context.new ≡ scope_in context.old) }
{
    match given_arg(alloc, callees, args, 0, context)? {
        Some(sort) => Ok(Some(sort)),
        None => given_item(alloc, given_arg(alloc, callees, args, 1, context)),
    }
}

/// The sort that a primitive gives.
#[cycle(given)]
#[tactic(auto, using(crate::proofs::GivenLemmas::primitives))]
pub(crate) fn given_prim(
    alloc: Global,
    callees: &[Callee],
    at: Pos,
    op: Op,
    args: &[Form<Ref>],
    context: &mut Context,
) -> Known
    ensures sort { IfOk result (λ s. known_sort s ≡ prim_given_at (applied_in callees.now) (scope_in context.old) at op args.now) }
    ensures scope { OnOk result (scope_in context.new ≡ scope_in context.old) }
{
    match op {
        Op::Le | Op::Lt | Op::Eq => known(alloc, Sort::Bool),
        Op::Pair => {
            let first = given_arg(alloc, callees, args, 0, context);
            given_pair(alloc, first, given_arg(alloc, callees, args, 1, context))
        }
        Op::Fst => given_left(alloc, given_arg(alloc, callees, args, 0, context)),
        Op::Snd => given_right(alloc, given_arg(alloc, callees, args, 0, context)),
        Op::Just => given_option(alloc, given_arg(alloc, callees, args, 0, context)),
        Op::Cons => given_list(alloc, given_items(alloc, callees, args, context)),
        Op::Nothing | Op::Nil | Op::Inl | Op::Inr => Ok(None),
        Op::Hd | Op::Tl | Op::The | Op::Outl | Op::Outr => Ok(None),
        Op::Add | Op::Sub | Op::Mul | Op::Div | Op::Rem | Op::Neg | Op::Len => {
            known(alloc, Sort::Int)
        }
    }
}
