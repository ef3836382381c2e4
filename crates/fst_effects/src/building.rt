//! The core terms that terms are, where a sort is wanted, or none.

ghost use Rattle.std.specs.Prelude.{◌≡◌, ◌∷◌, Ok, IfOk, OnOk, Option};
ghost use Rattle.fst_base.specs.declared.sort.Sort.{Sort};
ghost use Rattle.fst_base.specs.Sorts.{Srt, plain_sort};
ghost use Rattle.fst_program.specs.LiftPaths.{or_else};
ghost use Rattle.fst_terms.specs.declared.term.Term.{Term};
ghost use Rattle.fst_terms.specs.Terms.{plain_term, plain_terms, t_let};
ghost use Rattle.fst_effects.specs.Known.{or_unit};
ghost use Rattle.fst_effects.specs.Scopes.{applied_in, known_sort, scope_in, sort_at, wants_in};
ghost use Rattle.fst_effects.specs.TermChecks.{app_core, applied_sort, form_core, forms_core, prim_core, prim_given_at, rest_core};
ghost use Rattle.fst_effects.specs.TermSorts.{visible};

use crate::callee::{Callee, callee_of};
use crate::checking::{params_of, seen_parts};
use crate::giving::{applied_sort, given, given_prim};
use crate::primitives::prim_wants;
use crate::scope::{Context, Entry};
use crate::sorts::{Known, as_given, or_else};
use crate::wanted::{Wants, want_of};
use fst_base::{Box, Op, OutOfMemory, Pos, Seq, Sort, boxed, pair};
use fst_names::Ref;
use fst_terms::Term;
use fst_trees::{Form, FormNode, Word};
use std::alloc::Global;

/// The sort, or unit where none is known.
#[tactic(auto, using(crate::proofs::PlainLemmas::sorts))]
pub fn sort_or_unit(sort: Known) -> Result<Sort, OutOfMemory>
    ensures { IfOk result (λ s. (o : Option Sort) × ((sort ≡ Ok o) × (plain_sort s ≡ or_unit (known_sort o)))) }
{
    match sort? {
        Some(sort) => Ok(sort.into_inner()),
        None => Ok(Sort::Unit),
    }
}

/// The sort that is wanted of a primitive, else the one that it gives.
fn prim_sort(
    alloc: Global,
    callees: &[Callee],
    at: Pos,
    op: Op,
    args: &[Form<Ref>],
    want: Option<&Sort>,
    context: &mut Context,
) -> Result<Sort, OutOfMemory>
    ensures sort { IfOk result (λ s. plain_sort s ≡ or_unit (or_else (sort_at want.entry) (prim_given_at (applied_in callees.now) (scope_in context.old) at op args.now))) }
    ensures scope { OnOk result (scope_in context.new ≡ scope_in context.old) }
{
    match want {
        Some(want) => want.copy(alloc),
        None => sort_or_unit(given_prim(alloc, callees, at, op, args, context)),
    }
}

/// The core term that a term is where a sort is wanted, or none.
#[cycle(core)]
#[tactic(auto, using(crate::proofs::CoreLemmas::terms))]
pub fn core_term(
    alloc: Global,
    callees: &[Callee],
    form: &Form<Ref>,
    want: Option<&Sort>,
    context: &mut Context,
) -> Result<Term, OutOfMemory>
    ensures term { IfOk result (λ t. plain_term t ≡ form_core (applied_in callees.now) (scope_in context.old) form.now (sort_at want.entry)) }
    ensures scope { OnOk result (scope_in context.new ≡ scope_in context.old) }
{
    match &form.node {
        FormNode::Ident(name) => Ok(Term::Var(name.index)),
        FormNode::Int(number) => Ok(Term::Int(*number)),
        FormNode::Bool(truth) => Ok(Term::Bool(*truth)),
        FormNode::Unit => Ok(Term::Unit),
        FormNode::Prim(op, args) => {
            core_prim(alloc, callees, form.at, *op, args.as_slice(), want, context)
        }
        FormNode::If(test, left, right) => {
            let own = given(alloc, callees, form, context)?;
            let side = or_else(as_given(&own), want);
            let test = boxed(
                alloc,
                core_term(alloc, callees, test.get(), Some(&Sort::Bool), context),
            );
            let left = boxed(alloc, core_term(alloc, callees, left.get(), side, context));
            let right = boxed(alloc, core_term(alloc, callees, right.get(), side, context));
            let (test, (left, right)) = pair(test, pair(left, right))?;
            Ok(Term::If(test, left, right))
        }
        FormNode::App(name, args) => core_app(
            alloc,
            callees,
            form.at,
            *name,
            args.as_slice(),
            context,
        ),
        FormNode::Let(word, bound, body) => {
            let sort = given(alloc, callees, bound.get(), context);
            let bound = boxed(alloc, core_term(alloc, callees, bound.get(), None, context));
            core_let(alloc, callees, body.get(), word, sort, bound, want, context)
        }
    }
}

/// The core term of a primitive.
#[cycle(core)]
#[tactic(auto, using(crate::proofs::CoreLemmas::primitives))]
fn core_prim(
    alloc: Global,
    callees: &[Callee],
    at: Pos,
    op: Op,
    args: &[Form<Ref>],
    want: Option<&Sort>,
    context: &mut Context,
) -> Result<Term, OutOfMemory>
    ensures term { IfOk result (λ t. plain_term t ≡ prim_core (applied_in callees.now) (scope_in context.old) at op args.now (sort_at want.entry)) }
    ensures scope { OnOk result (scope_in context.new ≡ scope_in context.old) }
{
    let parts = seen_parts(alloc, callees, op, args, context)?;
    let wants = prim_wants(alloc, op, &parts, want)?;
    let sort = prim_sort(alloc, callees, at, op, args, want, context);
    let args = core_forms(alloc, callees, args, Wants::Parts(&wants), context);
    let (sort, args) = pair(sort, args)?;
    Ok(Term::Prim(op, sort, args, at))
}

/// The core term of an application.
#[cycle(core)]
#[tactic(auto, using(crate::proofs::CoreLemmas::applications))]
fn core_app(
    alloc: Global,
    callees: &[Callee],
    at: Pos,
    name: Ref,
    args: &[Form<Ref>],
    context: &mut Context,
) -> Result<Term, OutOfMemory>
    ensures term { IfOk result (λ t. (W : Option Srt) → plain_term t ≡ app_core (applied_in callees.now) (scope_in context.old) at name args.now W) }
    ensures scope { OnOk result (scope_in context.new ≡ scope_in context.old) }
{
    let wants = Wants::Params(params_of(callee_of(callees, name)));
    let sort = sort_or_unit(applied_sort(alloc, callees, name));
    let args = core_forms(alloc, callees, args, wants, context);
    let (sort, args) = pair(sort, args)?;
    Ok(Term::App(name.index, sort, args))
}

/// The core term of a let, where what it binds gives this sort and is this core term.
#[cycle(core)]
#[tactic(auto, using(crate::proofs::CoreLemmas::lets))]
fn core_let(
    alloc: Global,
    callees: &[Callee],
    body: &Form<Ref>,
    word: &Word,
    sort: Known,
    bound: Result<Box<Term>, OutOfMemory>,
    want: Option<&Sort>,
    context: &mut Context,
) -> Result<Term, OutOfMemory>
    ensures term { IfOk result (λ t. (s : Option Sort) × ((b : Term) × ((sort ≡ Ok s) × (bound ≡ Ok b) × (plain_term t ≡ t_let word.now.text (plain_term b) (rest_core (applied_in callees.now) (visible (or_unit (known_sort s)) ∷ scope_in context.old) body.now (sort_at want.entry)))))) }
    ensures scope { OnOk result (scope_in context.new ≡ scope_in context.old) }
{
    let sort = boxed(alloc, sort_or_unit(sort))?;
    let body = boxed(alloc, core_under(alloc, callees, body, sort, want, context));
    let (name, (bound, body)) = pair(word.text.copy(alloc), pair(bound, body))?;
    Ok(Term::Let(name, bound, body))
}

/// The core term of a let's body, with its variable in scope.
#[cycle(core)]
fn core_under(
    alloc: Global,
    callees: &[Callee],
    body: &Form<Ref>,
    sort: Box<Sort>,
    want: Option<&Sort>,
    context: &mut Context,
) -> Result<Term, OutOfMemory>
    ensures term { IfOk result (λ t. plain_term t ≡ rest_core (applied_in callees.now) (visible (plain_sort sort) ∷ scope_in context.old) body.now (sort_at want.entry)) }
    ensures scope { OnOk result (scope_in context.new ≡ scope_in context.old) }
{
    context.push(Entry {
        sort,
        hidden: false,
    })?;
    let body = core_rest(alloc, callees, body, want, context);
    context.pop();
    body
}

/// The core term of a let's body: it has the sort that it gives, and the one that is wanted only where it gives none.
#[cycle(core)]
fn core_rest(
    alloc: Global,
    callees: &[Callee],
    body: &Form<Ref>,
    want: Option<&Sort>,
    context: &mut Context,
) -> Result<Term, OutOfMemory>
    ensures term { IfOk result (λ t. plain_term t ≡ rest_core (applied_in callees.now) (scope_in context.old) body.now (sort_at want.entry)) }
    ensures scope { OnOk result (scope_in context.new ≡ scope_in context.old) }
{
    let own = given(alloc, callees, body, context)?;
    core_term(alloc, callees, body, or_else(as_given(&own), want), context)
}

/// The core terms of these, where these sorts are wanted of them.
#[cycle(core)]
#[tactic(auto, using(crate::proofs::CoreLemmas::lists))]
pub fn core_forms(
    alloc: Global,
    callees: &[Callee],
    forms: &[Form<Ref>],
    wants: Wants<'_>,
    context: &mut Context,
) -> Result<Seq<Term>, OutOfMemory>
    ensures terms { IfOk result (λ ts. plain_terms ts ≡ forms_core (applied_in callees.now) (scope_in context.old) forms.now (wants_in wants.entry)) }
    ensures scope { OnOk result (scope_in context.new ≡ scope_in context.old) }
{
    let mut terms = Seq::new(alloc);
    for index in 0..forms.len() {
        let want = want_of(wants, index);
        terms.push(core_term(alloc, callees, &forms[index], want, context)?)?;
    }
    Ok(terms)
}
