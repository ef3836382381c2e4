//! What is inferred for a call: what it asks for, and what is known of its result.
ghost use Rattle.std.specs.Prelude.{◌≡◌, ◌∷◌, ◌++◌, [], map, if◌then◌else◌, Ok, IfOk, OnOk};
ghost use Rattle.fst_base.specs.Sorts.{plain_sort};
ghost use Rattle.fst_program.specs.Paths.{measures_at};
ghost use Rattle.fst_program.specs.Plain.{plain_fun, plain_program};
ghost use Rattle.fst_program.specs.Texts.{c_call, fun_at, if_there, is_pure, is_total, result_sort};
ghost use Rattle.fst_scopes.specs.Scopes.{terms_for};
ghost use Rattle.fst_star.specs.Inference.{call_wp, decreasing, equates, givens, known_after, needed};
ghost use Rattle.fst_star.specs.Inferring.{infer_in, nothing, scope_at};
ghost use Rattle.fst_star.specs.Plain.{plain_wp};
ghost use Rattle.fst_star.specs.Transformers.{w_fresh, w_post};
ghost use Rattle.fst_star.specs.declared.wp.Wp.{Wp};
ghost use Rattle.fst_terms.specs.Formulas.{equation, put};
ghost use Rattle.fst_terms.specs.Terms.{plain_term, plain_terms, row, shift, t_app, t_var};

use crate::dividing::{Made, args_needs, equation};
use crate::making::{Node, fresh, given, need, post};
use crate::plugging::nothing;
use crate::putting::{put_all, with_last};
use crate::raising::{raise, raise_terms};
use crate::spots::{Owner, Spot};
use crate::starting::{add_given, clause_terms, demands_of};
use crate::trail::copy_terms;
use fst_base::{Box, OutOfMemory, Pos, Seq, boxed, pair};
use fst_measures::{decrease, joined};
use fst_program::{Effect, Fun, Program, SiteKind};
use fst_scopes::{effect_at, fun_at, result_sort};
use fst_terms::{Formula, Term};
use std::alloc::Global;

/// Formulas, or want of memory.
type Formulas = Result<Seq<Formula>, OutOfMemory>;

/// Whether the effect is PURE.
fn is_pure(effect: Effect) -> bool
    ensures { result ≡ is_pure effect }
{
    matches!(effect, Effect::Pure)
}

/// Whether functions of this effect are without DIV.
fn is_total(program: &Program, effect: Effect) -> bool
    ensures { result ≡ is_total (plain_program program.now) effect }
{
    match effect {
        Effect::Pure | Effect::Ghost => true,
        Effect::Div => false,
        Effect::User(number) => match effect_at(program, number) {
            Some(definition) => is_pure(definition.base),
            None => false,
        },
    }
}

/// Whether the result of a function is known to equal its application: that of a PURE or GHOST function of an earlier group.
fn equates(owner: &Owner, callee: &Fun) -> bool
    ensures { result ≡ equates (plain_program owner.now.program.now) (plain_fun owner.now.fun.now) (plain_fun callee.now) }
{
    match callee.effect {
        Effect::Pure | Effect::Ghost => callee.group < owner.fun.group,
        Effect::Div | Effect::User(_) => false,
    }
}

/// The measures of a function at these arguments.
pub fn measures_at(alloc: Global, fun: &Fun, args: &[Term]) -> Result<Seq<Term>, OutOfMemory>
    ensures { IfOk result (λ made. map plain_term made ≡ measures_at (plain_fun fun.now) (map plain_term args.now)) }
{
    put_all(alloc, fun.measures.as_slice(), args)
}

/// These terms with others for their variables.
fn put_each(alloc: Global, args: &[Term], terms: &[Term]) -> Result<Seq<Term>, OutOfMemory>
    ensures { IfOk result (λ made. map plain_term made ≡ map (put (terms_for terms.now)) (map plain_term args.now)) }
{
    put_all(alloc, args, terms)
}

/// All that is asked for, where there is something, before the rest.
fn needed(alloc: Global, formulas: &[Formula], at: Pos, rest: Node) -> Node
    ensures { IfOk result (λ made. (w : Wp) × ((rest ≡ Ok w) × (plain_wp made ≡ needed (map plain_term formulas.now) at.at (plain_wp w)))) }
{
    if formulas.is_empty() {
        return rest;
    }
    let (formula, rest) = pair(joined(alloc, formulas), rest)?;
    need(alloc, formula, SiteKind::Requires, at, rest)
}

/// What is known before the rest.
fn givens(alloc: Global, formulas: &[Formula], rest: Node) -> Node
    ensures { IfOk result (λ made. (w : Wp) × ((rest ≡ Ok w) × (plain_wp made ≡ givens (map plain_term formulas.now) (plain_wp w)))) }
{
    match formulas.split_first() {
        Some((first, more)) => {
            let (formula, rest) = pair(first.copy(alloc), givens(alloc, more, rest))?;
            given(alloc, formula, rest)
        }
        None => rest,
    }
}

/// The decrease of measures before the rest, where the owner is without DIV and calls a function of its own group.
fn decreasing(
    alloc: Global,
    owner: &Owner,
    callee: &Fun,
    olds: &Seq<Term>,
    measures: &Seq<Term>,
    at: Pos,
    rest: Node,
) -> Node
    ensures { IfOk result (λ made. (w : Wp) × ((rest ≡ Ok w) × (plain_wp made ≡ decreasing (plain_program owner.now.program.now) (plain_fun owner.now.fun.now) (plain_fun callee.now) (record { sorts = []; olds = map plain_term olds.now }) (map plain_term measures.now) at.at (plain_wp w)))) }
{
    if is_total(owner.program, owner.fun.effect) && callee.group == owner.fun.group {
        let (formula, rest) = pair(decrease(alloc, olds, measures), rest)?;
        return need(alloc, formula, SiteKind::Decreases, at, rest);
    }
    rest
}

/// The application of a function without an input.
#[tactic(auto, using(fst_terms::proofs::PlainLemmas::plain_variants))]
fn applied(alloc: Global, function: u32, callee: &Fun, args: &[Term]) -> Made
    ensures { IfOk result (λ made. plain_term made ≡ t_app function (plain_sort callee.now.sort) (plain_terms args.now)) }
{
    let (args, sort) = pair(copy_terms(alloc, args), callee.sort.copy(alloc))?;
    Ok(Term::App(function, sort, args))
}

/// Adds the equation of the last variable, a result, with the application, where it is known.
#[tactic(auto, using(fst_terms::proofs::PlainLemmas::plain_variants))]
fn add_equation(
    alloc: Global,
    owner: &Owner,
    function: u32,
    callee: &Fun,
    args: &[Term],
    made: &mut Seq<Formula>,
) -> Result<(), OutOfMemory>
    ensures { OnOk result (map plain_term made.new ≡ map plain_term made.old ++ (if equates (plain_program owner.now.program.now) (plain_fun owner.now.fun.now) (plain_fun callee.now) then equation (t_var 0) (t_app function (plain_sort callee.now.sort) (row (map plain_term args.now))) ∷ [] else [])) }
{
    if !equates(owner, callee) {
        return Ok(());
    }
    let known = equation(
        alloc,
        Ok(Term::Var(0)),
        applied(alloc, function, callee, args),
    )?;
    made.push(known)?;
    Ok(())
}

/// What is known of a call's result, the last variable, after it: the ensures, and the equation with the application.
#[tactic(auto, using(fst_terms::proofs::PlainLemmas::plain_variants))]
fn known_after(
    alloc: Global,
    owner: &Owner,
    function: u32,
    callee: &Fun,
    args: &[Term],
    input: &Term,
) -> Formulas
    ensures { IfOk result (λ made. map plain_term made ≡ known_after (plain_program owner.now.program.now) (plain_fun owner.now.fun.now) function (plain_fun callee.now) (map plain_term args.now) (plain_term input.now)) }
{
    let mut made = Seq::new(alloc);
    let terms = clause_terms(alloc, callee.effect, args, input)?;
    let terms = with_last(terms, Term::Var(0))?;
    add_given(alloc, &callee.gives, terms.as_slice(), &mut made)?;
    add_equation(alloc, owner, function, callee, args, &mut made)?;
    Ok(made)
}

/// The last variable as the result.
#[tactic(auto, using(fst_terms::proofs::PlainLemmas::plain_variants))]
fn last_variable(alloc: Global) -> Node
    ensures { IfOk result (λ made. plain_wp made ≡ w_post (t_var 0)) }
{
    post(alloc, Term::Var(0))
}

/// What is known after a call of these arguments, under its result.
fn known_under(
    alloc: Global,
    owner: &Owner,
    function: u32,
    callee: &Fun,
    args: &[Term],
    input: &Term,
) -> Formulas
    ensures { IfOk result (λ made. map plain_term made ≡ known_after (plain_program owner.now.program.now) (plain_fun owner.now.fun.now) function (plain_fun callee.now) (map (shift 0 1) (map plain_term args.now)) (shift 0 1 (plain_term input.now))) }
{
    let args = raise_terms(alloc, args, 0, 1)?;
    let input = boxed(alloc, raise(alloc, input, 0, 1))?;
    known_after(alloc, owner, function, callee, args.as_slice(), input.get())
}

/// A call's result, a new variable, and what is known of it.
fn result_of(
    alloc: Global,
    owner: &Owner,
    function: u32,
    callee: &Fun,
    args: &[Term],
    input: &Term,
) -> Node
    ensures { IfOk result (λ made. plain_wp made ≡ w_fresh callee.now.name (result_sort (plain_program owner.now.program.now) callee.now.effect (plain_sort callee.now.sort)) (givens (known_after (plain_program owner.now.program.now) (plain_fun owner.now.fun.now) function (plain_fun callee.now) (map (shift 0 1) (map plain_term args.now)) (shift 0 1 (plain_term input.now))) (w_post (t_var 0)))) }
{
    let known = known_under(alloc, owner, function, callee, args, input)?;
    let rest = givens(alloc, known.as_slice(), last_variable(alloc));
    let sort = result_sort(alloc, owner.program, callee.effect, &callee.sort);
    let ((name, sort), rest) = pair(pair(callee.name.copy(alloc), sort), rest)?;
    fresh(alloc, name, sort.into_inner(), rest)
}

/// The transformer of a call of a function on these arguments.
fn call_wp(
    alloc: Global,
    owner: &Owner,
    function: u32,
    callee: &Fun,
    spot: &Spot,
    args: &[Term],
    at: Pos,
) -> Node
    ensures { IfOk result (λ made. plain_wp made ≡ call_wp (plain_program owner.now.program.now) (plain_fun owner.now.fun.now) function (plain_fun callee.now) (scope_at spot.now) (map plain_term args.now) (plain_term spot.now.input) at.at) }
{
    let input = spot.input.get();
    let demands = demands_of(alloc, callee, args, input)?;
    let measures = measures_at(alloc, callee, args)?;
    let rest = result_of(alloc, owner, function, callee, args, input);
    let rest = decreasing(alloc, owner, callee, &spot.olds, &measures, at, rest);
    needed(alloc, demands.as_slice(), at, rest)
}

/// The same of a function's number, where there is such a function, on arguments with the spot's terms for their variables.
fn call_there(
    alloc: Global,
    owner: &Owner,
    function: u32,
    spot: &Spot,
    args: &[Term],
    at: Pos,
) -> Node
    ensures { IfOk result (λ made. plain_wp made ≡ if_there (fun_at (plain_program owner.now.program.now) function) (λ g. call_wp (plain_program owner.now.program.now) (plain_fun owner.now.fun.now) function g (scope_at spot.now) (map (put (terms_for spot.now.terms)) (map plain_term args.now)) (plain_term spot.now.input) at.at) nothing) }
{
    match fun_at(owner.program, function) {
        Some(callee) => {
            let args = put_each(alloc, args, spot.terms.as_slice())?;
            call_wp(alloc, owner, function, callee, spot, args.as_slice(), at)
        }
        None => nothing(alloc),
    }
}

/// The transformer of a call at this spot.
pub fn called(
    alloc: Global,
    function: u32,
    args: &[Term],
    at: Pos,
    owner: &Owner,
    spot: &Spot,
) -> Node
    ensures { IfOk result (λ made. plain_wp made ≡ infer_in owner.now (scope_at spot.now) (terms_for spot.now.terms) (plain_term spot.now.input) (c_call function (plain_terms args.now) at.at)) }
{
    let rest = call_there(alloc, owner, function, spot, args, at);
    args_needs(alloc, args, spot.terms.as_slice(), rest)
}
