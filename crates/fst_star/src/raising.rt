//! Indices raised, in terms and in transformers. An index has 32 bits; where one would be greater, memory is wanting.
ghost use Rattle.std.specs.Prelude.{◌≡◌, ◌+◌, map, suc, IfOk};
ghost use Rattle.fst_star.specs.Plain.{plain_ways, plain_wp};
ghost use Rattle.fst_star.specs.Transformers.{ws_shift, wshift};
ghost use Rattle.fst_terms.specs.Terms.{plain_term, shift};

use crate::making::{Node, fresh, given, hole, hole_tail, need, post, then, ways};
use crate::wp::{Way, Wp};
use fst_base::{Box, OutOfMemory, Seq, boxed, pair};
use fst_terms::Term;
use std::alloc::Global;

/// The sum, where it has 32 bits.
pub(crate) fn sum(a: u32, b: u32) -> Result<u32, OutOfMemory>
    ensures { IfOk result (λ sum. sum ≡ a + b) }
{
    match a.checked_add(b) {
        Some(sum) => Ok(sum),
        None => Err(OutOfMemory),
    }
}

/// The term with the indices that are at least `from` raised by `by`. It wants memory also where a raised index passes 32 bits.
#[cycle(raise)]
#[tactic(auto, using(fst_terms::proofs::PlainLemmas::plain_variants))]
pub fn raise(alloc: Global, term: &Term, from: u32, by: u32) -> Result<Term, OutOfMemory>
    ensures { IfOk result (λ raised. plain_term raised ≡ shift from by (plain_term term.now)) }
{
    match term {
        Term::Var(index) => Ok(Term::Var(if *index < from {
            *index
        } else {
            sum(*index, by)?
        })),
        Term::Int(number) => Ok(Term::Int(*number)),
        Term::Bool(truth) => Ok(Term::Bool(*truth)),
        Term::Unit => Ok(Term::Unit),
        Term::Prim(op, sort, args, at) => {
            let (args, sort) = pair(
                raise_all(alloc, args.as_slice(), from, by),
                sort.copy(alloc),
            )?;
            Ok(Term::Prim(*op, sort, args, *at))
        }
        Term::If(test, left, right) => {
            let front = pair(
                raise_box(alloc, test, from, by),
                raise_box(alloc, left, from, by),
            );
            let ((test, left), right) = pair(front, raise_box(alloc, right, from, by))?;
            Ok(Term::If(test, left, right))
        }
        Term::App(function, sort, args) => {
            let (args, sort) = pair(
                raise_all(alloc, args.as_slice(), from, by),
                sort.copy(alloc),
            )?;
            Ok(Term::App(*function, sort, args))
        }
        Term::Let(name, bound, rest) => {
            let under = sum(from, 1)?;
            let front = pair(name.copy(alloc), raise_box(alloc, bound, from, by));
            let ((name, bound), rest) = pair(front, raise_box(alloc, rest, under, by))?;
            Ok(Term::Let(name, bound, rest))
        }
    }
}

#[cycle(raise)]
fn raise_box(alloc: Global, term: &Box<Term>, from: u32, by: u32) -> Result<Box<Term>, OutOfMemory>
    ensures { IfOk result (λ raised. plain_term raised ≡ shift from by (plain_term term.now)) }
{
    boxed(alloc, raise(alloc, term.get(), from, by))
}

#[cycle(raise)]
fn raise_all(alloc: Global, terms: &[Term], from: u32, by: u32) -> Result<Seq<Term>, OutOfMemory>
    ensures { IfOk result (λ raised. map plain_term raised ≡ map (λ t. shift from by (plain_term t)) terms.now) }
{
    let mut raised = Seq::new(alloc);
    for term in terms {
        raised.push(raise(alloc, term, from, by)?)?;
    }
    Ok(raised)
}

/// These terms, raised likewise.
pub fn raise_terms(
    alloc: Global,
    terms: &[Term],
    from: u32,
    by: u32,
) -> Result<Seq<Term>, OutOfMemory>
    ensures { IfOk result (λ raised. map plain_term raised ≡ map (shift from by) (map plain_term terms.now)) }
{
    raise_all(alloc, terms, from, by)
}

/// The transformer with the indices that are at least `from` raised by `by`.
#[cycle(raise_wp)]
#[tactic(auto, using(crate::proofs::PlainLemmas::wp_variants))]
pub fn raise_wp(alloc: Global, wp: &Wp, from: u32, by: u32) -> Node
    ensures { IfOk result (λ raised. plain_wp raised ≡ wshift from by (plain_wp wp.now)) }
{
    match wp {
        Wp::Post(term) => post(alloc, raise(alloc, term, from, by)?),
        Wp::Need(formula, kind, at, rest) => {
            let formula = raise(alloc, formula, from, by);
            let (formula, rest) = pair(formula, raise_wp(alloc, rest.get(), from, by))?;
            need(alloc, formula, *kind, *at, rest)
        }
        Wp::Given(formula, rest) => {
            let formula = raise(alloc, formula, from, by);
            let (formula, rest) = pair(formula, raise_wp(alloc, rest.get(), from, by))?;
            given(alloc, formula, rest)
        }
        Wp::Fresh(name, sort, rest) => {
            let front = pair(name.copy(alloc), sort.copy(alloc));
            let ((name, sort), rest) = pair(front, raise_under(alloc, rest.get(), from, by))?;
            fresh(alloc, name, sort, rest)
        }
        Wp::Ways(list) => ways(alloc, raise_ways(alloc, list.as_slice(), from, by)?),
        Wp::Hole(which, terms, name, rest) => {
            let front = pair(
                raise_terms(alloc, terms.as_slice(), from, by),
                name.copy(alloc),
            );
            let ((terms, name), rest) = pair(front, raise_under(alloc, rest.get(), from, by))?;
            hole(alloc, *which, terms, name, rest)
        }
        Wp::HoleTail(which, terms) => {
            hole_tail(
                alloc,
                *which,
                raise_terms(alloc, terms.as_slice(), from, by)?,
            )
        }
        Wp::Then(first, name, rest) => {
            let front = pair(raise_wp(alloc, first.get(), from, by), name.copy(alloc));
            let ((first, name), rest) = pair(front, raise_under(alloc, rest.get(), from, by))?;
            then(alloc, first, name, rest)
        }
    }
}

/// The same under one variable more.
#[cycle(raise_wp)]
fn raise_under(alloc: Global, wp: &Wp, from: u32, by: u32) -> Node
    ensures { IfOk result (λ raised. plain_wp raised ≡ wshift (suc from) by (plain_wp wp.now)) }
{
    let under = sum(from, 1)?;
    raise_wp(alloc, wp, under, by)
}

#[cycle(raise_wp)]
fn raise_ways(
    alloc: Global,
    ways: &[Way<Wp>],
    from: u32,
    by: u32,
) -> Result<Seq<Way<Wp>>, OutOfMemory>
    ensures { IfOk result (λ raised. plain_ways raised ≡ ws_shift from by (plain_ways ways.now)) }
{
    let mut raised = Seq::new(alloc);
    for way in ways {
        let given = raise(alloc, &way.given, from, by);
        let (given, rest) = pair(given, raise_wp(alloc, &way.rest, from, by))?;
        let rest = rest.into_inner();
        let choice = way.choice;
        raised.push(Way {
            choice,
            given,
            rest,
        })?;
    }
    Ok(raised)
}
