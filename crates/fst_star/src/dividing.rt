//! The divisions of a term, and the needs that no divisor is 0.
ghost use Rattle.std.specs.Prelude.{◌≡◌, ◌∷◌, [], ◌++◌, true, map, get_or, Ok, IfOk, OnOk};
ghost use Rattle.fst_program.specs.Paths.{all_divisions, divisions, is_division};
ghost use Rattle.fst_star.specs.Divided.{nonzero, own_division, plain_division};
ghost use Rattle.fst_star.specs.Plain.{plain_wp};
ghost use Rattle.fst_scopes.specs.Scopes.{terms_for};
ghost use Rattle.fst_star.specs.Translation.{divisor_needs, term_needs};
ghost use Rattle.fst_star.specs.declared.wp.Wp.{Wp};
ghost use Rattle.fst_terms.specs.declared.term.Term.{Term};
ghost use Rattle.fst_terms.specs.Formulas.{equation, negation, put};
ghost use Rattle.fst_terms.specs.Terms.{plain_term, plain_terms, t_bool, t_if, t_unit};

use crate::making::{Node, need};
use crate::putting::put;
use crate::trail::copy_terms;
use crate::wp::Wp;
use fst_base::{Box, Op, OutOfMemory, Pos, Seq, Sort, both, boxed, boxes, pair, two};
use fst_program::SiteKind;
use fst_terms::{Formula, Term};
use std::alloc::Global;

/// A formula, or want of memory.
pub(crate) type Made = Result<Formula, OutOfMemory>;

const NOWHERE: Pos = Pos { at: 0 };

/// A division in a term: the conditions under which it is evaluated, the outer one first, its divisor and its place.
#[derive(Drop)]
struct Division {
    conditions: Seq<Formula>,
    divisor: Term,
    at: Pos,
}

/// `not formula`.
#[tactic(auto, using(fst_terms::proofs::PlainLemmas::plain_variants))]
pub(crate) fn negation(alloc: Global, formula: Made) -> Made
    ensures { IfOk result (λ made. (p : Term) × ((formula ≡ Ok p) × (plain_term made ≡ negation (plain_term p)))) }
{
    let sides = boxes(alloc, Term::Bool(false), Term::Bool(true));
    let (test, (left, right)) = pair(boxed(alloc, formula), sides)?;
    Ok(Term::If(test, left, right))
}

/// `left = right`.
#[tactic(auto, using(fst_terms::proofs::PlainLemmas::plain_variants))]
pub(crate) fn equation(alloc: Global, left: Made, right: Made) -> Made
    ensures { IfOk result (λ made. (p : Term) × ((q : Term) × ((left ≡ Ok p) × (right ≡ Ok q) × (plain_term made ≡ equation (plain_term p) (plain_term q))))) }
{
    let (left, right) = pair(left, right)?;
    let sides = two(alloc, left, right)?;
    Ok(Term::Prim(Op::Eq, Sort::Bool, sides, NOWHERE))
}

/// The formula where the condition is true, and true where it isn't.
#[tactic(auto, using(fst_terms::proofs::PlainLemmas::plain_variants))]
fn implication(alloc: Global, condition: Made, formula: Made) -> Made
    ensures { IfOk result (λ made. (p : Term) × ((q : Term) × ((condition ≡ Ok p) × (formula ≡ Ok q) × (plain_term made ≡ t_if (plain_term p) (plain_term q) (t_bool true))))) }
{
    let front = pair(boxed(alloc, condition), boxed(alloc, formula));
    let ((condition, formula), otherwise) = pair(front, Box::new(alloc, Term::Bool(true)))?;
    Ok(Term::If(condition, formula, otherwise))
}

/// Whether the operator divides.
fn is_division(op: Op) -> bool
    ensures { result ≡ is_division op }
{
    matches!(op, Op::Div | Op::Rem)
}

/// These formulas and one more.
fn with_condition(
    alloc: Global,
    conditions: &[Formula],
    condition: Formula,
) -> Result<Seq<Formula>, OutOfMemory>
    ensures { IfOk result (λ made. map plain_term made ≡ map plain_term conditions.now ++ plain_term condition ∷ []) }
{
    let (condition, mut made) = both(condition, copy_terms(alloc, conditions))?;
    made.push(condition)?;
    Ok(made)
}

/// Adds the divisions of a term that is evaluated under these conditions.
#[cycle(add_divisions)]
#[tactic(auto, using(fst_terms::proofs::PlainLemmas::plain_variants))]
fn add_divisions(
    alloc: Global,
    term: &Term,
    conditions: &[Formula],
    found: &mut Seq<Division>,
) -> Result<(), OutOfMemory>
    ensures { OnOk result (map plain_division found.new ≡ map plain_division found.old ++ divisions (map plain_term conditions.now) (plain_term term.now)) }
{
    match term {
        Term::Prim(op, _, args, at) => {
            add_all(alloc, args.as_slice(), conditions, found)?;
            add_own(alloc, conditions, *op, args.as_slice(), *at, found)
        }
        Term::If(test, left, right) => {
            add_divisions(alloc, test.get(), conditions, found)?;
            add_side(alloc, left.get(), test.get(), conditions, found)?;
            add_other(alloc, right.get(), test.get(), conditions, found)
        }
        Term::App(_, _, args) => add_all(alloc, args.as_slice(), conditions, found),
        _ => Ok(()),
    }
}

/// Adds the divisions of the first side of an `if`.
#[cycle(add_divisions)]
fn add_side(
    alloc: Global,
    side: &Term,
    test: &Term,
    conditions: &[Formula],
    found: &mut Seq<Division>,
) -> Result<(), OutOfMemory>
    ensures { OnOk result (map plain_division found.new ≡ map plain_division found.old ++ divisions (map plain_term conditions.now ++ plain_term test.now ∷ []) (plain_term side.now)) }
{
    let inner = with_condition(alloc, conditions, test.copy(alloc)?)?;
    add_divisions(alloc, side, inner.as_slice(), found)
}

/// Adds the divisions of the second side of an `if`.
#[cycle(add_divisions)]
fn add_other(
    alloc: Global,
    side: &Term,
    test: &Term,
    conditions: &[Formula],
    found: &mut Seq<Division>,
) -> Result<(), OutOfMemory>
    ensures { OnOk result (map plain_division found.new ≡ map plain_division found.old ++ divisions (map plain_term conditions.now ++ negation (plain_term test.now) ∷ []) (plain_term side.now)) }
{
    let inner = with_condition(alloc, conditions, negation(alloc, test.copy(alloc))?)?;
    add_divisions(alloc, side, inner.as_slice(), found)
}

/// Adds the divisions of these terms.
#[cycle(add_divisions)]
fn add_all(
    alloc: Global,
    terms: &[Term],
    conditions: &[Formula],
    found: &mut Seq<Division>,
) -> Result<(), OutOfMemory>
    ensures { OnOk result (map plain_division found.new ≡ map plain_division found.old ++ all_divisions (map plain_term conditions.now) (plain_terms terms.now)) }
{
    for term in terms {
        add_divisions(alloc, term, conditions, found)?;
    }
    Ok(())
}

/// The second operand.
fn divisor_of(alloc: Global, args: &[Term]) -> Made
    ensures { IfOk result (λ made. plain_term made ≡ get_or (map plain_term args.now) 1 t_unit) }
{
    if args.len() > 1 {
        return args[1].copy(alloc);
    }
    Ok(Term::Unit)
}

/// Adds the division that an operator is itself.
fn add_own(
    alloc: Global,
    conditions: &[Formula],
    op: Op,
    args: &[Term],
    at: Pos,
    found: &mut Seq<Division>,
) -> Result<(), OutOfMemory>
    ensures { OnOk result (map plain_division found.new ≡ map plain_division found.old ++ own_division (map plain_term conditions.now) op (map plain_term args.now) at.at) }
{
    if !is_division(op) {
        return Ok(());
    }
    let (divisor, conditions) = pair(divisor_of(alloc, args), copy_terms(alloc, conditions))?;
    found.push(Division {
        conditions,
        divisor,
        at,
    })?;
    Ok(())
}

/// The divisor isn't 0 where the conditions are true, with these terms for the variables.
#[tactic(auto, using(fst_terms::proofs::PlainLemmas::plain_variants))]
fn nonzero(alloc: Global, conditions: &[Formula], divisor: &Term, terms: &[Term]) -> Made
    ensures { IfOk result (λ made. plain_term made ≡ nonzero (terms_for terms.now) (map plain_term conditions.now) (plain_term divisor.now)) }
{
    match conditions.split_first() {
        Some((first, rest)) => implication(
            alloc,
            put(alloc, first, terms),
            nonzero(alloc, rest, divisor, terms),
        ),
        None => negation(
            alloc,
            equation(alloc, put(alloc, divisor, terms), Ok(Term::Int(0))),
        ),
    }
}

/// The needs of these divisions before the rest.
fn divisor_needs(alloc: Global, divisions: &[Division], terms: &[Term], rest: Box<Wp>) -> Node
    ensures { IfOk result (λ made. plain_wp made ≡ divisor_needs (map plain_division divisions.now) (terms_for terms.now) (plain_wp rest)) }
{
    match divisions.split_first() {
        Some((first, more)) => {
            let formula = nonzero(alloc, first.conditions.as_slice(), &first.divisor, terms);
            let (formula, rest) = pair(formula, divisor_needs(alloc, more, terms, rest))?;
            need(alloc, formula, SiteKind::Divisor, first.at, rest)
        }
        None => Ok(rest),
    }
}

/// The needs of the term's divisions before the rest.
pub fn term_needs(alloc: Global, term: &Term, terms: &[Term], rest: Box<Wp>) -> Node
    ensures { IfOk result (λ made. plain_wp made ≡ term_needs (plain_term term.now) (terms_for terms.now) (plain_wp rest)) }
{
    let mut found = Seq::new(alloc);
    add_divisions(alloc, term, &[], &mut found)?;
    divisor_needs(alloc, found.as_slice(), terms, rest)
}

/// The needs of the divisions of these terms before the rest.
pub(crate) fn args_needs(alloc: Global, args: &[Term], terms: &[Term], rest: Node) -> Node
    ensures { IfOk result (λ made. (w : Wp) × ((rest ≡ Ok w) × (plain_wp made ≡ divisor_needs (all_divisions [] (plain_terms args.now)) (terms_for terms.now) (plain_wp w)))) }
{
    let mut found = Seq::new(alloc);
    add_all(alloc, args, &[], &mut found)?;
    divisor_needs(alloc, found.as_slice(), terms, rest?)
}
