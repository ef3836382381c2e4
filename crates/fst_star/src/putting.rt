//! Terms put in for variables.
ghost use Rattle.std.specs.Prelude.{◌≡◌, ◌∷◌, map, get_or, IfOk, Some, option_map};
ghost use Rattle.fst_base.specs.Sorts.{plain_sort};
ghost use Rattle.fst_scopes.specs.Scopes.{terms_for};
ghost use Rattle.fst_terms.specs.Formulas.{component, make, put};
ghost use Rattle.fst_terms.specs.Terms.{plain_term, plain_terms, shift, t_unit, t_var};

use crate::raising::raise_terms;
use fst_base::{Box, Op, OutOfMemory, Pos, Seq, Sort, boxed, pair};
use fst_terms::Term;
use std::alloc::Global;

/// The term for the variable of this index.
fn term_at(alloc: Global, terms: &[Term], index: u32) -> Result<Term, OutOfMemory>
    ensures { IfOk result (λ made. plain_term made ≡ get_or (terms_for terms.now) index t_unit) }
{
    let index = index as usize;
    if index < terms.len() {
        return terms[terms.len() - 1 - index].copy(alloc);
    }
    Ok(Term::Unit)
}

/// The terms under one variable more, which stands for itself.
pub fn under(alloc: Global, terms: &[Term]) -> Result<Seq<Term>, OutOfMemory>
    ensures { IfOk result (λ made. terms_for made ≡ t_var 0 ∷ map (shift 0 1) (terms_for terms.now)) }
{
    let made = with_last(raise_terms(alloc, terms, 0, 1)?, Term::Var(0))?;
    Ok(made)
}

/// These terms and one more, for the last variable.
pub fn with_last(terms: Seq<Term>, last: Term) -> Result<Seq<Term>, OutOfMemory>
    ensures { IfOk result (λ made. terms_for made ≡ plain_term last ∷ terms_for terms) }
{
    let mut terms = terms;
    terms.push(last)?;
    Ok(terms)
}

/// The part of a pair, of `Some`, of a list's cell or of a side, where the term is one.
fn part(alloc: Global, op: Op, term: &Term) -> Result<Option<Term>, OutOfMemory>
    ensures { IfOk result (λ part. component op (plain_term term.now) ≡ option_map plain_term part) }
{
    let Term::Prim(con, _, parts, _) = term else {
        return Ok(None);
    };
    match op {
        Op::Fst => if *con == Op::Pair {
            part_at(alloc, parts.as_slice(), 0)
        } else {
            Ok(None)
        },
        Op::Snd => if *con == Op::Pair {
            part_at(alloc, parts.as_slice(), 1)
        } else {
            Ok(None)
        },
        Op::Hd => if *con == Op::Cons {
            part_at(alloc, parts.as_slice(), 0)
        } else {
            Ok(None)
        },
        Op::Tl => if *con == Op::Cons {
            part_at(alloc, parts.as_slice(), 1)
        } else {
            Ok(None)
        },
        Op::The => if *con == Op::Just {
            part_at(alloc, parts.as_slice(), 0)
        } else {
            Ok(None)
        },
        Op::Outl => if *con == Op::Inl {
            part_at(alloc, parts.as_slice(), 0)
        } else {
            Ok(None)
        },
        Op::Outr => if *con == Op::Inr {
            part_at(alloc, parts.as_slice(), 0)
        } else {
            Ok(None)
        },
        _ => Ok(None),
    }
}

fn part_at(alloc: Global, parts: &[Term], index: usize) -> Result<Option<Term>, OutOfMemory>
    ensures { IfOk result (λ part. option_map plain_term part ≡ Some (get_or (map plain_term parts.now) index t_unit)) }
{
    if index < parts.len() {
        return Ok(Some(parts[index].copy(alloc)?));
    }
    Ok(Some(Term::Unit))
}

/// The component, where the first of these terms is one that the selector opens.
fn component(alloc: Global, op: Op, args: &[Term]) -> Result<Option<Term>, OutOfMemory>
    ensures { IfOk result (λ part. component op (get_or (map plain_term args.now) 0 t_unit) ≡ option_map plain_term part) }
{
    if args.is_empty() {
        return part(alloc, op, &Term::Unit);
    }
    part(alloc, op, &args[0])
}

/// The primitive of these arguments; a selector of its own constructor term is written as the component.
pub fn make(
    alloc: Global,
    op: Op,
    sort: Sort,
    args: Seq<Term>,
    at: Pos,
) -> Result<Term, OutOfMemory>
    ensures { IfOk result (λ made. plain_term made ≡ make op (plain_sort sort) (plain_terms args) at.at) }
{
    match component(alloc, op, args.as_slice())? {
        Some(part) => Ok(part),
        None => Ok(Term::Prim(op, sort, args, at)),
    }
}

/// The term with these terms in place of its variables, the last variable's last. It wants memory also where a raised index
/// passes 32 bits.
#[cycle(put)]
#[tactic(auto, using(fst_terms::proofs::PlainLemmas::plain_variants))]
pub fn put(alloc: Global, term: &Term, terms: &[Term]) -> Result<Term, OutOfMemory>
    ensures { IfOk result (λ made. plain_term made ≡ put (terms_for terms.now) (plain_term term.now)) }
{
    match term {
        Term::Var(index) => term_at(alloc, terms, *index),
        Term::Int(number) => Ok(Term::Int(*number)),
        Term::Bool(truth) => Ok(Term::Bool(*truth)),
        Term::Unit => Ok(Term::Unit),
        Term::Prim(op, sort, args, at) => {
            let (args, sort) = pair(put_all(alloc, args.as_slice(), terms), sort.copy(alloc))?;
            make(alloc, *op, sort, args, *at)
        }
        Term::If(test, left, right) => {
            let front = pair(
                put_box(alloc, test.get(), terms),
                put_box(alloc, left.get(), terms),
            );
            let ((test, left), right) = pair(front, put_box(alloc, right.get(), terms))?;
            Ok(Term::If(test, left, right))
        }
        Term::App(function, sort, args) => {
            let (args, sort) = pair(put_all(alloc, args.as_slice(), terms), sort.copy(alloc))?;
            Ok(Term::App(*function, sort, args))
        }
        Term::Let(name, bound, rest) => {
            let front = pair(name.copy(alloc), put_box(alloc, bound.get(), terms));
            let ((name, bound), rest) = pair(front, put_under(alloc, rest.get(), terms))?;
            Ok(Term::Let(name, bound, rest))
        }
    }
}

/// The same on the heap.
#[cycle(put)]
pub(crate) fn put_box(alloc: Global, term: &Term, terms: &[Term]) -> Result<Box<Term>, OutOfMemory>
    ensures { IfOk result (λ made. plain_term made ≡ put (terms_for terms.now) (plain_term term.now)) }
{
    boxed(alloc, put(alloc, term, terms))
}

/// The same under a let, whose variable stands for itself.
#[cycle(put)]
fn put_under(alloc: Global, term: &Term, terms: &[Term]) -> Result<Box<Term>, OutOfMemory>
    ensures { IfOk result (λ made. plain_term made ≡ put (t_var 0 ∷ map (shift 0 1) (terms_for terms.now)) (plain_term term.now)) }
{
    let inner = under(alloc, terms)?;
    boxed(alloc, put(alloc, term, inner.as_slice()))
}

#[cycle(put)]
pub fn put_all(alloc: Global, sides: &[Term], terms: &[Term]) -> Result<Seq<Term>, OutOfMemory>
    ensures { IfOk result (λ made. map plain_term made ≡ map (λ t. put (terms_for terms.now) (plain_term t)) sides.now) }
{
    let mut made = Seq::new(alloc);
    for side in sides {
        made.push(put(alloc, side, terms)?)?;
    }
    Ok(made)
}
