//! Linear forms: sums, differences, negations and products by a number are read through, and every other term is an unknown.

ghost use Rattle.std.specs.Prelude.{◌≡◌, ℕ};
ghost use Rattle.fst_base.specs.Sorts.{Srt};
ghost use Rattle.fst_base.specs.declared.op.Op.TheVariants as op;
ghost use Rattle.fst_congruence.specs.Numbered.{IsOnce};
ghost use Rattle.fst_inequalities.specs.Forming.{Forms, IsOpaque, shape_of};
ghost use Rattle.fst_terms.specs.Flats.{plain_flat};
ghost use Rattle.fst_terms.specs.Terms.{plain_term, plain_terms, t_end, t_more, t_prim};

use crate::forms::{Formed, negation, number, product, sum_of, unknown};
use fst_base::Op;
use fst_congruence::Places;
use fst_terms::{Flat, Term};
use std::alloc::Global;

/// How a primitive of two arguments is read: as a sum, a difference, a product, or not.
#[derive(Clone, Copy, Debug)]
pub enum Shape {
    Sum(bool),
    Product,
    Unknown,
}

fn kind(op: Op) -> Shape
    ensures { result ≡ shape_of op }
{
    match op {
        Op::Add => Shape::Sum(false),
        Op::Sub => Shape::Sum(true),
        Op::Mul => Shape::Product,
        _ => Shape::Unknown,
    }
}

/// The form of a term that isn't read through.
fn opaque(alloc: Global, flat: &Flat, places: &Places, term: &Term) -> Formed
    requires once { IsOnce (plain_flat flat.now).terms }
    requires opaque { IsOpaque (plain_flat flat.now) (plain_term term.now) }
    ensures { Forms (plain_flat flat.now) (plain_term term.now) result }
{
    unknown(alloc, flat, places, term)
}

/// The linear form of an int term of a flat form, whose numbered terms have these places: `PastRange` where a number of it, or of the
/// form of a part that is read through, is past 128 bits.
#[cycle(linear)]
#[tactic(auto, using(crate::proofs::PlainForms::plain_variants))]
pub fn linear(alloc: Global, flat: &Flat, places: &Places, term: &Term) -> Formed
    requires { IsOnce (plain_flat flat.now).terms }
    ensures { Forms (plain_flat flat.now) (plain_term term.now) result }
{
    match term {
        Term::Int(value) => number(alloc, *value),
        Term::Prim(op, _, args, _) => linear_prim(alloc, flat, places, *op, args.as_slice(), term),
        Term::Var(_) => opaque(alloc, flat, places, term),
        Term::Bool(_) => opaque(alloc, flat, places, term),
        Term::Unit => opaque(alloc, flat, places, term),
        Term::If(_, _, _) => opaque(alloc, flat, places, term),
        Term::App(_, _, _) => opaque(alloc, flat, places, term),
        Term::Let(_, _, _) => opaque(alloc, flat, places, term),
    }
}

/// The same for a primitive of this operator and these arguments.
#[cycle(linear)]
fn linear_prim(
    alloc: Global,
    flat: &Flat,
    places: &Places,
    op: Op,
    args: &[Term],
    term: &Term,
) -> Formed
    requires once { IsOnce (plain_flat flat.now).terms }
    requires term { (S : Srt) × ((at : ℕ) × (plain_term term.now ≡ t_prim op S (plain_terms args.now) at)) }
    ensures { Forms (plain_flat flat.now) (plain_term term.now) result }
{
    if args.len() == 1 {
        return linear_one(alloc, flat, places, op, &args[0], term);
    }
    if args.len() == 2 {
        return linear_two(alloc, flat, places, op, &args[0], &args[1], term);
    }
    opaque(alloc, flat, places, term)
}

/// The same for a primitive of one argument.
#[cycle(linear)]
fn linear_one(
    alloc: Global,
    flat: &Flat,
    places: &Places,
    op: Op,
    only: &Term,
    term: &Term,
) -> Formed
    requires once { IsOnce (plain_flat flat.now).terms }
    requires term { (S : Srt) × ((at : ℕ) × (plain_term term.now ≡ t_prim op S (t_more (plain_term only.now) t_end) at)) }
    ensures { Forms (plain_flat flat.now) (plain_term term.now) result }
{
    if op == Op::Neg {
        negation(alloc, linear(alloc, flat, places, only))
    } else {
        opaque(alloc, flat, places, term)
    }
}

/// The same for a primitive of two arguments.
#[cycle(linear)]
fn linear_two(
    alloc: Global,
    flat: &Flat,
    places: &Places,
    op: Op,
    left: &Term,
    right: &Term,
    term: &Term,
) -> Formed
    requires once { IsOnce (plain_flat flat.now).terms }
    requires term { (S : Srt) × ((at : ℕ) × (plain_term term.now ≡ t_prim op S (t_more (plain_term left.now) (t_more (plain_term right.now) t_end)) at)) }
    ensures { Forms (plain_flat flat.now) (plain_term term.now) result }
{
    match kind(op) {
        Shape::Sum(minus) => {
            let front = linear(alloc, flat, places, left);
            sum_of(alloc, front, minus, linear(alloc, flat, places, right))
        }
        Shape::Product => {
            let front = linear(alloc, flat, places, left);
            let back = linear(alloc, flat, places, right);
            product(alloc, front, back, unknown(alloc, flat, places, term))
        }
        Shape::Unknown => opaque(alloc, flat, places, term),
    }
}
