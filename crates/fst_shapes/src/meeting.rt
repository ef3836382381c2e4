//! How the two sides of an equation meet.

ghost use Rattle.std.specs.Prelude.{◌≡◌, ◌∷◌, [], IfOk};
ghost use Rattle.fst_base.specs.Sorts.{plain_sort};
ghost use Rattle.fst_shapes.specs.Sides.{are_by, are_made, is_by, is_list_term, is_long, is_two};
ghost use Rattle.fst_terms.specs.Formulas.{make};
ghost use Rattle.fst_terms.specs.Skeletons.{made_by};
ghost use Rattle.fst_terms.specs.Terms.{plain_term, plain_terms, row};

use crate::arguments::made_by;
use crate::building::selector;
use fst_base::{Box, Op, OutOfMemory, Sort, boxed, pair};
use fst_terms::Term;
use std::alloc::Global;

/// The same component of both sides.
pub fn components(
    alloc: Global,
    op: Op,
    sort: &Sort,
    left: &Term,
    right: &Term,
) -> Result<(Box<Term>, Box<Term>), OutOfMemory>
    ensures left { IfOk result (λ parts. plain_term parts.0 ≡ make op (plain_sort sort.now) (row (plain_term left.now ∷ [])) 0) }
    ensures right { IfOk result (λ parts. plain_term parts.1 ≡ make op (plain_sort sort.now) (row (plain_term right.now ∷ [])) 0) }
{
    let first = boxed(alloc, selector(alloc, op, sort, left));
    pair(first, boxed(alloc, selector(alloc, op, sort, right)))
}

/// Whether both begin with this constructor.
pub fn are_by(op: Op, left: &Term, right: &Term) -> bool
    ensures { result ≡ are_by op (made_by (plain_term left.now)) (made_by (plain_term right.now)) }
{
    is_by(op, left) && is_by(op, right)
}

pub fn is_by(op: Op, term: &Term) -> bool
    ensures { result ≡ is_by op (made_by (plain_term term.now)) }
{
    match made_by(term) {
        Some(maker) => maker == op,
        None => false,
    }
}

/// Whether both begin with constructors.
pub fn are_made(left: &Term, right: &Term) -> bool
    ensures { result ≡ are_made (made_by (plain_term left.now)) (made_by (plain_term right.now)) }
{
    made_by(left).is_some() && made_by(right).is_some()
}

fn are_two(args: &[Term]) -> bool
    ensures { result ≡ is_two (plain_terms args.now) }
{
    args.len() == 2
}

/// Whether the term is a cons of two arguments.
#[tactic(auto, using(crate::proofs::PlainForms::plain_variants))]
pub fn is_long(term: &Term) -> bool
    ensures { result ≡ is_long (plain_term term.now) }
{
    match term {
        Term::Prim(Op::Cons, _, args, _) => are_two(args.as_slice()),
        _ => false,
    }
}

/// Whether the term is a list's constructor term.
#[tactic(auto, using(crate::proofs::PlainForms::plain_variants))]
pub fn is_list_term(term: &Term) -> bool
    ensures { result ≡ is_list_term (plain_term term.now) }
{
    match term {
        Term::Prim(Op::Nil, _, _, _) => true,
        Term::Prim(Op::Cons, _, args, _) => are_two(args.as_slice()),
        _ => false,
    }
}
