//! Equations turned round.

ghost use Rattle.std.specs.Prelude.{◌≡◌, ◌∷◌, [], IfOk};
ghost use Rattle.fst_base.specs.Sorts.{plain_sort};
ghost use Rattle.fst_base.specs.declared.op.Op.TheVariants as op;
ghost use Rattle.fst_terms.specs.Skeletons.{turned};
ghost use Rattle.fst_terms.specs.Terms.{plain_term, plain_terms, row, t_prim};

use crate::building::Made;
use fst_base::{Op, Pos, Sort, pair, two};
use fst_terms::Term;
use std::alloc::Global;

/// An equation turned round; another term is left.
#[tactic(auto, using(crate::proofs::PlainForms::plain_variants))]
pub fn turned(alloc: Global, term: &Term) -> Made
    ensures { IfOk result (λ made. plain_term made ≡ turned (plain_term term.now)) }
{
    match term {
        Term::Prim(Op::Eq, sort, args, at) => turned_equation(
            alloc,
            term,
            sort,
            args.as_slice(),
            *at,
        ),
        _ => term.copy(alloc),
    }
}

/// The equation turned round, where it has two sides.
fn turned_equation(alloc: Global, term: &Term, sort: &Sort, args: &[Term], at: Pos) -> Made
    requires { plain_term term.now ≡ t_prim op.Eq (plain_sort sort.now) (plain_terms args.now) at.at }
    ensures { IfOk result (λ made. plain_term made ≡ turned (plain_term term.now)) }
{
    if args.len() == 2 {
        turned_sides(alloc, sort, &args[0], &args[1], at)
    } else {
        term.copy(alloc)
    }
}

/// The equation of the right side and the left one.
#[tactic(auto, using(crate::proofs::PlainForms::plain_variants))]
fn turned_sides(alloc: Global, sort: &Sort, left: &Term, right: &Term, at: Pos) -> Made
    ensures { IfOk result (λ made. plain_term made ≡ t_prim op.Eq (plain_sort sort.now) (row (plain_term right.now ∷ plain_term left.now ∷ [])) at.at) }
{
    let (right, left) = pair(right.copy(alloc), left.copy(alloc))?;
    let (sides, sort) = pair(two(alloc, right, left), sort.copy(alloc))?;
    Ok(Term::Prim(Op::Eq, sort, sides, at))
}
