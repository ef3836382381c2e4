//! The ways of an `if` and of a match.

ghost use Rattle.std.specs.Prelude.{◌≡◌, ◌∷◌, [], map, IfOk};
ghost use Rattle.fst_base.specs.Sorts.{plain_sort};
ghost use Rattle.fst_logicfun.specs.Ends.{entered, takings};
ghost use Rattle.fst_logicfun.specs.Makes.{Makes};
ghost use Rattle.fst_scopes.specs.Scopes.{terms_for};
ghost use Rattle.fst_logicfun.specs.Ways.{family_of, known_taking, made_by, plain_taken, taking};
ghost use Rattle.fst_program.specs.Paths.{con_args, con_of, family, op_of, selectors};
ghost use Rattle.fst_terms.specs.Formulas.{equation, make};
ghost use Rattle.fst_terms.specs.Terms.{Tm, plain_term, row, t_prim};

use crate::building::{Made, copied, equation, negation};
use crate::copying::{copy_terms, pushed};
use crate::making::{make, prim};
use crate::ways::Taken;
use fst_base::{Op, OutOfMemory, Pos, Seq, Sort, one, pair, two};
use fst_program::Con;
use fst_terms::Term;
use std::alloc::Global;

const NOWHERE: Pos = Pos { at: 0 };

/// The constructor of a constructor term or a bool literal.
#[tactic(auto, using(fst_scopes::proofs::PlainForms::plain_variants, crate::proofs::WayLemmas::made_variants))]
fn con_of(term: &Term) -> Option<Con>
    ensures { result ≡ con_of (plain_term term.now) }
{
    match term {
        Term::Bool(true) => Some(Con::True),
        Term::Bool(false) => Some(Con::False),
        Term::Prim(op, _, _, _) => maker(*op),
        _ => None,
    }
}

fn maker(op: Op) -> Option<Con>
    ensures { result ≡ made_by op }
{
    match op {
        Op::Nothing => Some(Con::Empty),
        Op::Just => Some(Con::Full),
        Op::Nil => Some(Con::Nil),
        Op::Cons => Some(Con::Cons),
        Op::Inl => Some(Con::Left),
        Op::Inr => Some(Con::Right),
        Op::Pair => Some(Con::Pair),
        _ => None,
    }
}

/// The primitive that makes a constructor's terms.
fn op_of(con: Con) -> Op
    ensures { result ≡ op_of con }
{
    match con {
        Con::Empty => Op::Nothing,
        Con::Full => Op::Just,
        Con::Nil => Op::Nil,
        Con::Cons => Op::Cons,
        Con::Left => Op::Inl,
        Con::Right => Op::Inr,
        _ => Op::Pair,
    }
}

/// The arguments of a constructor term.
#[tactic(auto, using(fst_scopes::proofs::PlainForms::plain_variants))]
fn con_args(term: &Term) -> &[Term]
    ensures { map plain_term result.now ≡ con_args (plain_term term.now) }
{
    match term {
        Term::Prim(_, _, args, _) => args.as_slice(),
        _ => &[],
    }
}

/// The selector of a term.
fn selected(alloc: Global, op: Op, sort: &Sort, term: &Term) -> Result<Term, OutOfMemory>
    ensures { IfOk result (λ made. plain_term made ≡ make op (plain_sort sort.now) (row (plain_term term.now ∷ [])) 0) }
{
    let args = one(alloc, term.copy(alloc)?)?;
    make(alloc, op, sort, args, NOWHERE)
}

/// The selectors of a scrutinee of this sort, in the order of the constructor's parts.
#[tactic(auto, using(fst_scopes::proofs::PlainForms::plain_variants))]
fn selectors(alloc: Global, con: Con, sort: &Sort, term: &Term) -> Result<Seq<Term>, OutOfMemory>
    ensures { IfOk result (λ made. map plain_term made ≡ selectors con (plain_sort sort.now) (plain_term term.now)) }
{
    match (con, sort) {
        (Con::Full, Sort::Opt(item)) => one(alloc, selected(alloc, Op::The, item.get(), term)?),
        (Con::Cons, Sort::List(item)) => {
            let head = selected(alloc, Op::Hd, item.get(), term);
            let (head, tail) = pair(head, selected(alloc, Op::Tl, sort, term))?;
            two(alloc, head, tail)
        }
        (Con::Left, Sort::Either(left, _)) => one(
            alloc,
            selected(alloc, Op::Outl, left.get(), term)?,
        ),
        (Con::Right, Sort::Either(_, right)) => one(
            alloc,
            selected(alloc, Op::Outr, right.get(), term)?,
        ),
        (Con::Pair, Sort::Pair(left, right)) => {
            let first = selected(alloc, Op::Fst, left.get(), term);
            let (first, second) = pair(first, selected(alloc, Op::Snd, right.get(), term))?;
            two(alloc, first, second)
        }
        _ => Ok(Seq::new(alloc)),
    }
}

/// The hypotheses with one more.
pub fn supposed(alloc: Global, hyps: &[Term], formula: Made) -> Result<Seq<Term>, OutOfMemory>
    ensures { (e : Tm) → Makes formula e → IfOk result (λ made. terms_for made ≡ e ∷ terms_for hyps.now) }
{
    let (hyps, formula) = pair(copy_terms(alloc, hyps), formula)?;
    pushed(hyps, formula)
}

/// The constructor of the selectors of a scrutinee.
#[tactic(auto, unfolding(crate::specs::Makes::Makes))]
fn built(alloc: Global, con: Con, sort: &Sort, term: &Term) -> Made
    ensures { Makes result (t_prim (op_of con) (plain_sort sort.now) (row (selectors con (plain_sort sort.now) (plain_term term.now))) 0) }
{
    let parts = selectors(alloc, con, sort, term)?;
    prim(alloc, op_of(con), sort, parts, NOWHERE)
}

/// The formula that a scrutinee is made by a constructor.
fn shaped(alloc: Global, con: Con, sort: &Sort, term: &Term) -> Made
    ensures { Makes result (equation (plain_term term.now) (t_prim (op_of con) (plain_sort sort.now) (row (selectors con (plain_sort sort.now) (plain_term term.now))) 0)) }
{
    let made = built(alloc, con, sort, term);
    equation(alloc, copied(alloc, term), made)
}

/// The hypotheses of the way of a constructor.
fn entered(
    alloc: Global,
    con: Con,
    sort: &Sort,
    term: &Term,
    hyps: &[Term],
) -> Result<Seq<Term>, OutOfMemory>
    ensures { IfOk result (λ made. terms_for made ≡ entered con (plain_sort sort.now) (plain_term term.now) (terms_for hyps.now)) }
{
    match con {
        Con::True => supposed(alloc, hyps, copied(alloc, term)),
        Con::False => supposed(alloc, hyps, negation(alloc, copied(alloc, term))),
        Con::Pair => copy_terms(alloc, hyps),
        _ => supposed(alloc, hyps, shaped(alloc, con, sort, term)),
    }
}

/// The way of a constructor that a scrutinee of this sort may be of.
fn taking(
    alloc: Global,
    con: Con,
    sort: &Sort,
    term: &Term,
    hyps: &[Term],
) -> Result<Taken, OutOfMemory>
    ensures { IfOk result (λ made. plain_taken made ≡ taking con (plain_sort sort.now) (plain_term term.now) (terms_for hyps.now)) }
{
    let parts = selectors(alloc, con, sort, term);
    let (parts, hyps) = pair(parts, entered(alloc, con, sort, term, hyps))?;
    Ok(Taken { con, parts, hyps })
}

/// The ways of two constructors.
fn both_of(
    alloc: Global,
    first: Con,
    second: Con,
    sort: &Sort,
    term: &Term,
    hyps: &[Term],
) -> Result<Seq<Taken>, OutOfMemory>
    ensures { IfOk result (λ made. map plain_taken made ≡ taking first (plain_sort sort.now) (plain_term term.now) (terms_for hyps.now) ∷ taking second (plain_sort sort.now) (plain_term term.now) (terms_for hyps.now) ∷ []) }
{
    let first = taking(alloc, first, sort, term, hyps);
    let (first, second) = pair(first, taking(alloc, second, sort, term, hyps))?;
    two(alloc, first, second)
}

/// The one way of a constructor term.
fn known(alloc: Global, con: Con, term: &Term, hyps: &[Term]) -> Result<Seq<Taken>, OutOfMemory>
    ensures { IfOk result (λ made. map plain_taken made ≡ known_taking con (plain_term term.now) (terms_for hyps.now) ∷ []) }
{
    let parts = copy_terms(alloc, con_args(term));
    let (parts, hyps) = pair(parts, copy_terms(alloc, hyps))?;
    one(alloc, Taken { con, parts, hyps })
}

/// The ways of the constructors of one sort, in order, by one of them.
fn family(
    alloc: Global,
    con: Con,
    sort: &Sort,
    term: &Term,
    hyps: &[Term],
) -> Result<Seq<Taken>, OutOfMemory>
    ensures { IfOk result (λ made. map plain_taken made ≡ map (λ c. taking c (plain_sort sort.now) (plain_term term.now) (terms_for hyps.now)) (family con)) }
{
    match con {
        Con::True | Con::False => both_of(alloc, Con::True, Con::False, sort, term, hyps),
        Con::Empty | Con::Full => both_of(alloc, Con::Empty, Con::Full, sort, term, hyps),
        Con::Nil | Con::Cons => both_of(alloc, Con::Nil, Con::Cons, sort, term, hyps),
        Con::Left | Con::Right => both_of(alloc, Con::Left, Con::Right, sort, term, hyps),
        Con::Pair => one(alloc, taking(alloc, Con::Pair, sort, term, hyps)?),
    }
}

/// The ways of a match whose first arm is of this constructor: the one of a constructor term, else those of the
/// constructors of one sort, in order.
pub fn takings(
    alloc: Global,
    first: Option<Con>,
    sort: &Sort,
    term: &Term,
    hyps: &[Term],
) -> Result<Seq<Taken>, OutOfMemory>
    ensures { IfOk result (λ made. map plain_taken made ≡ takings (family_of first) (plain_sort sort.now) (plain_term term.now) (terms_for hyps.now)) }
{
    if let Some(con) = con_of(term) {
        return known(alloc, con, term, hyps);
    }
    match first {
        None => Ok(Seq::new(alloc)),
        Some(con) => family(alloc, con, sort, term, hyps),
    }
}
