//! Formulas that are decided by their look.
ghost use Rattle.std.specs.Prelude.{◌≡◌};
ghost use Rattle.fst_base.specs.Sorts.{s_bool};
ghost use Rattle.fst_base.specs.declared.op.Op.TheVariants as op;
ghost use Rattle.fst_program.specs.Paths.{con_of, same_con};
ghost use Rattle.fst_star.specs.Met.{is_bool, is_guarded};
ghost use Rattle.fst_star.specs.Walking.{both_cons, compared, decided, equated, literal, negated, prim_args};
ghost use Rattle.fst_terms.specs.Same.{same_terms};
ghost use Rattle.fst_terms.specs.Terms.{plain_term, plain_terms, t_prim};

use fst_base::Op;
use fst_program::{Choice, Con};
use fst_terms::Term;

/// A literal is decided.
#[tactic(auto, using(fst_terms::proofs::PlainLemmas::plain_variants))]
fn literal(term: &Term) -> Option<bool>
    ensures { result ≡ literal (plain_term term.now) }
{
    match term {
        Term::Bool(truth) => Some(*truth),
        _ => None,
    }
}

/// Whether the formula is `if c then t else true`, where t isn't false.
#[tactic(auto, using(fst_terms::proofs::PlainLemmas::plain_variants))]
pub(crate) fn guarded(formula: &Term) -> bool
    ensures { result ≡ is_guarded (plain_term formula.now) }
{
    match formula {
        Term::If(_, left, right) => is_bool(right.get(), true) && !is_bool(left.get(), false),
        _ => false,
    }
}

/// Whether the term is this literal.
#[tactic(auto, using(fst_terms::proofs::PlainLemmas::plain_variants))]
fn is_bool(term: &Term, truth: bool) -> bool
    ensures { result ≡ is_bool truth (plain_term term.now) }
{
    match term {
        Term::Bool(true) => truth,
        Term::Bool(false) => !truth,
        _ => false,
    }
}

/// So is the negation of a literal.
#[tactic(auto, using(fst_terms::proofs::PlainLemmas::plain_variants))]
fn negated(term: &Term) -> Option<bool>
    ensures { result ≡ negated (plain_term term.now) }
{
    if let Term::If(test, left, right) = term {
        return match (test.get(), left.get(), right.get()) {
            (Term::Bool(truth), Term::Bool(false), Term::Bool(true)) => Some(!*truth),
            _ => None,
        };
    }
    literal(term)
}

/// The constructor of a constructor term or a bool literal.
#[tactic(auto, using(fst_terms::proofs::PlainLemmas::plain_variants))]
fn con_of(term: &Term) -> Option<Con>
    ensures { result ≡ con_of (plain_term term.now) }
{
    match term {
        Term::Bool(true) => Some(Con::True),
        Term::Bool(false) => Some(Con::False),
        Term::Prim(op, _, _, _) => match op {
            Op::Nothing => Some(Con::Empty),
            Op::Just => Some(Con::Full),
            Op::Nil => Some(Con::Nil),
            Op::Cons => Some(Con::Cons),
            Op::Inl => Some(Con::Left),
            Op::Inr => Some(Con::Right),
            Op::Pair => Some(Con::Pair),
            _ => None,
        },
        _ => None,
    }
}

/// Whether the two constructors are the same.
pub(crate) fn same_con(a: Con, b: Con) -> bool
    ensures { result ≡ same_con a b }
{
    a == b
}

fn same_terms(a: &[Term], b: &[Term]) -> bool
    ensures { result ≡ same_terms (plain_terms a.now) (plain_terms b.now) }
{
    if a.len() != b.len() {
        return false;
    }
    for at in 0..a.len() {
        if !a[at].same(&b[at]) {
            return false;
        }
    }
    true
}

/// The arguments of a primitive.
#[tactic(auto, using(fst_terms::proofs::PlainLemmas::plain_variants))]
fn prim_args(term: &Term) -> &[Term]
    ensures { plain_terms result.now ≡ prim_args (plain_term term.now) }
{
    match term {
        Term::Prim(_, _, args, _) => args.as_slice(),
        _ => &[],
    }
}

/// Two constructor terms of these constructors aren't equal where the constructors differ, and are where the arguments are the
/// same.
fn compared(left: &Term, right: &Term, a: Con, b: Con) -> Option<bool>
    ensures { result ≡ compared (plain_term left.now) (plain_term right.now) a b }
{
    if !same_con(a, b) {
        return Some(false);
    }
    if same_terms(prim_args(left), prim_args(right)) {
        Some(true)
    } else {
        None
    }
}

/// What is decided of the equality of two terms: something where both are constructor terms.
fn both_cons(left: &Term, right: &Term) -> Option<bool>
    ensures { result ≡ both_cons (plain_term left.now) (plain_term right.now) (con_of (plain_term left.now)) (con_of (plain_term right.now)) }
{
    let Some(a) = con_of(left) else {
        return None;
    };
    let Some(b) = con_of(right) else {
        return None;
    };
    compared(left, right, a, b)
}

/// What is decided of the equation of these sides.
fn sides_equated(sides: &[Term]) -> Option<bool>
    ensures { result ≡ equated (t_prim op.Eq s_bool (plain_terms sides.now) 0) }
{
    if sides.len() == 2 {
        both_cons(&sides[0], &sides[1])
    } else {
        None
    }
}

/// So is an equation of two constructor terms.
#[tactic(auto, using(fst_terms::proofs::PlainLemmas::plain_variants))]
fn equated(term: &Term) -> Option<bool>
    ensures { result ≡ equated (plain_term term.now) }
{
    match term {
        Term::Prim(op, _, sides, _) => if *op == Op::Eq {
            sides_equated(sides.as_slice())
        } else {
            None
        },
        _ => literal(term),
    }
}

/// What the formula's look decides on a way of this choice.
pub(crate) fn decided(choice: Choice, formula: &Term) -> Option<bool>
    ensures { result ≡ decided choice (plain_term formula.now) }
{
    match choice {
        Choice::Then => literal(formula),
        Choice::Else => negated(formula),
        Choice::Case(con) => match con {
            Con::True => literal(formula),
            Con::False => negated(formula),
            _ => equated(formula),
        },
    }
}
