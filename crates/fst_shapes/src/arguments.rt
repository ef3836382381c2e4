//! Constructors, and arguments of terms.

ghost use Rattle.std.specs.Prelude.{◌≡◌, get_or};
ghost use Rattle.fst_terms.specs.Skeletons.{args_of, is_constructor, made_by};
ghost use Rattle.fst_terms.specs.Terms.{listed, plain_term, plain_terms};

use fst_base::Op;
use fst_terms::Term;

/// Whether the operator is a constructor.
fn is_constructor(op: Op) -> bool
    ensures { result ≡ is_constructor op }
{
    match op {
        Op::Pair | Op::Nothing | Op::Just | Op::Nil | Op::Cons | Op::Inl | Op::Inr => true,
        _ => false,
    }
}

/// The constructor of a constructor term.
#[tactic(auto, using(crate::proofs::PlainForms::plain_variants))]
pub fn made_by(term: &Term) -> Option<Op>
    ensures { result ≡ made_by (plain_term term.now) }
{
    match term {
        Term::Prim(op, _, _, _) if is_constructor(*op) => Some(*op),
        _ => None,
    }
}

/// The arguments of a primitive or an application.
#[tactic(auto, using(crate::proofs::PlainForms::plain_variants))]
pub fn arguments(term: &Term) -> &[Term]
    ensures { plain_terms result.now ≡ args_of (plain_term term.now) }
{
    match term {
        Term::Prim(_, _, args, _) => args.as_slice(),
        Term::App(_, _, args) => args.as_slice(),
        _ => &[],
    }
}

/// The argument at this place, and `other` where there is none.
pub fn argument<'a>(term: &'a Term, at: usize, other: &'a Term) -> &'a Term
    ensures { plain_term result.now ≡ get_or (listed (args_of (plain_term term.now))) at (plain_term other.now) }
{
    let args = arguments(term);
    if at < args.len() { &args[at] } else { other }
}
