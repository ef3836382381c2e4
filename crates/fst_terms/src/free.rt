ghost use Rattle.std.specs.Prelude.{◌≡◌, ℕ};
ghost use Rattle.fst_terms.specs.Indices.{Stands};
ghost use Rattle.fst_terms.specs.Terms.{free_in, free_in_some, plain_term, plain_terms};

use crate::term::Term;

/// Whether the index occurs free.
pub fn free_in(term: &Term, index: u32) -> bool
    ensures { result ≡ free_in index (plain_term term.now) }
{
    occurs(term, u64::from(index))
}

/// Whether the index that the number stands for occurs free.
#[cycle(occurs)]
#[tactic(auto, using(crate::proofs::PlainLemmas::plain_variants))]
fn occurs(term: &Term, number: u64) -> bool
    ensures { (index : ℕ) → Stands number index → result ≡ free_in index (plain_term term.now) }
{
    match term {
        Term::Var(found) => u64::from(*found) == number,
        Term::Int(_) => false,
        Term::Bool(_) => false,
        Term::Unit => false,
        Term::Prim(_, _, args, _) => occurs_in_some(args.as_slice(), number),
        Term::If(test, left, right) => {
            occurs(test.get(), number) || occurs(left.get(), number) || occurs(right.get(), number)
        }
        Term::App(_, _, args) => occurs_in_some(args.as_slice(), number),
        Term::Let(_, bound, rest) => {
            occurs(bound.get(), number) || occurs(rest.get(), number.saturating_add(1))
        }
    }
}

#[cycle(occurs)]
fn occurs_in_some(terms: &[Term], number: u64) -> bool
    ensures { (index : ℕ) → Stands number index → result ≡ free_in_some index (plain_terms terms.now) }
{
    for term in terms {
        if occurs(term, number) {
            return true;
        }
    }
    false
}
