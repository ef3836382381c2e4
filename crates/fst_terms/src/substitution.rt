ghost use Rattle.std.specs.Prelude.{◌≡◌, ℕ, ◌+◌, map, IfOk};
ghost use Rattle.fst_terms.specs.Indices.{Raisable, Stands, lets, lets_of};
ghost use Rattle.fst_terms.specs.Terms.{plain_term, plain_terms, shift, subst, subst_var};

use crate::shifting::shift;
use crate::term::Term;
use fst_base::{Box, OutOfMemory, Seq};
use std::alloc::Global;
use std::cmp::Ordering;

/// The term with `by` in place of the index `at`, and the greater indices lowered by 1.
pub fn subst(alloc: Global, term: &Term, at: u32, by: &Term) -> Result<Term, OutOfMemory>
    requires { Raisable 0 (lets (plain_term term.now)) (plain_term by.now) }
    ensures { IfOk result (λ made. plain_term made ≡ subst at (plain_term by.now) (plain_term term.now)) }
{
    put(alloc, term, at, by, 0)
}

/// The same for a term that stands under as many lets as `under` stands for.
#[cycle(put)]
#[tactic(auto, using(crate::proofs::PlainLemmas::plain_variants))]
fn put(alloc: Global, term: &Term, at: u32, by: &Term, under: u64) -> Result<Term, OutOfMemory>
    requires { Raisable 0 (under + lets (plain_term term.now)) (plain_term by.now) }
    ensures { IfOk result (λ made. (depth : ℕ) → Stands under depth → plain_term made ≡ subst (at + depth) (shift 0 depth (plain_term by.now)) (plain_term term.now)) }
{
    match term {
        Term::Var(index) => put_at(alloc, *index, at, by, under),
        Term::Int(number) => Ok(Term::Int(*number)),
        Term::Bool(truth) => Ok(Term::Bool(*truth)),
        Term::Unit => Ok(Term::Unit),
        Term::Prim(op, sort, args, place) => {
            let args = put_all(alloc, args.as_slice(), at, by, under)?;
            Ok(Term::Prim(*op, sort.copy(alloc)?, args, *place))
        }
        Term::If(test, left, right) => {
            let test = Box::new(alloc, put(alloc, test.get(), at, by, under)?)?;
            let left = Box::new(alloc, put(alloc, left.get(), at, by, under)?)?;
            let right = Box::new(alloc, put(alloc, right.get(), at, by, under)?)?;
            Ok(Term::If(test, left, right))
        }
        Term::App(function, sort, args) => {
            let args = put_all(alloc, args.as_slice(), at, by, under)?;
            Ok(Term::App(*function, sort.copy(alloc)?, args))
        }
        Term::Let(name, bound, rest) => {
            let name = name.copy(alloc)?;
            let bound = Box::new(alloc, put(alloc, bound.get(), at, by, under)?)?;
            let inner = under.saturating_add(1);
            let rest = Box::new(alloc, put(alloc, rest.get(), at, by, inner)?)?;
            Ok(Term::Let(name, bound, rest))
        }
    }
}

#[cycle(put)]
fn put_all(
    alloc: Global,
    terms: &[Term],
    at: u32,
    by: &Term,
    under: u64,
) -> Result<Seq<Term>, OutOfMemory>
    requires { Raisable 0 (under + lets_of (plain_terms terms.now)) (plain_term by.now) }
    ensures { IfOk result (λ made. (depth : ℕ) → Stands under depth → map plain_term made ≡ map (λ t. subst (at + depth) (shift 0 depth (plain_term by.now)) (plain_term t)) terms.now) }
{
    let mut made = Seq::new(alloc);
    for term in terms {
        made.push(put(alloc, term, at, by, under)?)?;
    }
    Ok(made)
}

/// The term that takes the place of an index.
fn put_at(alloc: Global, index: u32, at: u32, by: &Term, under: u64) -> Result<Term, OutOfMemory>
    requires { Raisable 0 under (plain_term by.now) }
    ensures { IfOk result (λ made. (depth : ℕ) → Stands under depth → plain_term made ≡ subst_var (at + depth) (shift 0 depth (plain_term by.now)) index) }
{
    if u64::from(index) < under {
        return Ok(Term::Var(index));
    }
    let depth = under as u32;
    match (index - depth).cmp(&at) {
        Ordering::Less => Ok(Term::Var(index)),
        Ordering::Equal => shift(alloc, by, 0, depth),
        Ordering::Greater => Ok(Term::Var(index - 1)),
    }
}
