ghost use Rattle.std.specs.Prelude.{◌≡◌, ℕ, map, IfOk};
ghost use Rattle.fst_terms.specs.Flats.{cleared};
ghost use Rattle.fst_terms.specs.Indices.{lets, lets_of};
ghost use Rattle.fst_terms.specs.Terms.{plain_term, plain_terms};

use crate::term::Term;
use fst_base::{Box, OutOfMemory, Pos, Seq};
use std::alloc::Global;

/// The term, which holds no let, with every place 0.
#[cycle(clear)]
#[tactic(auto, using(crate::proofs::PlainLemmas::plain_variants))]
pub fn clear(alloc: Global, term: &Term) -> Result<Term, OutOfMemory>
    requires { lets (plain_term term.now) ≡ 0 }
    ensures { IfOk result (λ made. (n : ℕ) → plain_term made ≡ cleared n (plain_term term.now)) }
{
    match term {
        Term::Var(index) => Ok(Term::Var(*index)),
        Term::Int(number) => Ok(Term::Int(*number)),
        Term::Bool(truth) => Ok(Term::Bool(*truth)),
        Term::Unit => Ok(Term::Unit),
        Term::Prim(op, sort, args, _) => {
            let args = clear_all(alloc, args.as_slice())?;
            Ok(Term::Prim(*op, sort.copy(alloc)?, args, Pos { at: 0 }))
        }
        Term::If(test, left, right) => {
            let test = Box::new(alloc, clear(alloc, test.get())?)?;
            let left = Box::new(alloc, clear(alloc, left.get())?)?;
            let right = Box::new(alloc, clear(alloc, right.get())?)?;
            Ok(Term::If(test, left, right))
        }
        Term::App(function, sort, args) => {
            let args = clear_all(alloc, args.as_slice())?;
            Ok(Term::App(*function, sort.copy(alloc)?, args))
        }
        Term::Let(_, _, _) => unreachable!(),
    }
}

#[cycle(clear)]
pub fn clear_all(alloc: Global, terms: &[Term]) -> Result<Seq<Term>, OutOfMemory>
    requires { lets_of (plain_terms terms.now) ≡ 0 }
    ensures { IfOk result (λ made. (n : ℕ) → map plain_term made ≡ map (λ t. cleared n (plain_term t)) terms.now) }
{
    let mut made = Seq::new(alloc);
    for term in terms {
        made.push(clear(alloc, term)?)?;
    }
    Ok(made)
}
