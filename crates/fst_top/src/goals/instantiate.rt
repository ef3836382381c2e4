ghost use Rattle.std.specs.Prelude.{◌≡◌, get_or, map, reverse, IfOk};
ghost use Rattle.fst_terms.specs.Terms.{plain_term, plain_terms, t_unit};
ghost use Rattle.fst_terms.specs.Formulas.{put, vars_from};
ghost use Rattle.fst_top.specs.Goals.{AllSimple, TmSimple};

use fst_base::{Box, OutOfMemory, Seq};
use fst_terms::Term;
use std::alloc::Global;

/// The term with these terms in place of its variables, the last variable's last.
#[cycle(instantiate)]
#[tactic(auto, using(fst_terms::proofs::PlainLemmas::plain_variants))]
pub fn instantiate(alloc: Global, term: &Term, terms: &[Term]) -> Result<Term, OutOfMemory>
    requires { TmSimple (plain_term term.now) }
    ensures { IfOk result (λ made. plain_term made ≡ put (reverse (map plain_term terms.now)) (plain_term term.now)) }
{
    match term {
        Term::Var(index) => term_at(alloc, terms, *index),
        Term::Bool(truth) => Ok(Term::Bool(*truth)),
        Term::Unit => Ok(Term::Unit),
        Term::Prim(op, sort, sides, at) => {
            let sides = instantiate_all(alloc, sides.as_slice(), terms)?;
            Ok(Term::Prim(*op, sort.copy(alloc)?, sides, *at))
        }
        Term::If(test, left, right) => {
            let test = Box::new(alloc, instantiate(alloc, test.get(), terms)?)?;
            let left = Box::new(alloc, instantiate(alloc, left.get(), terms)?)?;
            let right = Box::new(alloc, instantiate(alloc, right.get(), terms)?)?;
            Ok(Term::If(test, left, right))
        }
        Term::Int(_) => unreachable!(),
        Term::App(_, _, _) => unreachable!(),
        Term::Let(_, _, _) => unreachable!(),
    }
}

#[cycle(instantiate)]
fn instantiate_all(alloc: Global, sides: &[Term], terms: &[Term]) -> Result<Seq<Term>, OutOfMemory>
    requires { AllSimple (plain_terms sides.now) }
    ensures { IfOk result (λ made. map plain_term made ≡ map (λ t. put (reverse (map plain_term terms.now)) (plain_term t)) sides.now) }
{
    let mut made = Seq::new(alloc);
    for side in sides {
        made.push(instantiate(alloc, side, terms)?)?;
    }
    Ok(made)
}

/// The term for the variable of this index.
fn term_at(alloc: Global, terms: &[Term], index: u32) -> Result<Term, OutOfMemory>
    ensures { IfOk result (λ made. plain_term made ≡ get_or (reverse (map plain_term terms.now)) index t_unit) }
{
    let index = index as usize;
    if index < terms.len() {
        let term = terms[terms.len() - 1 - index].copy(alloc)?;
        return Ok(term);
    }
    Ok(Term::Unit)
}

/// As many variables, the last one with index 0 at the end.
pub fn variables(alloc: Global, count: u32) -> Result<Seq<Term>, OutOfMemory>
    ensures { IfOk result (λ made. reverse (map plain_term made) ≡ vars_from 0 count) }
{
    let mut made = Seq::new(alloc);
    let mut index = count;
    while index > 0 {
        index -= 1;
        made.push(Term::Var(index))?;
    }
    Ok(made)
}
