//! The applications in formulas, each once in order of first occurrence.

ghost use Rattle.std.specs.Prelude.{◌≡◌, ◌∷◌, [], filter, if◌then◌else◌, map, OnOk};
ghost use Rattle.fst_program.specs.FunctionFacts.{is_application};
ghost use Rattle.fst_terms.specs.Flats.{parts_of, parts_of_each};
ghost use Rattle.fst_terms.specs.Same.{firsts, is_among};
ghost use Rattle.fst_terms.specs.Terms.{plain_term};

use fst_base::{OutOfMemory, Seq};
use fst_terms::Term;
use std::alloc::Global;

/// Whether the term is one of these.
fn is_among(term: &Term, terms: &[Term]) -> bool
    ensures { result ≡ is_among (plain_term term.now) (map plain_term terms.now) }
{
    for other in terms {
        if term.same(other) {
            return true;
        }
    }
    false
}

/// Puts the term last, unless it is there.
fn add(alloc: Global, term: &Term, met: &mut Seq<Term>) -> Result<(), OutOfMemory>
    ensures { OnOk result (map plain_term met.new ≡ firsts (map plain_term met.old) (plain_term term.now ∷ [])) }
{
    if is_among(term, met.as_slice()) {
        return Ok(());
    }
    met.push(term.copy(alloc)?)
}

/// Adds the applications in a term, an outer one before its parts.
#[cycle(parts)]
#[tactic(auto, using(fst_scopes::proofs::PlainForms::plain_variants))]
fn add_parts(alloc: Global, term: &Term, met: &mut Seq<Term>) -> Result<(), OutOfMemory>
    ensures { OnOk result (map plain_term met.new ≡ firsts (map plain_term met.old) (filter is_application (parts_of (plain_term term.now)))) }
{
    match term {
        Term::Prim(_, _, args, _) => add_applications(alloc, args.as_slice(), met),
        Term::If(test, left, right) => {
            add_parts(alloc, test.get(), met)?;
            add_parts(alloc, left.get(), met)?;
            add_parts(alloc, right.get(), met)
        }
        Term::App(_, _, args) => {
            add(alloc, term, met)?;
            add_applications(alloc, args.as_slice(), met)
        }
        Term::Var(_) | Term::Int(_) | Term::Bool(_) | Term::Unit | Term::Let(_, _, _) => Ok(()),
    }
}

/// Adds the applications in these terms.
#[cycle(parts)]
pub fn add_applications(
    alloc: Global,
    terms: &[Term],
    met: &mut Seq<Term>,
) -> Result<(), OutOfMemory>
    ensures { OnOk result (map plain_term met.new ≡ firsts (map plain_term met.old) (filter is_application (parts_of_each (map plain_term terms.now)))) }
{
    for term in terms {
        add_parts(alloc, term, met)?;
    }
    Ok(())
}
