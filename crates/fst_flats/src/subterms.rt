ghost use Rattle.std.specs.Prelude.{◌≡◌, map, OnOk};
ghost use Rattle.fst_terms.specs.Flats.{literals, parts_of, parts_of_each};
ghost use Rattle.fst_terms.specs.Same.{firsts};
ghost use Rattle.fst_terms.specs.Terms.{plain_term};

use crate::keyed::Keyed;
use fst_base::OutOfMemory;
use fst_terms::Term;
use std::alloc::Global;

/// Adds a term and its parts to the terms that were met before.
#[cycle(parts)]
#[tactic(auto, using(crate::proofs::PlainForms::plain_variants))]
fn add_parts(alloc: Global, term: &Term, met: &mut Keyed) -> Result<(), OutOfMemory>
    ensures { OnOk result (map plain_term met.new ≡ firsts (map plain_term met.old) (parts_of (plain_term term.now))) }
{
    met.add(alloc, term)?;
    match term {
        Term::Prim(_, _, args, _) => add_all_parts(alloc, args.as_slice(), met),
        Term::If(test, left, right) => {
            add_parts(alloc, test.get(), met)?;
            add_parts(alloc, left.get(), met)?;
            add_parts(alloc, right.get(), met)
        }
        Term::App(_, _, args) => add_all_parts(alloc, args.as_slice(), met),
        Term::Var(_) | Term::Int(_) | Term::Bool(_) | Term::Unit | Term::Let(_, _, _) => Ok(()),
    }
}

/// Adds these terms and their parts to the terms that were met before.
#[cycle(parts)]
pub fn add_all_parts(alloc: Global, terms: &[Term], met: &mut Keyed) -> Result<(), OutOfMemory>
    ensures { OnOk result (map plain_term met.new ≡ firsts (map plain_term met.old) (parts_of_each (map plain_term terms.now))) }
{
    for term in terms {
        add_parts(alloc, term, met)?;
    }
    Ok(())
}

/// Adds true, false and ().
#[tactic(auto, using(crate::proofs::PlainForms::plain_variants))]
pub fn add_literals(alloc: Global, met: &mut Keyed) -> Result<(), OutOfMemory>
    ensures { OnOk result (map plain_term met.new ≡ firsts (map plain_term met.old) literals) }
{
    met.add(alloc, &Term::Bool(true))?;
    met.add(alloc, &Term::Bool(false))?;
    met.add(alloc, &Term::Unit)
}
