ghost use Rattle.std.specs.Prelude.{◌≡◌, map, OnOk};
ghost use Rattle.fst_terms.specs.Flats.{literals, parts_of, parts_of_each};
ghost use Rattle.fst_terms.specs.Same.{firsts};
ghost use Rattle.fst_terms.specs.Terms.{plain_term};

use crate::firsts::add;
use crate::term::Term;
use fst_base::{OutOfMemory, Seq};
use std::alloc::Global;

/// Adds a term and its parts to the terms that were met before.
#[cycle(parts)]
fn add_parts(alloc: Global, term: &Term, met: &mut Seq<Term>) -> Result<(), OutOfMemory>
    ensures { OnOk result (map plain_term met.new ≡ firsts (map plain_term met.old) (parts_of (plain_term term.now))) }
{
    add(alloc, term, met)?;
    match term {
        Term::Prim(_, _, args, _) => add_all_parts(alloc, args.as_slice(), met),
        Term::If(test, left, right) => {
            add_parts(alloc, test.get(), met)?;
            add_parts(alloc, left.get(), met)?;
            add_parts(alloc, right.get(), met)
        }
        Term::App(_, _, args) => add_all_parts(alloc, args.as_slice(), met),
        Term::Var(_) => Ok(()),
        Term::Int(_) => Ok(()),
        Term::Bool(_) => Ok(()),
        Term::Unit => Ok(()),
        Term::Let(_, _, _) => Ok(()),
    }
}

/// Adds these terms and their parts to the terms that were met before.
#[cycle(parts)]
pub fn add_all_parts(alloc: Global, terms: &[Term], met: &mut Seq<Term>) -> Result<(), OutOfMemory>
    ensures { OnOk result (map plain_term met.new ≡ firsts (map plain_term met.old) (parts_of_each (map plain_term terms.now))) }
{
    for term in terms {
        add_parts(alloc, term, met)?;
    }
    Ok(())
}

/// Adds true, false and ().
pub fn add_literals(alloc: Global, met: &mut Seq<Term>) -> Result<(), OutOfMemory>
    ensures { OnOk result (map plain_term met.new ≡ firsts (map plain_term met.old) literals) }
{
    add(alloc, &Term::Bool(true), met)?;
    add(alloc, &Term::Bool(false), met)?;
    add(alloc, &Term::Unit, met)
}
