ghost use Rattle.std.specs.Prelude.{◌≡◌, map, OnOk};
ghost use Rattle.fst_base.specs.Sorts.{plain_sort};
ghost use Rattle.fst_terms.specs.Flats.{all_atoms_in, atoms_in, sorts_of_vars};
ghost use Rattle.fst_terms.specs.Formulas.{sort_of};
ghost use Rattle.fst_terms.specs.Indices.{lets, lets_of};
ghost use Rattle.fst_terms.specs.Meaning.{plain_var};
ghost use Rattle.fst_terms.specs.Preparing.{equation_at, operator_form};
ghost use Rattle.fst_terms.specs.Same.{firsts};
ghost use Rattle.fst_terms.specs.Terms.{plain_term, plain_terms, t_var};

use crate::firsts::add;
use crate::sequent::Var;
use crate::term::Term;
use fst_base::{Op, OutOfMemory, Seq, Sort};
use std::alloc::Global;

/// How an equation is read.
#[derive(Clone, Copy)]
pub enum Equation {
    /// One of units is true, and has no atoms.
    Units,
    /// One of bools is read through.
    Bools,
    /// Another one is an atom.
    Atom,
}

/// How an equation at this sort is read.
fn equation_at(sort: &Sort) -> Equation
    ensures { result ≡ equation_at (plain_sort sort.now) }
{
    match sort {
        Sort::Unit => Equation::Units,
        Sort::Bool => Equation::Bools,
        _ => Equation::Atom,
    }
}

/// How an equation of a variable is read; one that there isn't counts as a unit.
fn equation_of_variable(vars: &[Var], index: u32) -> Equation
    ensures { result ≡ equation_at (sort_of (sorts_of_vars (map plain_var vars.now)) (t_var index)) }
{
    let index = index as usize;
    if index < vars.len() {
        equation_at(&vars[vars.len() - 1 - index].sort)
    } else {
        Equation::Units
    }
}

/// How an equation of a term, which holds no let, is read.
fn equation_of(vars: &[Var], term: &Term) -> Equation
    requires { lets (plain_term term.now) ≡ 0 }
    ensures { result ≡ equation_at (sort_of (sorts_of_vars (map plain_var vars.now)) (plain_term term.now)) }
{
    match term {
        Term::Var(index) => equation_of_variable(vars, *index),
        Term::Int(_) => Equation::Atom,
        Term::Bool(_) => Equation::Bools,
        Term::Unit => Equation::Units,
        Term::Prim(_, sort, _, _) => equation_at(sort),
        Term::If(_, left, _) => equation_of(vars, left.get()),
        Term::App(_, sort, _) => equation_at(sort),
        Term::Let(_, _, _) => unreachable!(),
    }
}

/// How a term of an operator is read.
pub fn operator_form(vars: &[Var], op: Op, args: &[Term]) -> Equation
    requires { lets_of (plain_terms args.now) ≡ 0 }
    ensures { result ≡ operator_form (sorts_of_vars (map plain_var vars.now)) op (plain_terms args.now) }
{
    if op != Op::Eq || args.len() != 2 {
        return Equation::Atom;
    }
    equation_of(vars, &args[0])
}

/// Adds the atoms of a formula, which holds no let, to those that were met before.
#[cycle(collect)]
pub fn collect(
    alloc: Global,
    vars: &[Var],
    term: &Term,
    atoms: &mut Seq<Term>,
) -> Result<(), OutOfMemory>
    requires { lets (plain_term term.now) ≡ 0 }
    ensures { OnOk result (map plain_term atoms.new ≡ firsts (map plain_term atoms.old) (atoms_in (sorts_of_vars (map plain_var vars.now)) (plain_term term.now))) }
{
    match term {
        Term::Bool(_) => Ok(()),
        Term::If(test, left, right) => {
            collect(alloc, vars, test.get(), atoms)?;
            collect(alloc, vars, left.get(), atoms)?;
            collect(alloc, vars, right.get(), atoms)
        }
        Term::Prim(op, _, args, _) => match operator_form(vars, *op, args.as_slice()) {
            Equation::Units => Ok(()),
            Equation::Bools => collect_all(alloc, vars, args.as_slice(), atoms),
            Equation::Atom => add(alloc, term, atoms),
        },
        Term::Var(_) => add(alloc, term, atoms),
        Term::Int(_) => add(alloc, term, atoms),
        Term::Unit => add(alloc, term, atoms),
        Term::App(_, _, _) => add(alloc, term, atoms),
        Term::Let(_, _, _) => add(alloc, term, atoms),
    }
}

#[cycle(collect)]
pub fn collect_all(
    alloc: Global,
    vars: &[Var],
    terms: &[Term],
    atoms: &mut Seq<Term>,
) -> Result<(), OutOfMemory>
    requires { lets_of (plain_terms terms.now) ≡ 0 }
    ensures { OnOk result (map plain_term atoms.new ≡ firsts (map plain_term atoms.old) (all_atoms_in (sorts_of_vars (map plain_var vars.now)) (map plain_term terms.now))) }
{
    for term in terms {
        collect(alloc, vars, term, atoms)?;
    }
    Ok(())
}
