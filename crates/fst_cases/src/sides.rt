//! The sorts of the sides of atoms.

ghost use Rattle.std.specs.Prelude.{◌≡◌, ◌<◌, length, map, slice_get, Some};
ghost use Rattle.fst_base.specs.Sorts.{plain_sort};
ghost use Rattle.fst_cases.specs.Sides.{NoLets, are_ints};
ghost use Rattle.fst_terms.specs.DataFacts.{is_int};
ghost use Rattle.fst_terms.specs.Flats.{plain_flat, sorts_of_vars};
ghost use Rattle.fst_terms.specs.Formulas.{sort_of};
ghost use Rattle.fst_terms.specs.Indices.{lets, lets_of};
ghost use Rattle.fst_terms.specs.Marks.{is_int_equation, var_sorts};
ghost use Rattle.fst_terms.specs.Meaning.{plain_var};
ghost use Rattle.fst_terms.specs.Terms.{Tm, plain_term, plain_terms, t_var};

use fst_base::{Op, Sort};
use fst_terms::{Flat, Term, Var};

/// Whether the sort is that of numbers.
#[tactic(auto, using(crate::proofs::PlainForms::plain_variants))]
fn is_int(sort: &Sort) -> bool
    ensures { result ≡ is_int (plain_sort sort.now) }
{
    match sort {
        Sort::Int => true,
        Sort::Unit | Sort::Bool | Sort::VarA | Sort::VarB => false,
        Sort::Pair(_, _) | Sort::Opt(_) | Sort::List(_) | Sort::Either(_, _) => false,
    }
}

/// Whether the variable is a number.
fn is_int_variable(vars: &[Var], index: u32) -> bool
    ensures { result ≡ is_int (sort_of (sorts_of_vars (map plain_var vars.now)) (t_var index)) }
{
    let index = index as usize;
    if index < vars.len() {
        is_int(&vars[vars.len() - 1 - index].sort)
    } else {
        false
    }
}

/// Whether the term, which holds no let, is a number.
#[tactic(auto, using(crate::proofs::PlainForms::plain_variants))]
pub fn is_int_term(vars: &[Var], term: &Term) -> bool
    requires { lets (plain_term term.now) ≡ 0 }
    ensures { result ≡ is_int (sort_of (sorts_of_vars (map plain_var vars.now)) (plain_term term.now)) }
{
    match term {
        Term::Var(index) => is_int_variable(vars, *index),
        Term::Int(_) => true,
        Term::Bool(_) => false,
        Term::Unit => false,
        Term::Prim(_, sort, _, _) => is_int(sort),
        Term::If(_, left, _) => is_int_term(vars, left.get()),
        Term::App(_, sort, _) => is_int(sort),
        Term::Let(_, _, _) => unreachable!(),
    }
}

/// Whether these are the sides of an equation of numbers.
fn are_ints(vars: &[Var], args: &[Term]) -> bool
    requires { lets_of (plain_terms args.now) ≡ 0 }
    ensures { result ≡ are_ints (sorts_of_vars (map plain_var vars.now)) (plain_terms args.now) }
{
    match args {
        [] => false,
        [first, ..] => is_int_term(vars, first),
    }
}

/// Whether the term, which holds no let, is an equation of numbers.
#[tactic(auto, using(crate::proofs::PlainForms::plain_variants))]
fn is_int_equation(vars: &[Var], term: &Term) -> bool
    requires { lets (plain_term term.now) ≡ 0 }
    ensures { result ≡ is_int_equation (sorts_of_vars (map plain_var vars.now)) (plain_term term.now) }
{
    match term {
        Term::Prim(Op::Eq, _, args, _) => are_ints(vars, args.as_slice()),
        _ => false,
    }
}

/// Whether the atom at this place is an equation of numbers.
pub fn is_number(flat: &Flat, at: usize) -> bool
    requires plain { NoLets (plain_flat flat.now).atoms }
    requires at { at < length flat.now.atoms }
    ensures { (t : Tm) → slice_get (plain_flat flat.now).atoms at ≡ Some t → result ≡ is_int_equation (var_sorts (plain_flat flat.now)) t }
{
    is_int_equation(flat.vars.as_slice(), &flat.atoms.as_slice()[at])
}
