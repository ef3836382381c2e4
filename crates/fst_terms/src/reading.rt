ghost use Rattle.std.specs.Prelude.{◌≡◌, length, map};
ghost use Rattle.fst_terms.specs.Flats.{agree, chosen, common, mark_of, plain_flat, reads};
ghost use Rattle.fst_terms.specs.Indices.{lets, lets_of};
ghost use Rattle.fst_terms.specs.Preparing.{read_equation};
ghost use Rattle.fst_terms.specs.Terms.{plain_term, plain_terms};

use crate::atoms::{Equation, operator_form};
use crate::flat::{Flat, Mark};
use crate::term::{Formula, Term};

/// The truth value of an atom, where the marks of the first atoms reach it.
fn mark_of(atoms: &[Term], marks: &[Mark], term: &Term) -> Option<bool>
    ensures { result ≡ mark_of (map plain_term atoms.now) marks.now (plain_term term.now) }
{
    for at in 0..atoms.len() {
        if at >= marks.len() {
            return None;
        }
        if term.same(&atoms[at]) {
            return Some(marks[at] == Mark::True);
        }
    }
    None
}

/// The value that both have.
fn common(left: Option<bool>, right: Option<bool>) -> Option<bool>
    ensures { result ≡ common left right }
{
    match (left, right) {
        (Some(a), Some(b)) => if a == b { Some(a) } else { None },
        _ => None,
    }
}

/// Whether both have the same value.
fn agree(left: Option<bool>, right: Option<bool>) -> Option<bool>
    ensures { result ≡ agree left right }
{
    match (left, right) {
        (Some(a), Some(b)) => Some(a == b),
        _ => None,
    }
}

/// The value of the side that the test chooses, and without a test the value that both sides have.
fn chosen(test: Option<bool>, left: Option<bool>, right: Option<bool>) -> Option<bool>
    ensures { result ≡ chosen test left right }
{
    match test {
        Some(true) => left,
        Some(false) => right,
        None => common(left, right),
    }
}

/// The value of a formula, which holds no let, under marks of the first atoms, where it has one.
#[cycle(read)]
pub fn read(flat: &Flat, marks: &[Mark], formula: &Formula) -> Option<bool>
    requires { lets (plain_term formula.now) ≡ 0 }
    ensures { result ≡ reads (plain_flat flat.now) marks.now (plain_term formula.now) }
{
    match formula {
        Term::Bool(truth) => Some(*truth),
        Term::If(test, left, right) => {
            let test = read(flat, marks, test.get());
            let left = read(flat, marks, left.get());
            let right = read(flat, marks, right.get());
            chosen(test, left, right)
        }
        Term::Prim(op, _, args, _) => {
            match operator_form(flat.vars.as_slice(), *op, args.as_slice()) {
                Equation::Units => Some(true),
                Equation::Bools => read_equation(flat, marks, args.as_slice()),
                Equation::Atom => mark_of(flat.atoms.as_slice(), marks, formula),
            }
        }
        Term::Var(_) => mark_of(flat.atoms.as_slice(), marks, formula),
        Term::Int(_) => mark_of(flat.atoms.as_slice(), marks, formula),
        Term::Unit => mark_of(flat.atoms.as_slice(), marks, formula),
        Term::App(_, _, _) => mark_of(flat.atoms.as_slice(), marks, formula),
        Term::Let(_, _, _) => mark_of(flat.atoms.as_slice(), marks, formula),
    }
}

/// The value of the equation of two bools.
#[cycle(read)]
fn read_equation(flat: &Flat, marks: &[Mark], sides: &[Term]) -> Option<bool>
    requires two { length sides.now ≡ 2 }
    requires lets { lets_of (plain_terms sides.now) ≡ 0 }
    ensures { result ≡ read_equation (plain_flat flat.now) marks.now (plain_terms sides.now) }
{
    let left = read(flat, marks, &sides[0]);
    let right = read(flat, marks, &sides[1]);
    agree(left, right)
}
