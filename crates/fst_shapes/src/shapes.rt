//! Formulas as they are read under marks: with the numbers of their atoms.

ghost use Rattle.std.specs.Prelude.{◌≡◌, IfOk, ℕ, map};
ghost use Rattle.fst_shapes.specs.Shapes.{IsChoice, Shapes, first_by, is_either, number_in};
ghost use Rattle.fst_terms.specs.Skeletons.{Skl, k_atom, k_both, k_if, k_same, k_truth};
ghost use Rattle.fst_terms.specs.Terms.{Tm, plain_term};

use crate::turning::turned;
use fst_base::{Box, OutOfMemory, boxed, pair};
use fst_terms::Term;
use std::alloc::Global;

/// A formula as it is read: a truth value, an atom by its number from 1, an `if`, or both or neither of two formulas.
#[derive(Debug, Drop)]
pub enum Shape {
    Truth(bool),
    Atom(u32),
    If(Box<Shape>, Box<Shape>, Box<Shape>),
    Same(Box<Shape>, Box<Shape>),
}

/// A shape, where there is memory for it.
pub type Shaped = Result<Shape, OutOfMemory>;

#[tactic(auto, unfolding(crate::specs::Shapes::Shapes))]
pub fn truth(value: bool) -> Shaped
    ensures { (n : Tm → ℕ) → Shapes n result (k_truth value) }
{
    Ok(Shape::Truth(value))
}

/// The side that the test chooses.
pub fn choice(alloc: Global, test: Shaped, left: Shaped, right: Shaped) -> Shaped
    ensures shapes { (n : Tm → ℕ) (c p q : Skl) → Shapes n test c → Shapes n left p → Shapes n right q → Shapes n result (k_if c p q) }
    ensures made { IfOk result (λ made. IsChoice test left right made) }
{
    let front = pair(boxed(alloc, test), boxed(alloc, left));
    let ((test, left), right) = pair(front, boxed(alloc, right))?;
    Ok(Shape::If(test, left, right))
}

/// Both or neither.
pub fn agreement(alloc: Global, left: Shaped, right: Shaped) -> Shaped
    ensures { (n : Tm → ℕ) (p q : Skl) → Shapes n left p → Shapes n right q → Shapes n result (k_same p q) }
{
    let (left, right) = pair(boxed(alloc, left), boxed(alloc, right))?;
    Ok(Shape::Same(left, right))
}

/// Both.
pub fn both(alloc: Global, left: Shaped, right: Shaped) -> Shaped
    ensures { (n : Tm → ℕ) (p q : Skl) → Shapes n left p → Shapes n right q → Shapes n result (k_both p q) }
{
    choice(alloc, left, right, truth(false))
}

/// A count within 32 bits.
fn count(items: usize) -> Result<u32, OutOfMemory>
    ensures { IfOk result (λ count. count ≡ items) }
{
    match u32::try_from(items) {
        Ok(count) => Ok(count),
        Err(_) => Err(OutOfMemory),
    }
}

/// Whether the atom is this term or the other one.
fn is_either(term: &Term, other: &Term, atom: &Term) -> bool
    ensures { result ≡ is_either (plain_term term.now) (plain_term other.now) (plain_term atom.now) }
{
    if term.same(atom) {
        return true;
    }
    other.same(atom)
}

/// The number of the first of these that is this term or the other one; 0 for none.
fn first_either(atoms: &[Term], term: &Term, other: &Term) -> Result<u32, OutOfMemory>
    ensures { IfOk result (λ number. number ≡ first_by (is_either (plain_term term.now) (plain_term other.now)) (map plain_term atoms.now)) }
{
    for at in 0..atoms.len() {
        if is_either(term, other, &atoms[at]) {
            return count(at + 1);
        }
    }
    Ok(0)
}

/// The number of an atom.
fn number_of(alloc: Global, atoms: &[Term], term: &Term) -> Result<u32, OutOfMemory>
    ensures { IfOk result (λ number. number ≡ number_in atoms.now (plain_term term.now)) }
{
    let other = boxed(alloc, turned(alloc, term))?;
    first_either(atoms, term, other.get())
}

/// An atom.
pub fn atom(alloc: Global, atoms: &[Term], term: &Term) -> Shaped
    ensures { Shapes (number_in atoms.now) result (k_atom (plain_term term.now)) }
{
    Ok(Shape::Atom(number_of(alloc, atoms, term)?))
}
