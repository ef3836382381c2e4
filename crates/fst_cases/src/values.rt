//! Formulas under marks, and the marks that give them their values.

ghost use Rattle.std.specs.Prelude.{◌≡◌, ◌↔◌, ◌≤◌, ℕ, length, Some, IfOk, IsTrue};
ghost use Rattle.fst_cases.specs.Cited.{rank_of, want_at};
ghost use Rattle.fst_cases.specs.Reading.{ShapeCore, Shows, plain_shape, truth_at, value_under};
ghost use Rattle.fst_terms.specs.Marks.{marks_of};
ghost use Rattle.fst_terms.specs.Skeletons.{agree, common};

use crate::cores::{Want, core_of, note, nothing};
use crate::known::Known;
use fst_base::{OutOfMemory, Seq};
use fst_shapes::Shape;
use fst_terms::Mark;
use std::alloc::Global;

/// The truth value of the atom of this number, where it is marked.
fn truth_at(marks: &[Mark], atom: u32) -> Option<bool>
    ensures { result ≡ truth_at (marks_of marks.now) atom }
{
    let after = atom as usize;
    if after == 0 || after > marks.len() {
        return None;
    }
    Some(marks[after - 1] == Mark::True)
}

/// The value that both have.
fn common(left: Option<bool>, right: Option<bool>) -> Option<bool>
    ensures { result ≡ common left right }
{
    match (left, right) {
        (Some(a), Some(b)) => if a == b { Some(a) } else { None },
        _ => None,
    }
}

/// Whether both have the same value.
fn agree(left: Option<bool>, right: Option<bool>) -> Option<bool>
    ensures { result ≡ agree left right }
{
    match (left, right) {
        (Some(a), Some(b)) => Some(a == b),
        _ => None,
    }
}

/// The value of a formula under marks, where it has one.
#[tactic(auto, using(crate::proofs::ValueLemmas::shape_variants))]
pub fn value(shape: &Shape, marks: &[Mark]) -> Option<bool>
    ensures { result ≡ value_under (marks_of marks.now) (plain_shape shape.now) }
{
    match shape {
        Shape::Truth(truth) => Some(*truth),
        Shape::Atom(atom) => truth_at(marks, *atom),
        Shape::If(test, left, right) => match value(test.get(), marks) {
            Some(true) => value(left.get(), marks),
            Some(false) => value(right.get(), marks),
            None => common(value(left.get(), marks), value(right.get(), marks)),
        },
        Shape::Same(left, right) => agree(value(left.get(), marks), value(right.get(), marks)),
    }
}

/// Whether the value is this one.
pub fn is_value(value: Option<bool>, wanted: bool) -> bool
    ensures { IsTrue result ↔ (value ≡ Some wanted) }
{
    match value {
        Some(truth) => truth == wanted,
        None => false,
    }
}

/// What gives the formula its value is read.
fn want(wants: &mut [Want], shape: &Shape, marks: &[Mark])
    ensures kept { (b : ℕ) → rank_of (want_at wants.old b) ≤ rank_of (want_at wants.new b) }
    ensures shows { Shows wants.new marks.now (plain_shape shape.now) }
{
    match shape {
        Shape::Truth(_) => {}
        Shape::Atom(atom) => note(wants, *atom, false),
        Shape::If(test, left, right) => {
            want(wants, test.get(), marks);
            match value(test.get(), marks) {
                Some(true) => want(wants, left.get(), marks),
                Some(false) => want(wants, right.get(), marks),
                None => {
                    want(wants, left.get(), marks);
                    want(wants, right.get(), marks);
                }
            }
        }
        Shape::Same(left, right) => {
            want(wants, left.get(), marks);
            want(wants, right.get(), marks);
        }
    }
}

/// The marks that give the formula its value, beside notes for each atom.
fn core_noted(
    alloc: Global,
    wants: &mut [Want],
    shape: &Shape,
    marks: &[Mark],
) -> Result<Seq<Known>, OutOfMemory>
    requires { length wants.old ≡ length marks.now }
    ensures { IfOk result (λ core. ShapeCore marks.now core (plain_shape shape.now)) }
{
    want(wants, shape, marks);
    core_of(alloc, wants, marks)
}

/// The marks that give the formula its value.
pub fn shape_core(alloc: Global, shape: &Shape, marks: &[Mark]) -> Result<Seq<Known>, OutOfMemory>
    ensures { IfOk result (λ core. ShapeCore marks.now core (plain_shape shape.now)) }
{
    let mut wants = nothing(alloc, marks.len())?;
    core_noted(alloc, wants.as_mut_slice(), shape, marks)
}
