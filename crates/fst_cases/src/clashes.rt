//! Clashes of joined terms, and what they refute.

ghost use Rattle.std.specs.Prelude.{◌≡◌, ◌↔◌, ◌≤◌, ◌+◌, true, false, length, IsTrue, IfOk};
ghost use Rattle.fst_cases.specs.Clashes.{AreJoined, FoundUnequal, IsClosureOf, IsExplained, JoinedSides, MayBeUnequal, MayClash, MayDiffer};
ghost use Rattle.fst_cases.specs.Roles.{AreRoles};
ghost use Rattle.fst_cases.specs.Verdicts.{IsOf};
ghost use Rattle.fst_congruence.specs.Numbered.{term_at};
ghost use Rattle.fst_terms.specs.Branches.{HasMark, differ};
ghost use Rattle.fst_terms.specs.Flats.{Flt, truth_of};
ghost use Rattle.fst_terms.specs.Marks.{is_equation, marks_of};
ghost use Rattle.fst_terms.specs.Skeletons.{arg_of, rest_of};
ghost use Rattle.fst_terms.specs.Terms.{Tm};

use crate::closings::{count, refuted_by};
use crate::roles::{Role, Roles};
use crate::trail::number;
use crate::verdict::Leaf;
use fst_base::{OutOfMemory, Seq};
use fst_cert::Line;
use fst_congruence::{Closure, first_different};
use fst_terms::Mark;
use std::alloc::Global;

/// An atom's place, and the numbers of its sides.
#[derive(Clone, Copy, Debug)]
pub struct Sides {
    pub at: usize,
    pub left: u32,
    pub right: u32,
}

/// Whether these are numbers of joined terms.
fn are_joined(closure: &Closure, left: u32, right: u32) -> bool
    ensures { IsTrue result ↔ AreJoined closure.now left right }
{
    closure.numbers(left) && closure.numbers(right) && closure.label(left) == closure.label(right)
}

/// The sides of an equation that isn't true, where they are joined.
fn joined_sides(closure: &Closure, role: Role, mark: Mark, at: usize) -> Option<Sides>
    ensures { JoinedSides closure.now role mark at result }
{
    match role {
        Role::Equation(left, right) => {
            if mark != Mark::True && are_joined(closure, left, right) {
                Some(Sides { at, left, right })
            } else {
                None
            }
        }
        Role::Order => None,
        Role::Truth(_) => None,
    }
}

/// The first equation that isn't true and whose sides are joined.
pub fn first_unequal(closure: &Closure, roles: &[Role], marks: &[Mark]) -> Option<Sides>
    requires { length marks.now ≤ length roles.now }
    ensures { FoundUnequal closure.now roles.now marks.now result }
{
    for at in 0..marks.len() {
        let found = joined_sides(closure, roles[at], marks[at], at);
        if found.is_some() {
            return found;
        }
    }
    None
}

/// The refutation by an equation that isn't true and whose sides are joined.
pub fn refute_unequal(
    alloc: Global,
    closure: &Closure,
    marks: &[Mark],
    sides: Sides,
) -> Result<Leaf, OutOfMemory>
    requires { AreJoined closure.now sides.left sides.right }
    ensures { (f : Flt) (t : Tm) (m : Mark) → IsExplained f (marks_of marks.now) closure.now → HasMark f (marks_of marks.now) (sides.at + 1) t m → is_equation t ≡ true → truth_of m ≡ false → term_at f.terms sides.left ≡ arg_of t → term_at f.terms sides.right ≡ rest_of t → IfOk result (λ leaf. IsOf f marks.now leaf) }
{
    let lines = closure.explain(alloc, sides.left, sides.right)?;
    let verdict = Line::Unequal(number(sides.at)?, count(lines.as_slice())?);
    refuted_by(alloc, marks, lines, Seq::new(alloc), verdict)
}

/// The refutation by two joined terms with different constructors.
pub fn refute_different(
    alloc: Global,
    closure: &Closure,
    marks: &[Mark],
    left: u32,
    right: u32,
) -> Result<Leaf, OutOfMemory>
    requires { AreJoined closure.now left right }
    ensures { (f : Flt) → IsExplained f (marks_of marks.now) closure.now → differ (term_at f.terms left) (term_at f.terms right) ≡ true → IfOk result (λ leaf. IsOf f marks.now leaf) }
{
    let lines = closure.explain(alloc, left, right)?;
    let verdict = Line::Differ(count(lines.as_slice())?);
    refuted_by(alloc, marks, lines, Seq::new(alloc), verdict)
}

/// The refutation by two joined terms that begin with different constructors, with true and false or with two others, where there are
/// such.
fn refute_makers(
    alloc: Global,
    closure: &Closure,
    marks: &[Mark],
    truth: bool,
) -> Result<Option<Leaf>, OutOfMemory>
    ensures { (f : Flt) → IsClosureOf f marks.now closure.now → IfOk result (λ found. MayDiffer f marks.now closure.now truth found) }
{
    match first_different(alloc, closure, truth)? {
        None => Ok(None),
        Some(pair) => {
            let leaf = refute_different(alloc, closure, marks, pair.left, pair.right)?;
            Ok(Some(leaf))
        }
    }
}

/// The refutation by a false equation whose sides are joined, where there is one.
fn refute_sides(
    alloc: Global,
    closure: &Closure,
    roles: &Roles,
    marks: &[Mark],
) -> Result<Option<Leaf>, OutOfMemory>
    requires { length marks.now ≤ length roles.now.atoms }
    ensures { (f : Flt) → AreRoles f roles.now → IsClosureOf f marks.now closure.now → IfOk result (λ found. MayBeUnequal f roles.now.atoms marks.now closure.now found) }
{
    match first_unequal(closure, roles.atoms.as_slice(), marks) {
        None => Ok(None),
        Some(sides) => {
            let leaf = refute_unequal(alloc, closure, marks, sides)?;
            Ok(Some(leaf))
        }
    }
}

/// The refutation by a clash of a closure under marks of all atoms, where there is one.
pub fn clash(
    alloc: Global,
    closure: &Closure,
    roles: &Roles,
    marks: &[Mark],
) -> Result<Option<Leaf>, OutOfMemory>
    requires { length marks.now ≤ length roles.now.atoms }
    ensures { (f : Flt) → AreRoles f roles.now → IsClosureOf f marks.now closure.now → IfOk result (λ found. MayClash f marks.now closure.now found) }
{
    let unequal = refute_sides(alloc, closure, roles, marks)?;
    if unequal.is_some() {
        return Ok(unequal);
    }
    let truths = refute_makers(alloc, closure, marks, true)?;
    if truths.is_some() {
        return Ok(truths);
    }
    refute_makers(alloc, closure, marks, false)
}
