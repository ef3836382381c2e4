//! The equations that marks give.

ghost use Rattle.std.specs.Prelude.{◌≡◌, ◌<◌, ◌≤◌, ◌++◌, length, IfOk, OnOk};
ghost use Rattle.fst_cases.specs.Roles.{equation_at, given_equations, given_of};

use crate::trail::number;
use fst_base::{OutOfMemory, Seq};
use fst_cert::Line;
use fst_congruence::Equation;
use fst_terms::Mark;
use std::alloc::Global;

/// How congruence reads an atom, with numbers of terms.
#[derive(Clone, Copy, Debug)]
pub enum Role {
    /// An equation of these two.
    Equation(u32, u32),
    /// An order, of which it reads nothing.
    Order,
    /// This one, which equals its truth value.
    Truth(u32),
}

/// What congruence knows of a flat form: the numbers of true and false, and the role of each atom.
#[derive(Debug, Drop)]
pub struct Roles {
    pub yes: u32,
    pub no: u32,
    pub atoms: Seq<Role>,
}

/// The sides of the equation that an atom with this mark gives, where it gives one.
fn sides(roles: &Roles, role: Role, mark: Mark) -> Option<(u32, u32)>
    ensures { result ≡ given_of roles.now role mark }
{
    match role {
        Role::Equation(left, right) => if mark == Mark::True {
            Some((left, right))
        } else {
            None
        },
        Role::Order => None,
        Role::Truth(term) => Some((
            term,
            if mark == Mark::True {
                roles.yes
            } else {
                roles.no
            },
        )),
    }
}

/// Puts the equation there that the atom at this place gives.
fn put(
    roles: &Roles,
    marks: &[Mark],
    at: usize,
    equations: &mut Seq<Equation>,
) -> Result<(), OutOfMemory>
    requires atoms { at < length roles.now.atoms }
    requires marks { at < length marks.now }
    ensures { OnOk result (equations.new ≡ equations.old ++ equation_at roles.now marks.now at) }
{
    if let Some((left, right)) = sides(roles, roles.atoms.as_slice()[at], marks[at]) {
        let by = Line::Given(number(at)?);
        equations.push(Equation { left, right, by })?;
    }
    Ok(())
}

/// These equations and those of the marked atoms.
pub fn equations(
    alloc: Global,
    roles: &Roles,
    marks: &[Mark],
    always: &[Equation],
) -> Result<Seq<Equation>, OutOfMemory>
    requires { length marks.now ≤ length roles.now.atoms }
    ensures { IfOk result (λ equations. equations ≡ always.now ++ given_equations roles.now marks.now (length marks.now)) }
{
    let mut equations = Seq::new(alloc);
    for equation in always {
        equations.push(equation.copy(alloc)?)?;
    }
    for at in 0..marks.len() {
        put(roles, marks, at, &mut equations)?;
    }
    Ok(equations)
}
