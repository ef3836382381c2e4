//! What a search makes of a flat form once: the roles of its atoms.

ghost use Rattle.std.specs.Prelude.{◌≡◌, length, get_or, map, IfOk};
ghost use Rattle.fst_cases.specs.Making.{role_by, roles_by};
ghost use Rattle.fst_congruence.specs.Numbered.{IsOnce, number_of};
ghost use Rattle.fst_terms.specs.Flats.{plain_flat};
ghost use Rattle.fst_terms.specs.Terms.{plain_term, t_unit};

use crate::roles::{Role, Roles};
use fst_base::{Op, OutOfMemory, Seq};
use fst_congruence::{Places, number_of};
use fst_terms::{Flat, Term};
use std::alloc::Global;

/// The number of the argument at this place, that of () past the last one.
fn argument_number(
    terms: &[Term],
    places: &Places,
    args: &[Term],
    at: usize,
) -> Result<u32, OutOfMemory>
    requires { IsOnce (map plain_term terms.now) }
    ensures { IfOk result (λ number. number ≡ number_of (map plain_term terms.now) (get_or (map plain_term args.now) at t_unit)) }
{
    if at < args.len() {
        number_of(terms, places, &args[at])
    } else {
        number_of(terms, places, &Term::Unit)
    }
}

/// The role of an equation of these.
fn equation_role(terms: &[Term], places: &Places, args: &[Term]) -> Result<Role, OutOfMemory>
    requires { IsOnce (map plain_term terms.now) }
    ensures { IfOk result (λ role. role ≡ Role.Equation (number_of (map plain_term terms.now) (get_or (map plain_term args.now) 0 t_unit)) (number_of (map plain_term terms.now) (get_or (map plain_term args.now) 1 t_unit))) }
{
    let left = argument_number(terms, places, args, 0)?;
    let right = argument_number(terms, places, args, 1)?;
    Ok(Role::Equation(left, right))
}

/// The role of an atom that is itself true or false.
fn truth_role(terms: &[Term], places: &Places, atom: &Term) -> Result<Role, OutOfMemory>
    requires { IsOnce (map plain_term terms.now) }
    ensures { IfOk result (λ role. role ≡ Role.Truth (number_of (map plain_term terms.now) (plain_term atom.now))) }
{
    Ok(Role::Truth(number_of(terms, places, atom)?))
}

/// The role of an atom.
#[tactic(auto, using(crate::proofs::PlainForms::plain_variants))]
fn role_of(terms: &[Term], places: &Places, atom: &Term) -> Result<Role, OutOfMemory>
    requires { IsOnce (map plain_term terms.now) }
    ensures { IfOk result (λ role. role ≡ role_by (map plain_term terms.now) (plain_term atom.now)) }
{
    match atom {
        Term::Prim(Op::Eq, _, args, _) => equation_role(terms, places, args.as_slice()),
        Term::Prim(Op::Le, _, _, _) => Ok(Role::Order),
        _ => truth_role(terms, places, atom),
    }
}

/// The roles of these atoms.
fn roles_of(
    alloc: Global,
    terms: &[Term],
    places: &Places,
    atoms: &[Term],
) -> Result<Seq<Role>, OutOfMemory>
    requires { IsOnce (map plain_term terms.now) }
    ensures { IfOk result (λ roles. roles ≡ map (role_by (map plain_term terms.now)) (map plain_term atoms.now)) }
{
    let mut roles = Seq::new(alloc);
    for atom in atoms {
        roles.push(role_of(terms, places, atom)?)?;
    }
    Ok(roles)
}

/// The roles of a flat form's atoms.
pub fn make_roles(alloc: Global, flat: &Flat, places: &Places) -> Result<Roles, OutOfMemory>
    requires { IsOnce (plain_flat flat.now).terms }
    ensures { IfOk result (λ roles. roles ≡ roles_by (plain_flat flat.now)) }
{
    let terms = flat.terms.as_slice();
    let yes = number_of(terms, places, &Term::Bool(true))?;
    let no = number_of(terms, places, &Term::Bool(false))?;
    let atoms = roles_of(alloc, terms, places, flat.atoms.as_slice())?;
    Ok(Roles { yes, no, atoms })
}
