ghost use Rattle.std.specs.Prelude.{◌≡◌};
ghost use Rattle.fst_top.specs.Elaboration.{equation_of, if_of, prim_form, term_of};
ghost use Rattle.fst_top.specs.Elaborating.{Gives, plain_typed};
ghost use Rattle.fst_top.specs.Scopes.{vars_in};

use crate::elaborate::scope::Scope;
use crate::elaborate::stop::Stop;
use crate::elaborate::typed::{BuiltSort, TypedTerm};
use fst_base::{Box, Op, Pos, Seq, Sort, both};
use fst_reader::{FormNode, RawTerm};
use fst_terms::Term;
use std::alloc::Global;

/// The equation of two terms of one sort.
fn equation(alloc: Global, left: TypedTerm, right: TypedTerm, at: Pos) -> Result<TypedTerm, Stop>
    ensures { Gives plain_typed (equation_of at.at (plain_typed left) (plain_typed right)) result }
{
    if left.sort != right.sort {
        return Err(Stop::NotBuilt);
    }
    let mut sides = Seq::new(alloc);
    sides.push(left.term)?;
    sides.push(right.term)?;
    Ok(TypedTerm {
        term: Term::Prim(Op::Eq, Sort::Bool, sides, at),
        sort: BuiltSort::Bool,
    })
}

/// The `if` of three terms of sort bool.
fn choice(
    alloc: Global,
    test: TypedTerm,
    left: TypedTerm,
    right: TypedTerm,
) -> Result<TypedTerm, Stop>
    ensures { Gives plain_typed (if_of (plain_typed test) (plain_typed left) (plain_typed right)) result }
{
    if test.sort != BuiltSort::Bool
        || left.sort != BuiltSort::Bool
        || right.sort != BuiltSort::Bool
    {
        return Err(Stop::NotBuilt);
    }
    let test = Box::new(alloc, test.term)?;
    let left = Box::new(alloc, left.term)?;
    let right = Box::new(alloc, right.term)?;
    Ok(TypedTerm {
        term: Term::If(test, left, right),
        sort: BuiltSort::Bool,
    })
}

/// The term that a form is, in a scope.
#[cycle(term)]
#[tactic(auto, using(crate::proofs::ElaborationLemmas::terms))]
pub fn elaborate_term(alloc: Global, form: &RawTerm, scope: &Scope<'_>) -> Result<TypedTerm, Stop>
    ensures { Gives plain_typed (term_of form.now (vars_in scope.now)) result }
{
    match &form.node {
        FormNode::Ident(word) => scope.find(&word.text),
        FormNode::Int(_) => Err(Stop::NotBuilt),
        FormNode::Bool(truth) => Ok(TypedTerm {
            term: Term::Bool(*truth),
            sort: BuiltSort::Bool,
        }),
        FormNode::Unit => Ok(TypedTerm {
            term: Term::Unit,
            sort: BuiltSort::Unit,
        }),
        FormNode::Prim(op, sides) => elaborate_equation(
            alloc,
            *op,
            sides.as_slice(),
            form.at,
            scope,
        ),
        FormNode::If(test, left, right) => {
            let test = elaborate_term(alloc, test.get(), scope)?;
            let (test, left) = both(test, elaborate_term(alloc, left.get(), scope))?;
            let ((test, left), right) = both(
                (test, left),
                elaborate_term(alloc, right.get(), scope),
            )?;
            choice(alloc, test, left, right)
        }
        FormNode::App(_, _) => Err(Stop::NotBuilt),
        FormNode::Let(_, _, _) => Err(Stop::NotBuilt),
    }
}

/// The equation that the primitive of these sides is, in a scope.
#[cycle(term)]
fn elaborate_equation(
    alloc: Global,
    op: Op,
    sides: &[RawTerm],
    at: Pos,
    scope: &Scope<'_>,
) -> Result<TypedTerm, Stop>
    ensures { Gives plain_typed (term_of (prim_form at op sides.now) (vars_in scope.now)) result }
{
    if op != Op::Eq || sides.len() != 2 {
        return Err(Stop::NotBuilt);
    }
    let left = elaborate_term(alloc, &sides[0], scope)?;
    let (left, right) = both(left, elaborate_term(alloc, &sides[1], scope))?;
    equation(alloc, left, right, at)
}
