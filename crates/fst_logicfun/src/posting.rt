//! The facts of applications: postconditions, or unfoldings.

ghost use Rattle.std.specs.Prelude.{◌≡◌, ◌∷◌, map, option_map, IfOk};
ghost use Rattle.fst_logicfun.specs.Makes.{Makes};
ghost use Rattle.fst_scopes.specs.Scopes.{terms_for};
ghost use Rattle.fst_logicfun.specs.Rounds.{each_of, facts_by};
ghost use Rattle.fst_program.specs.FunctionFacts.{own_args, own_input, posted};
ghost use Rattle.fst_program.specs.Plain.{plain_fun, plain_program};
ghost use Rattle.fst_terms.specs.DataFacts.{implies};
ghost use Rattle.fst_terms.specs.Formulas.{joined, put};
ghost use Rattle.fst_terms.specs.Terms.{plain_term, plain_terms, t_app};

use crate::building::{Made, implies, joined};
use crate::clauses::{clause_scope, demands, own_args, own_input};
use crate::copying::pushed;
use crate::putting::put;
use crate::unfolding::unfolded;
use crate::ways::Which;
use fst_base::{OutOfMemory, Seq, one};
use fst_program::{Fun, Program};
use fst_scopes::fun_at;
use fst_terms::{Formula, Term};
use std::alloc::Global;

/// The clause with the terms of the scope for its variables.
#[tactic(auto, unfolding(crate::specs::Makes::Makes))]
fn put_clause(alloc: Global, clause: &Formula, scope: &[Term]) -> Made
    ensures { Makes result (put (terms_for scope.now) (plain_term clause.now)) }
{
    put(alloc, clause, scope)
}

/// The clause under what is demanded.
fn under(alloc: Global, demands: &[Term], clause: &Formula, scope: &[Term]) -> Made
    ensures { Makes result (implies (joined (map plain_term demands.now)) (put (terms_for scope.now) (plain_term clause.now))) }
{
    implies(
        alloc,
        joined(alloc, demands),
        put_clause(alloc, clause, scope),
    )
}

/// What the function demands implies its ensures, where it has one, with the application for the result.
fn posted(
    alloc: Global,
    application: &Term,
    fun: &Fun,
    args: &[Term],
    input: &Term,
) -> Result<Seq<Term>, OutOfMemory>
    ensures { IfOk result (λ made. map plain_term made ≡ posted (plain_term application.now) (plain_fun fun.now) (map plain_term args.now) (plain_term input.now)) }
{
    let Some(gives) = &fun.gives else {
        return Ok(Seq::new(alloc));
    };
    let demands = demands(alloc, fun, args, input)?;
    let scope = clause_scope(alloc, fun.effect, args, input)?;
    let scope = pushed(scope, application.copy(alloc)?)?;
    one(
        alloc,
        under(alloc, demands.as_slice(), gives, scope.as_slice())?,
    )
}

/// The postconditions of an application to these arguments.
fn posted_at(
    alloc: Global,
    application: &Term,
    fun: &Fun,
    args: &[Term],
) -> Result<Seq<Term>, OutOfMemory>
    ensures { IfOk result (λ made. map plain_term made ≡ posted (plain_term application.now) (plain_fun fun.now) (own_args fun.now.effect (map plain_term args.now)) (own_input fun.now.effect (map plain_term args.now))) }
{
    let input = own_input(alloc, fun.effect, args)?;
    posted(
        alloc,
        application,
        fun,
        own_args(fun.effect, args),
        input.get(),
    )
}

/// The wanted facts of an application of the function to these arguments.
fn facts_at(
    alloc: Global,
    program: &Program,
    which: &Which,
    application: &Term,
    fun: &Fun,
    args: &[Term],
) -> Result<Seq<Term>, OutOfMemory>
    ensures { IfOk result (λ made. map plain_term made ≡ facts_by (plain_program program.now) which.now (plain_term application.now) (plain_fun fun.now) (own_args fun.now.effect (map plain_term args.now)) (own_input fun.now.effect (map plain_term args.now))) }
{
    match which {
        Which::Postconditions => posted_at(alloc, application, fun, args),
        Which::Unfoldings(vars) => unfolded(alloc, program, vars, application, fun, args),
    }
}

/// The wanted facts of a term: none, where it is no application of a function of the program.
#[tactic(auto, using(fst_scopes::proofs::PlainForms::plain_variants))]
pub fn facts_of(
    alloc: Global,
    program: &Program,
    which: &Which,
    term: &Term,
) -> Result<Seq<Term>, OutOfMemory>
    ensures { IfOk result (λ made. map plain_term made ≡ each_of (plain_program program.now) which.now (plain_term term.now)) }
{
    match term {
        Term::App(function, _, args) => match fun_at(program, *function) {
            Some(fun) => facts_at(alloc, program, which, term, fun, args.as_slice()),
            None => Ok(Seq::new(alloc)),
        },
        _ => Ok(Seq::new(alloc)),
    }
}
