//! The turn of a call.

ghost use Rattle.std.specs.Prelude.{◌≡◌, map, IfOk};
ghost use Rattle.fst_base.specs.Sorts.{plain_sort};
ghost use Rattle.fst_logicfun.specs.Turns.{ends_at, turns_at};
ghost use Rattle.fst_program.specs.FunctionFacts.{with_input};
ghost use Rattle.fst_program.specs.Plain.{plain_program};
ghost use Rattle.fst_program.specs.Texts.{c_call, result_sort};
ghost use Rattle.fst_terms.specs.Terms.{plain_term, plain_terms, t_app};

use crate::clauses::is_user;
use crate::copying::copy_terms;
use crate::putting::put_all;
use crate::ways::{At, End, Turn, Turned};
use fst_base::{Box, OutOfMemory, Seq, one};
use fst_program::{Effect, Fun, Program};
use fst_scopes::{fun_at, result_sort};
use fst_terms::Term;
use std::alloc::Global;

/// The arguments, with the input where there is one.
fn with_input(
    alloc: Global,
    effect: Effect,
    args: &[Term],
    input: &Term,
) -> Result<Seq<Term>, OutOfMemory>
    ensures { IfOk result (λ made. map plain_term made ≡ with_input effect (map plain_term args.now) (plain_term input.now)) }
{
    let mut made = copy_terms(alloc, args)?;
    if is_user(effect) {
        made.push(input.copy(alloc)?)?;
    }
    Ok(made)
}

/// A call ends the way, in the application; where there is no such function there is no end.
pub fn call_turn<'a>(alloc: Global, function: u32, args: &[Term], at: &At<'a>) -> Turned<'a>
    ensures { IfOk result (λ made. turns_at at.now made ≡ ends_at (c_call function (plain_terms args.now) 0) at.now) }
{
    let Some(fun) = fun_at(at.program, function) else {
        return Ok(Turn::Ends(Seq::new(alloc)));
    };
    let args = put_all(alloc, args, at.scope)?;
    let args = with_input(alloc, fun.effect, args.as_slice(), at.input)?;
    let result = applied(alloc, at.program, function, fun, args)?;
    let hyps = copy_terms(alloc, at.hyps)?;
    Ok(Turn::Ends(one(alloc, End { hyps, result })?))
}

/// The application of a function.
fn applied(
    alloc: Global,
    program: &Program,
    function: u32,
    fun: &Fun,
    args: Seq<Term>,
) -> Result<Box<Term>, OutOfMemory>
    ensures { IfOk result (λ made. plain_term made ≡ t_app function (result_sort (plain_program program.now) fun.now.effect (plain_sort fun.now.sort)) (plain_terms args)) }
{
    let sort = result_sort(alloc, program, fun.effect, &fun.sort)?;
    Box::new(alloc, Term::App(function, sort.into_inner(), args))
}
