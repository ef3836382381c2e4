//! What applications unfold to: a fact for each way of the function's body.

ghost use Rattle.std.specs.Prelude.{◌≡◌, map, reverse, IfOk};
ghost use Rattle.fst_base.specs.Sorts.{plain_sort};
ghost use Rattle.fst_logicfun.specs.Ends.{ends};
ghost use Rattle.fst_logicfun.specs.Makes.{Makes};
ghost use Rattle.fst_scopes.specs.Scopes.{sorts_in};
ghost use Rattle.fst_logicfun.specs.Ways.{plain_end, told};
ghost use Rattle.fst_program.specs.FunctionFacts.{own_args, own_input, unfolded};
ghost use Rattle.fst_program.specs.Paths.{demands_of};
ghost use Rattle.fst_program.specs.Plain.{plain_comp, plain_fun, plain_program};
ghost use Rattle.fst_terms.specs.Meaning.{plain_var};
ghost use Rattle.fst_terms.specs.Terms.{plain_term};

use crate::building::{Made, copied, equation, implies, joined};
use crate::clauses::{demands, own_args, own_input};
use crate::copying::copy_terms;
use crate::walking::ends;
use crate::ways::{End, Next, Text};
use fst_base::{OutOfMemory, Seq, Sort, boxed};
use fst_program::{Fun, Program};
use fst_terms::{Term, Var};
use std::alloc::Global;

/// The way's hypotheses imply that the application equals the way's result.
fn way_fact(alloc: Global, application: &Term, end: &End) -> Made
    ensures { Makes result (told (plain_term application.now) end.now) }
{
    let same = equation(
        alloc,
        copied(alloc, application),
        copied(alloc, end.result.get()),
    );
    implies(alloc, joined(alloc, end.hyps.as_slice()), same)
}

/// The fact of an end.
#[tactic(auto, unfolding(crate::specs::Makes::Makes))]
fn end_fact(alloc: Global, application: &Term, end: &End) -> Result<Term, OutOfMemory>
    ensures { IfOk result (λ made. plain_term made ≡ told (plain_term application.now) end.now) }
{
    way_fact(alloc, application, end)
}

/// The facts of these ends.
fn way_facts(alloc: Global, application: &Term, ends: &[End]) -> Result<Seq<Term>, OutOfMemory>
    ensures { IfOk result (λ made. map plain_term made ≡ map (told (plain_term application.now)) ends.now) }
{
    let mut made = Seq::new(alloc);
    for end in ends {
        made.push(end_fact(alloc, application, end)?)?;
    }
    Ok(made)
}

/// The ends of the function's body, on ways that begin with what the function demands.
fn body_ends(
    alloc: Global,
    program: &Program,
    sorts: &[Sort],
    fun: &Fun,
    args: &[Term],
    input: &Term,
) -> Result<Seq<End>, OutOfMemory>
    ensures { IfOk result (λ made. map plain_end made ≡ ends (plain_program program.now) (sorts_in sorts.now) (plain_comp fun.now.body) (reverse (map plain_term args.now)) (plain_term input.now) (reverse (demands_of (plain_fun fun.now) (map plain_term args.now) (plain_term input.now)))) }
{
    let hyps = demands(alloc, fun, args, input)?;
    let scope = copy_terms(alloc, args)?;
    let input = boxed(alloc, input.copy(alloc))?;
    let text = Text::Core(&fun.body, input);
    let next = Next { text, scope, hyps };
    ends(alloc, u64::MAX, program, sorts, &next)
}

/// The sorts of the variables.
fn sorts_of(alloc: Global, vars: &[Var]) -> Result<Seq<Sort>, OutOfMemory>
    ensures { IfOk result (λ made. map plain_sort made ≡ map (λ x. plain_sort x.sort) vars.now) }
{
    let mut made = Seq::new(alloc);
    for var in vars {
        made.push(var.sort.copy(alloc)?)?;
    }
    Ok(made)
}

/// The facts of unfolding an application of the function to these arguments.
pub fn unfolded(
    alloc: Global,
    program: &Program,
    vars: &[Var],
    application: &Term,
    fun: &Fun,
    args: &[Term],
) -> Result<Seq<Term>, OutOfMemory>
    ensures { IfOk result (λ made. map plain_term made ≡ unfolded (plain_program program.now) (reverse (map plain_var vars.now)) (plain_term application.now) (plain_fun fun.now) (own_args fun.now.effect (map plain_term args.now)) (own_input fun.now.effect (map plain_term args.now))) }
{
    let sorts = sorts_of(alloc, vars)?;
    let input = own_input(alloc, fun.effect, args)?;
    let args = own_args(fun.effect, args);
    let ends = body_ends(alloc, program, sorts.as_slice(), fun, args, input.get())?;
    way_facts(alloc, application, ends.as_slice())
}
