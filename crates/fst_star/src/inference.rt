//! The transformer of a function.
ghost use Rattle.std.specs.Prelude.{◌≡◌, map, reverse, IfOk};
ghost use Rattle.fst_base.specs.Sorts.{plain_sort};
ghost use Rattle.fst_program.specs.Paths.{measures_at, own_input, own_vars, start};
ghost use Rattle.fst_program.specs.Plain.{plain_fun, plain_program};
ghost use Rattle.fst_scopes.specs.Scopes.{sorts_in, terms_for};
ghost use Rattle.fst_star.specs.Inference.{infer_fun, start_scope};
ghost use Rattle.fst_star.specs.Inferring.{GivesGoals, infer_of, scope_at};
ghost use Rattle.fst_star.specs.Plain.{plain_wp};
ghost use Rattle.fst_terms.specs.Meaning.{Vr, plain_var};
ghost use Rattle.fst_terms.specs.Terms.{plain_term};

use crate::calling::measures_at;
use crate::inferring::infer_at;
use crate::making::Node;
use crate::plugging::nothing;
use crate::spots::{Owner, Spot};
use crate::starting::{own_input, own_vars, start_vars};
use crate::wp::Wp;
use fst_base::{OutOfMemory, Seq, Sort, pair};
use fst_program::{Fun, Program};
use fst_scopes::fun_at;
use fst_terms::{Term, Var};
use std::alloc::Global;

/// The sorts of these variables.
fn var_sorts(alloc: Global, vars: &[Var]) -> Result<Seq<Sort>, OutOfMemory>
    ensures { IfOk result (λ made. map plain_sort made ≡ map (λ (x : Vr). x.sort) (map plain_var vars.now)) }
{
    let mut made = Seq::new(alloc);
    for var in vars {
        made.push(var.sort.copy(alloc)?)?;
    }
    Ok(made)
}

/// The sorts of a function's variables at its start.
fn start_sorts(alloc: Global, program: &Program, fun: &Fun) -> Result<Seq<Sort>, OutOfMemory>
    ensures { IfOk result (λ made. sorts_in made ≡ map (λ (x : Vr). x.sort) (start (plain_program program.now) (plain_fun fun.now)).vars) }
{
    let vars = start_vars(alloc, program, fun)?;
    var_sorts(alloc, vars.as_slice())
}

/// A function's measures at its start.
fn start_measures(alloc: Global, fun: &Fun) -> Result<Seq<Term>, OutOfMemory>
    ensures { IfOk result (λ made. map plain_term made ≡ measures_at (plain_fun fun.now) (reverse (own_vars (plain_fun fun.now)))) }
{
    let terms = own_vars(alloc, fun)?;
    measures_at(alloc, fun, terms.as_slice())
}

/// Where a function's body stands at its start.
fn start_spot(alloc: Global, program: &Program, fun: &Fun) -> Result<Spot, OutOfMemory>
    ensures scope { IfOk result (λ made. scope_at made ≡ start_scope (plain_program program.now) (plain_fun fun.now)) }
    ensures terms { IfOk result (λ made. terms_for made.terms ≡ own_vars (plain_fun fun.now)) }
    ensures input { IfOk result (λ made. plain_term made.input ≡ own_input (plain_fun fun.now)) }
{
    let lists = pair(start_sorts(alloc, program, fun), start_measures(alloc, fun));
    let own = pair(own_vars(alloc, fun), own_input(alloc, fun));
    let ((sorts, olds), (terms, input)) = pair(lists, own)?;
    Ok(Spot {
        sorts,
        olds,
        terms,
        input,
    })
}

/// The transformer of a function of the program.
fn infer_fun(alloc: Global, program: &Program, fun: &Fun) -> Node
    ensures { IfOk result (λ made. plain_wp made ≡ infer_fun (plain_program program.now) (plain_fun fun.now)) }
{
    let spot = start_spot(alloc, program, fun)?;
    let owner = Owner { program, fun };
    infer_at(alloc, &fun.body, &owner, &spot)
}

/// The same on the heap, of a function's number.
fn inferred(alloc: Global, program: &Program, fun: u32) -> Node
    ensures { IfOk result (λ made. plain_wp made ≡ infer_of (plain_program program.now) fun) }
{
    match fun_at(program, fun) {
        Some(fun) => infer_fun(alloc, program, fun),
        None => nothing(alloc),
    }
}

/// The transformer of the function with this number: what its body asks for, and its results. Where the program has no such
/// function it asks for nothing and has no result. Handed to `goals` it gives the function's goals. It wants memory also where an
/// index or a number of variables passes 32 bits.
pub fn infer(alloc: Global, program: &Program, fun: u32) -> Result<Wp, OutOfMemory>
    ensures transformer { IfOk result (λ made. plain_wp made ≡ infer_of (plain_program program.now) fun) }
    ensures goals { IfOk result (λ made. GivesGoals (plain_program program.now) fun (plain_wp made)) }
{
    let made = inferred(alloc, program, fun)?;
    Ok(made.into_inner())
}
