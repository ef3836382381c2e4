//! What the arguments of calls break.

ghost use Rattle.std.specs.Prelude.{◌≡◌, map, slice_get, IfOk, OnOk};
ghost use Rattle.fst_effects.specs.Scopes.{entry_of, scope_in};
ghost use Rattle.fst_sorting.specs.Bodies.{arg_breaks, args_break};
ghost use Rattle.fst_sorting.specs.Sites.{known_at};

use crate::known::Known;
use fst_effects::{Context, Entry, Found, Place, check_term};
use fst_names::{Ref, least};
use fst_trees::Form;
use std::alloc::Global;

/// What the argument of this number breaks; a ghost argument stands in a ghost place.
#[tactic(auto, using(crate::proofs::ArgumentLemmas::arguments))]
fn check_arg(
    alloc: Global,
    known: Known<'_>,
    is_ghost: bool,
    arg: &Form<Ref>,
    params: &[Entry],
    index: usize,
    context: &mut Context,
) -> Found
    ensures broken { IfOk result (λ found. found ≡ arg_breaks (known_at known.entry) is_ghost (scope_in context.old) arg.now (slice_get (map entry_of params.now) index)) }
    ensures scope { OnOk result (scope_in context.new ≡ scope_in context.old) }
{
    let callees = known.applied;
    if index < params.len() {
        let param = &params[index];
        let place = Place {
            callees,
            is_ghost: is_ghost || param.hidden,
        };
        check_term(alloc, place, arg, Some(param.sort.get()), context)
    } else {
        let place = Place { callees, is_ghost };
        check_term(alloc, place, arg, None, context)
    }
}

/// What any of the arguments of a call breaks.
#[tactic(auto, using(crate::proofs::ArgumentLemmas::lists))]
pub fn check_args(
    alloc: Global,
    known: Known<'_>,
    is_ghost: bool,
    args: &[Form<Ref>],
    params: &[Entry],
    context: &mut Context,
) -> Found
    ensures broken { IfOk result (λ found. found ≡ args_break (known_at known.entry) is_ghost (scope_in context.old) args.now (map entry_of params.now)) }
    ensures scope { OnOk result (scope_in context.new ≡ scope_in context.old) }
{
    let mut found = None;
    for index in 0..args.len() {
        let arg = check_arg(alloc, known, is_ghost, &args[index], params, index, context)?;
        found = least(found, arg);
    }
    Ok(found)
}
