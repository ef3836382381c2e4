//! The ends of the ways of a text, where calls stand as applications.
//!
//! A bind or a lift goes through the definition's text, and from there through its own parts as often as that text runs
//! them. So `levels` counts the calls that may still stand in one another: 2^64 of them are want of memory.

ghost use Rattle.std.specs.Prelude.{◌≡◌, ◌++◌, ◌∷◌, List, map, IfOk};
ghost use Rattle.fst_base.specs.Sorts.{Srt};
ghost use Rattle.fst_logicfun.specs.Ends.{at_end};
ghost use Rattle.fst_scopes.specs.Scopes.{terms_for, sorts_in};
ghost use Rattle.fst_logicfun.specs.Turns.{ends_at, next_ends, rest_ends, text_ends, turn_ends, turns_at};
ghost use Rattle.fst_logicfun.specs.Ways.{plain_end};
ghost use Rattle.fst_program.specs.Paths.{over};
ghost use Rattle.fst_program.specs.Plain.{plain_comp, plain_program};
ghost use Rattle.fst_program.specs.Texts.{Prog};
ghost use Rattle.fst_terms.specs.Terms.{plain_term, t_unit};

use crate::branch_turns::{if_turn, match_turn};
use crate::call_turns::call_turn;
use crate::copying::copy_terms;
use crate::definition_turns::{copy_header, definition_turn};
use crate::header_turns::{bind_turn, lift_turn, return_turn};
use crate::turns::{assert_turn, let_turn, reflect_turn, reify_turn, ret_turn};
use crate::ways::{At, End, Next, Rest, Text, Turn, Turned};
use fst_base::{Box, OutOfMemory, Seq, Sort, boxed, one};
use fst_program::{Comp, Program};
use fst_terms::Term;
use std::alloc::Global;

/// The ends, where there is memory for them.
type Ended = Result<Seq<End>, OutOfMemory>;

/// The turn of core text.
#[tactic(auto, using(fst_scopes::proofs::PlainForms::comp_variants))]
fn core_turn<'a>(alloc: Global, text: &'a Comp, at: &At<'a>) -> Turned<'a>
    ensures { IfOk result (λ made. turns_at at.now made ≡ ends_at (plain_comp text.now) at.now) }
{
    match text {
        Comp::Ret(term) => ret_turn(alloc, term, at),
        Comp::Let(_, bound, rest) => let_turn(alloc, bound.get(), rest.get(), at),
        Comp::GhostLet(_, bound, rest) => let_turn(alloc, bound.get(), rest.get(), at),
        Comp::Bind(effect, _, bound, rest) => {
            bind_turn(alloc, *effect, bound.get(), rest.get(), at)
        }
        Comp::Assert(formula, _, rest) => assert_turn(alloc, formula, rest.get(), at),
        Comp::If(test, left, right) => if_turn(alloc, test, left.get(), right.get(), at),
        Comp::Match(term, _, arms) => match_turn(alloc, term, arms.as_slice(), at),
        Comp::Call(function, args, _) => call_turn(alloc, *function, args.as_slice(), at),
        Comp::Reify(_, _, part, input) => reify_turn(alloc, part.get(), input, at),
        Comp::Reflect(_, _, _, part) => reflect_turn(alloc, part.get(), at),
        Comp::Return(effect, part) => return_turn(alloc, *effect, part.get(), at),
        Comp::Lift(lift, part) => lift_turn(alloc, *lift, part.get(), at),
    }
}

/// The unit value ends the way.
fn nothing_turn<'a>(alloc: Global, hyps: &[Term]) -> Turned<'a>
    ensures { IfOk result (λ made. (P : Prog) (Ss : List Srt) → turn_ends P Ss made ≡ at_end (terms_for hyps.now) t_unit) }
{
    let result = Box::new(alloc, Term::Unit)?;
    let hyps = copy_terms(alloc, hyps)?;
    Ok(Turn::Ends(one(alloc, End { hyps, result })?))
}

/// The turn of a text.
fn turn<'a>(
    alloc: Global,
    program: &'a Program,
    sorts: &'a [Sort],
    next: &'a Next<'a>,
) -> Turned<'a>
    ensures { IfOk result (λ made. turn_ends (plain_program program.now) (sorts_in sorts.now) made ≡ next_ends (plain_program program.now) (sorts_in sorts.now) next.now) }
{
    match &next.text {
        Text::Core(text, input) => {
            let at = At {
                program,
                sorts,
                scope: next.scope.as_slice(),
                input: input.get(),
                hyps: next.hyps.as_slice(),
            };
            core_turn(alloc, text, &at)
        }
        Text::Definition(text, header) => {
            let at = At {
                program,
                sorts,
                scope: next.scope.as_slice(),
                input: &Term::Unit,
                hyps: next.hyps.as_slice(),
            };
            definition_turn(alloc, text, header, &at)
        }
        Text::Nothing => nothing_turn(alloc, next.hyps.as_slice()),
    }
}

/// The ends of a text.
#[cycle(ends)]
pub fn ends(alloc: Global, levels: u64, program: &Program, sorts: &[Sort], next: &Next) -> Ended
    ensures { IfOk result (λ made. map plain_end made ≡ next_ends (plain_program program.now) (sorts_in sorts.now) next.now) }
{
    let Some(levels) = levels.checked_sub(1) else {
        return Err(OutOfMemory);
    };
    match turn(alloc, &*program, &*sorts, &*next)? {
        Turn::Ends(ends) => Ok(ends),
        Turn::Ways(ways) => ends_of(alloc, levels, program, sorts, ways.as_slice()),
        Turn::Then(first, rest) => then_ends(alloc, levels, program, sorts, &first, &rest),
    }
}

/// The ends of a text and what follows it.
#[cycle(ends)]
fn then_ends(
    alloc: Global,
    levels: u64,
    program: &Program,
    sorts: &[Sort],
    first: &Next,
    rest: &Rest,
) -> Ended
    ensures { IfOk result (λ made. map plain_end made ≡ over (next_ends (plain_program program.now) (sorts_in sorts.now) first.now) (rest_ends (plain_program program.now) (sorts_in sorts.now) rest.now)) }
{
    let firsts = ends(alloc, levels, program, sorts, first)?;
    ends_after(alloc, levels, program, sorts, firsts.as_slice(), rest)
}

/// The ends of these texts.
#[cycle(ends)]
fn ends_of(alloc: Global, levels: u64, program: &Program, sorts: &[Sort], ways: &[Next]) -> Ended
    ensures { IfOk result (λ made. map plain_end made ≡ over ways.now (next_ends (plain_program program.now) (sorts_in sorts.now))) }
{
    let mut made = Seq::new(alloc);
    for way in ways {
        let more = ends(alloc, levels, program, sorts, way)?;
        made.append(more)?;
    }
    Ok(made)
}

/// The ends of what follows these ends.
#[cycle(ends)]
fn ends_after(
    alloc: Global,
    levels: u64,
    program: &Program,
    sorts: &[Sort],
    firsts: &[End],
    rest: &Rest,
) -> Ended
    ensures { IfOk result (λ made. map plain_end made ≡ over (map plain_end firsts.now) (rest_ends (plain_program program.now) (sorts_in sorts.now) rest.now)) }
{
    let mut made = Seq::new(alloc);
    for first in firsts {
        let more = ends_from(alloc, levels, program, sorts, first, rest)?;
        made.append(more)?;
    }
    Ok(made)
}

/// The ends of what follows an end.
#[cycle(ends)]
fn ends_from(
    alloc: Global,
    levels: u64,
    program: &Program,
    sorts: &[Sort],
    first: &End,
    rest: &Rest,
) -> Ended
    ensures { IfOk result (λ made. map plain_end made ≡ rest_ends (plain_program program.now) (sorts_in sorts.now) rest.now (plain_end first.now)) }
{
    let next = resumed(alloc, rest, first)?;
    ends(alloc, levels, program, sorts, &next)
}

/// What follows an end.
fn resumed<'a>(alloc: Global, rest: &Rest<'a>, end: &End) -> Result<Next<'a>, OutOfMemory>
    ensures { IfOk result (λ made. (P : Prog) (Ss : List Srt) → next_ends P Ss made ≡ rest_ends P Ss rest.now (plain_end end.now)) }
{
    let below = rest.below.as_slice();
    let scope = between(alloc, below, end.result.get(), rest.above.as_slice())?;
    let hyps = copy_terms(alloc, end.hyps.as_slice())?;
    let text = copy_text(alloc, &rest.text)?;
    Ok(Next { text, scope, hyps })
}

/// The terms below, this one, and those above.
fn between(
    alloc: Global,
    below: &[Term],
    term: &Term,
    above: &[Term],
) -> Result<Seq<Term>, OutOfMemory>
    ensures { IfOk result (λ made. terms_for made ≡ terms_for above.now ++ plain_term term.now ∷ terms_for below.now) }
{
    let mut made = copy_terms(alloc, below)?;
    made.push(term.copy(alloc)?)?;
    let above = copy_terms(alloc, above)?;
    made.append(above)?;
    Ok(made)
}

/// An equal text.
fn copy_text<'a>(alloc: Global, text: &Text<'a>) -> Result<Text<'a>, OutOfMemory>
    ensures { IfOk result (λ copy. copy ≡ text.now) }
{
    match text {
        Text::Core(text, input) => {
            let input = boxed(alloc, input.get().copy(alloc))?;
            Ok(Text::Core(text, input))
        }
        Text::Definition(text, header) => {
            Ok(Text::Definition(text, copy_header(alloc, header)?))
        }
        Text::Nothing => Ok(Text::Nothing),
    }
}
