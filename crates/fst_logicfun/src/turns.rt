//! What core text comes to in one turn of its walk.

ghost use Rattle.std.specs.Prelude.{◌≡◌, List, [], IfOk};
ghost use Rattle.fst_base.specs.Sorts.{s_unit, Srt};
ghost use Rattle.fst_scopes.specs.Scopes.{terms_for};
ghost use Rattle.fst_logicfun.specs.Ends.{ends};
ghost use Rattle.fst_logicfun.specs.Turns.{ends_at, turn_ends, turns_at};
ghost use Rattle.fst_program.specs.Texts.{Prog, c_assert, c_let, c_reflect, c_reify, c_ret};
ghost use Rattle.fst_program.specs.Plain.{plain_comp};
ghost use Rattle.fst_terms.specs.Terms.{plain_term};

use crate::building::copied;
use crate::cases::supposed;
use crate::copying::copy_terms;
use crate::putting::put_boxed;
use crate::ways::{At, End, Next, Rest, Text, Turn, Turned};
use fst_base::{Box, OutOfMemory, Seq, boxed, one};
use fst_program::Comp;
use fst_terms::{Formula, Term};
use std::alloc::Global;

/// A term ends the way.
pub fn ret_turn<'a>(alloc: Global, term: &Term, at: &At<'a>) -> Turned<'a>
    ensures { IfOk result (λ made. turns_at at.now made ≡ ends_at (c_ret (plain_term term.now)) at.now) }
{
    let result = put_boxed(alloc, term, at.scope)?;
    let hyps = copy_terms(alloc, at.hyps)?;
    Ok(Turn::Ends(one(alloc, End { hyps, result })?))
}

/// Core text as the one way on.
pub fn onward<'a>(
    alloc: Global,
    text: &'a Comp,
    input: Box<Term>,
    scope: Seq<Term>,
    hyps: Seq<Term>,
) -> Turned<'a>
    ensures { IfOk result (λ made. (P : Prog) (Ss : List Srt) → turn_ends P Ss made ≡ ends P Ss (plain_comp text.now) (terms_for scope) (plain_term input) (terms_for hyps)) }
{
    let text = Text::Core(text, input);
    Ok(Turn::Ways(one(alloc, Next { text, scope, hyps })?))
}

/// The rest of a let follows its first part.
pub fn let_turn<'a>(alloc: Global, bound: &'a Comp, rest: &'a Comp, at: &At<'a>) -> Turned<'a>
    ensures { IfOk result (λ made. turns_at at.now made ≡ ends_at (c_let [] (plain_comp bound.now) (plain_comp rest.now)) at.now) }
{
    let input = Box::new(alloc, Term::Unit)?;
    let scope = copy_terms(alloc, at.scope)?;
    let hyps = copy_terms(alloc, at.hyps)?;
    let below = copy_terms(alloc, at.scope)?;
    let after = boxed(alloc, at.input.copy(alloc))?;
    let first = Next {
        text: Text::Core(bound, input),
        scope,
        hyps,
    };
    let rest = Rest {
        text: Text::Core(rest, after),
        below,
        above: Seq::new(alloc),
    };
    Ok(Turn::Then(first, rest))
}

/// An assertion is a hypothesis from there on.
pub fn assert_turn<'a>(alloc: Global, formula: &Formula, rest: &'a Comp, at: &At<'a>) -> Turned<'a>
    ensures { IfOk result (λ made. turns_at at.now made ≡ ends_at (c_assert (plain_term formula.now) 0 (plain_comp rest.now)) at.now) }
{
    let formula = put_boxed(alloc, formula, at.scope)?;
    let hyps = supposed(alloc, at.hyps, copied(alloc, formula.get()))?;
    let input = boxed(alloc, at.input.copy(alloc))?;
    let scope = copy_terms(alloc, at.scope)?;
    onward(alloc, rest, input, scope, hyps)
}

/// A text on another input.
pub fn reify_turn<'a>(alloc: Global, part: &'a Comp, input: &Term, at: &At<'a>) -> Turned<'a>
    ensures { IfOk result (λ made. turns_at at.now made ≡ ends_at (c_reify 0 s_unit (plain_comp part.now) (plain_term input.now)) at.now) }
{
    let input = put_boxed(alloc, input, at.scope)?;
    let scope = copy_terms(alloc, at.scope)?;
    let hyps = copy_terms(alloc, at.hyps)?;
    onward(alloc, part, input, scope, hyps)
}

/// A text whose last variable is the input.
pub fn reflect_turn<'a>(alloc: Global, part: &'a Comp, at: &At<'a>) -> Turned<'a>
    ensures { IfOk result (λ made. turns_at at.now made ≡ ends_at (c_reflect 0 s_unit [] (plain_comp part.now)) at.now) }
{
    let input = Box::new(alloc, Term::Unit)?;
    let scope = supposed(alloc, at.scope, copied(alloc, at.input))?;
    let hyps = copy_terms(alloc, at.hyps)?;
    onward(alloc, part, input, scope, hyps)
}
