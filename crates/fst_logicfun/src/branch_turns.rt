//! The turns of an `if` and of a match in core text.

ghost use Rattle.std.specs.Prelude.{◌≡◌, ◌++◌, map, option_map, reverse, IfOk};
ghost use Rattle.std.specs.Option.{option_copied};
ghost use Rattle.fst_logicfun.specs.Makes.{Makes};
ghost use Rattle.fst_scopes.specs.Scopes.{terms_for, sorts_in};
ghost use Rattle.fst_logicfun.specs.Turns.{arm_ends_at, arms_in, ends_at, first_con, next_ends, side_at, taken_ends, turns_at};
ghost use Rattle.fst_logicfun.specs.Ways.{arm_of, bool_of, plain_taken};
ghost use Rattle.fst_program.specs.Paths.{over};
ghost use Rattle.fst_program.specs.Plain.{plain_comp, plain_program};
ghost use Rattle.fst_program.specs.Texts.{c_if, c_match};
ghost use Rattle.fst_terms.specs.Formulas.{negation};
ghost use Rattle.fst_terms.specs.Terms.{Tm, plain_term};

use crate::building::{Made, copied, negation};
use crate::cases::{supposed, takings};
use crate::copying::copy_terms;
use crate::putting::put_boxed;
use crate::turns::onward;
use crate::ways::{At, Next, Taken, Text, Turn, Turned};
use fst_base::{OutOfMemory, Seq, boxed, one};
use fst_program::{Arm, Comp, Con};
use fst_scopes::boxed_sort;
use fst_terms::Term;
use std::alloc::Global;

/// The truth value of a literal.
#[tactic(auto, using(fst_scopes::proofs::PlainForms::plain_variants))]
pub fn literal(term: &Term) -> Option<bool>
    ensures { result ≡ bool_of (plain_term term.now) }
{
    match term {
        Term::Bool(value) => Some(*value),
        _ => None,
    }
}

/// The side of a literal, else each side under the condition or its negation.
pub fn if_turn<'a>(
    alloc: Global,
    test: &Term,
    left: &'a Comp,
    right: &'a Comp,
    at: &At<'a>,
) -> Turned<'a>
    ensures { IfOk result (λ made. turns_at at.now made ≡ ends_at (c_if (plain_term test.now) (plain_comp left.now) (plain_comp right.now)) at.now) }
{
    let test = put_boxed(alloc, test, at.scope)?;
    match literal(test.get()) {
        Some(true) => here(alloc, left, at),
        Some(false) => here(alloc, right, at),
        None => both_sides(alloc, test.get(), left, right, at),
    }
}

/// A text in place of one that it is a part of.
fn here<'a>(alloc: Global, text: &'a Comp, at: &At<'a>) -> Turned<'a>
    ensures { IfOk result (λ made. turns_at at.now made ≡ ends_at (plain_comp text.now) at.now) }
{
    let input = boxed(alloc, at.input.copy(alloc))?;
    let scope = copy_terms(alloc, at.scope)?;
    let hyps = copy_terms(alloc, at.hyps)?;
    onward(alloc, text, input, scope, hyps)
}

/// Both sides, under the condition and under its negation.
fn both_sides<'a>(
    alloc: Global,
    condition: &Term,
    left: &'a Comp,
    right: &'a Comp,
    at: &At<'a>,
) -> Turned<'a>
    ensures { IfOk result (λ made. turns_at at.now made ≡ side_at (plain_comp left.now) (plain_term condition.now) at.now ++ side_at (plain_comp right.now) (negation (plain_term condition.now)) at.now) }
{
    let mut made = Seq::new(alloc);
    made.push(side(alloc, copied(alloc, condition), left, at)?)?;
    let otherwise = negation(alloc, copied(alloc, condition));
    made.push(side(alloc, otherwise, right, at)?)?;
    Ok(Turn::Ways(made))
}

/// A side under a condition.
fn side<'a>(
    alloc: Global,
    condition: Made,
    side: &'a Comp,
    at: &At<'a>,
) -> Result<Next<'a>, OutOfMemory>
    ensures { (e : Tm) → Makes condition e → IfOk result (λ made. next_ends (plain_program at.now.program.now) (sorts_in at.now.sorts.now) made ≡ side_at (plain_comp side.now) e at.now) }
{
    let hyps = supposed(alloc, at.hyps, condition)?;
    let input = boxed(alloc, at.input.copy(alloc))?;
    let scope = copy_terms(alloc, at.scope)?;
    let text = Text::Core(side, input);
    Ok(Next { text, scope, hyps })
}

/// The arms of a match, each on the way of its constructor.
pub fn match_turn<'a>(alloc: Global, term: &Term, arms: &'a [Arm<Comp>], at: &At<'a>) -> Turned<'a>
    ensures { IfOk result (λ made. turns_at at.now made ≡ ends_at (c_match (plain_term term.now) 0 (arms_in arms.now)) at.now) }
{
    let term = put_boxed(alloc, term, at.scope)?;
    let sort = boxed_sort(alloc, term.get(), at.sorts)?;
    let ways = takings(alloc, first_con(arms), sort.get(), term.get(), at.hyps)?;
    Ok(Turn::Ways(arm_ways(alloc, ways.as_slice(), arms, at)?))
}

/// The arms on these ways.
fn arm_ways<'a>(
    alloc: Global,
    ways: &[Taken],
    arms: &'a [Arm<Comp>],
    at: &At<'a>,
) -> Result<Seq<Next<'a>>, OutOfMemory>
    ensures { IfOk result (λ made. over made (next_ends (plain_program at.now.program.now) (sorts_in at.now.sorts.now)) ≡ over (map plain_taken ways.now) (arm_ends_at (arms_in arms.now) at.now)) }
{
    let mut made = Seq::new(alloc);
    for way in ways {
        let more = arm_way(alloc, way, arms, at)?;
        made.append(more)?;
    }
    Ok(made)
}

/// The arm of a way's constructor; none, where there is no such arm.
fn arm_way<'a>(
    alloc: Global,
    way: &Taken,
    arms: &'a [Arm<Comp>],
    at: &At<'a>,
) -> Result<Seq<Next<'a>>, OutOfMemory>
    ensures { IfOk result (λ made. over made (next_ends (plain_program at.now.program.now) (sorts_in at.now.sorts.now)) ≡ arm_ends_at (arms_in arms.now) at.now (plain_taken way.now)) }
{
    match arm_of(arms, way.con) {
        Some(body) => one(alloc, taken(alloc, body, way, at)?),
        None => Ok(Seq::new(alloc)),
    }
}

/// The text of an arm, on the way of its constructor.
fn taken<'a>(
    alloc: Global,
    body: &'a Comp,
    way: &Taken,
    at: &At<'a>,
) -> Result<Next<'a>, OutOfMemory>
    ensures { IfOk result (λ made. next_ends (plain_program at.now.program.now) (sorts_in at.now.sorts.now) made ≡ taken_ends (plain_comp body.now) at.now (plain_taken way.now)) }
{
    let input = boxed(alloc, at.input.copy(alloc))?;
    let scope = with_parts(alloc, at.scope, way.parts.as_slice())?;
    let hyps = copy_terms(alloc, way.hyps.as_slice())?;
    let text = Text::Core(body, input);
    Ok(Next { text, scope, hyps })
}

/// The terms of the parts after those of the scope.
pub fn with_parts(alloc: Global, scope: &[Term], parts: &[Term]) -> Result<Seq<Term>, OutOfMemory>
    ensures { IfOk result (λ made. terms_for made ≡ reverse (map plain_term parts.now) ++ terms_for scope.now) }
{
    let mut made = copy_terms(alloc, scope)?;
    let parts = copy_terms(alloc, parts)?;
    made.append(parts)?;
    Ok(made)
}

/// The text of the first arm of this constructor.
fn arm_of(arms: &[Arm<Comp>], con: Con) -> Option<&Comp>
    ensures { option_map plain_comp (option_copied result) ≡ arm_of (arms_in arms.now) con }
{
    let (arm, more) = arms.split_first()?;
    if arm.con == con {
        Some(&arm.body)
    } else {
        arm_of(more, con)
    }
}

/// The constructor of the first arm.
fn first_con(arms: &[Arm<Comp>]) -> Option<Con>
    ensures { result ≡ first_con (arms_in arms.now) }
{
    match arms.split_first() {
        Some((arm, _)) => Some(arm.con),
        None => None,
    }
}
