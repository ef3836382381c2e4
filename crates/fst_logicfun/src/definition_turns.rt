//! The turns of definition text, by its header.

ghost use Rattle.std.specs.Prelude.{◌≡◌, ◌++◌, [], map, option_map, IfOk};
ghost use Rattle.std.specs.Option.{option_copied};
ghost use Rattle.fst_base.specs.Sorts.{Srt, plain_sort};
ghost use Rattle.fst_logicfun.specs.Makes.{Makes};
ghost use Rattle.fst_scopes.specs.Scopes.{terms_for, sorts_in};
ghost use Rattle.fst_logicfun.specs.Turns.{dm_arm_ends_at, dm_arms_in, dm_ends_at, dm_first_con, dm_side_at, dm_taken_ends, first_run, next_ends, second_run, turn_ends, turns_at};
ghost use Rattle.fst_logicfun.specs.Ways.{dm_arm_of, plain_taken};
ghost use Rattle.fst_program.specs.Paths.{over};
ghost use Rattle.fst_program.specs.Plain.{plain_dm, plain_program};
ghost use Rattle.fst_program.specs.Texts.{Prog, d_if, d_let, d_match, d_ret, d_run_f, d_run_g};
ghost use Rattle.fst_terms.specs.Formulas.{negation, put, term_at};
ghost use Rattle.fst_terms.specs.Terms.{Tm, plain_term};

use crate::branch_turns::{literal, with_parts};
use crate::building::{Made, copied, negation};
use crate::cases::{supposed, takings};
use crate::copying::{copy_terms, pushed};
use crate::putting::put_boxed;
use crate::turns::onward;
use crate::ways::{At, End, Header, Next, Rest, Taken, Text, Turn, Turned};
use fst_base::{Box, OutOfMemory, Seq, boxed, one, pair};
use fst_program::{Arm, Con, DmTerm};
use fst_scopes::{boxed_sort, term_at};
use fst_terms::Term;
use std::alloc::Global;

/// An equal header.
pub fn copy_header<'a>(alloc: Global, header: &Header<'a>) -> Result<Header<'a>, OutOfMemory>
    ensures { IfOk result (λ copy. copy ≡ header.now) }
{
    let scope = copy_terms(alloc, header.scope.as_slice())?;
    let a = boxed(alloc, header.a.get().copy(alloc))?;
    let b = boxed(alloc, header.b.get().copy(alloc))?;
    Ok(Header {
        first: header.first,
        second: header.second,
        scope,
        a,
        b,
    })
}

/// The term with the header's sorts for the sort variables, and the terms of the scope for the variables.
fn put_at(
    alloc: Global,
    term: &Term,
    header: &Header,
    scope: &[Term],
) -> Result<Box<Term>, OutOfMemory>
    ensures { IfOk result (λ made. plain_term made ≡ put (terms_for scope.now) (term_at (plain_sort header.now.a) (plain_sort header.now.b) (plain_term term.now))) }
{
    let term = boxed(alloc, term_at(alloc, term, header.a.get(), header.b.get()))?;
    put_boxed(alloc, term.get(), scope)
}

/// A term ends the way.
fn ret_turn<'a>(alloc: Global, term: &Term, header: &Header<'a>, at: &At) -> Turned<'a>
    ensures { IfOk result (λ made. turns_at at.now made ≡ dm_ends_at (d_ret (plain_term term.now)) header.now at.now) }
{
    let result = put_at(alloc, term, header, at.scope)?;
    let hyps = copy_terms(alloc, at.hyps)?;
    Ok(Turn::Ends(one(alloc, End { hyps, result })?))
}

/// The rest of a let follows its first part.
fn let_turn<'a>(
    alloc: Global,
    bound: &'a DmTerm,
    rest: &'a DmTerm,
    header: &Header<'a>,
    at: &At,
) -> Turned<'a>
    ensures { IfOk result (λ made. turns_at at.now made ≡ dm_ends_at (d_let [] (plain_dm bound.now) (plain_dm rest.now)) header.now at.now) }
{
    let scope = copy_terms(alloc, at.scope)?;
    let hyps = copy_terms(alloc, at.hyps)?;
    let below = copy_terms(alloc, at.scope)?;
    let (inner, outer) = pair(copy_header(alloc, header), copy_header(alloc, header))?;
    let first = Next {
        text: Text::Definition(bound, inner),
        scope,
        hyps,
    };
    let rest = Rest {
        text: Text::Definition(rest, outer),
        below,
        above: Seq::new(alloc),
    };
    Ok(Turn::Then(first, rest))
}

/// The side of a literal, else each side under the condition or its negation.
fn if_turn<'a>(
    alloc: Global,
    test: &Term,
    left: &'a DmTerm,
    right: &'a DmTerm,
    header: &Header<'a>,
    at: &At,
) -> Turned<'a>
    ensures { IfOk result (λ made. turns_at at.now made ≡ dm_ends_at (d_if (plain_term test.now) (plain_dm left.now) (plain_dm right.now)) header.now at.now) }
{
    let test = put_at(alloc, test, header, at.scope)?;
    match literal(test.get()) {
        Some(true) => here(alloc, left, header, at),
        Some(false) => here(alloc, right, header, at),
        None => both_sides(alloc, test.get(), left, right, header, at),
    }
}

/// A text in place of one that it is a part of.
fn here<'a>(alloc: Global, text: &'a DmTerm, header: &Header<'a>, at: &At) -> Turned<'a>
    ensures { IfOk result (λ made. turns_at at.now made ≡ dm_ends_at (plain_dm text.now) header.now at.now) }
{
    let scope = copy_terms(alloc, at.scope)?;
    let hyps = copy_terms(alloc, at.hyps)?;
    let text = Text::Definition(text, copy_header(alloc, header)?);
    Ok(Turn::Ways(one(alloc, Next { text, scope, hyps })?))
}

/// Both sides, under the condition and under its negation.
fn both_sides<'a>(
    alloc: Global,
    condition: &Term,
    left: &'a DmTerm,
    right: &'a DmTerm,
    header: &Header<'a>,
    at: &At,
) -> Turned<'a>
    ensures { IfOk result (λ made. turns_at at.now made ≡ dm_side_at (plain_dm left.now) (plain_term condition.now) header.now at.now ++ dm_side_at (plain_dm right.now) (negation (plain_term condition.now)) header.now at.now) }
{
    let mut made = Seq::new(alloc);
    made.push(side(alloc, copied(alloc, condition), left, header, at)?)?;
    let otherwise = negation(alloc, copied(alloc, condition));
    made.push(side(alloc, otherwise, right, header, at)?)?;
    Ok(Turn::Ways(made))
}

/// A side under a condition.
fn side<'a>(
    alloc: Global,
    condition: Made,
    side: &'a DmTerm,
    header: &Header<'a>,
    at: &At,
) -> Result<Next<'a>, OutOfMemory>
    ensures { (e : Tm) → Makes condition e → IfOk result (λ made. next_ends (plain_program at.now.program.now) (sorts_in at.now.sorts.now) made ≡ dm_side_at (plain_dm side.now) e header.now at.now) }
{
    let hyps = supposed(alloc, at.hyps, condition)?;
    let scope = copy_terms(alloc, at.scope)?;
    let text = Text::Definition(side, copy_header(alloc, header)?);
    Ok(Next { text, scope, hyps })
}

/// The arms of a match, each on the way of its constructor.
fn match_turn<'a>(
    alloc: Global,
    term: &Term,
    arms: &'a [Arm<DmTerm>],
    header: &Header<'a>,
    at: &At,
) -> Turned<'a>
    ensures { IfOk result (λ made. turns_at at.now made ≡ dm_ends_at (d_match (plain_term term.now) (dm_arms_in arms.now)) header.now at.now) }
{
    let term = put_at(alloc, term, header, at.scope)?;
    let sort = boxed_sort(alloc, term.get(), at.sorts)?;
    let ways = takings(alloc, first_con(arms), sort.get(), term.get(), at.hyps)?;
    Ok(Turn::Ways(arm_ways(alloc, ways.as_slice(), arms, header, at)?))
}

/// The arms on these ways.
fn arm_ways<'a>(
    alloc: Global,
    ways: &[Taken],
    arms: &'a [Arm<DmTerm>],
    header: &Header<'a>,
    at: &At,
) -> Result<Seq<Next<'a>>, OutOfMemory>
    ensures { IfOk result (λ made. over made (next_ends (plain_program at.now.program.now) (sorts_in at.now.sorts.now)) ≡ over (map plain_taken ways.now) (dm_arm_ends_at (dm_arms_in arms.now) header.now at.now)) }
{
    let mut made = Seq::new(alloc);
    for way in ways {
        let more = arm_way(alloc, way, arms, header, at)?;
        made.append(more)?;
    }
    Ok(made)
}

/// The arm of a way's constructor; none, where there is no such arm.
fn arm_way<'a>(
    alloc: Global,
    way: &Taken,
    arms: &'a [Arm<DmTerm>],
    header: &Header<'a>,
    at: &At,
) -> Result<Seq<Next<'a>>, OutOfMemory>
    ensures { IfOk result (λ made. over made (next_ends (plain_program at.now.program.now) (sorts_in at.now.sorts.now)) ≡ dm_arm_ends_at (dm_arms_in arms.now) header.now at.now (plain_taken way.now)) }
{
    match arm_of(arms, way.con) {
        Some(body) => one(alloc, taken(alloc, body, way, header, at)?),
        None => Ok(Seq::new(alloc)),
    }
}

/// The text of an arm, on the way of its constructor.
fn taken<'a>(
    alloc: Global,
    body: &'a DmTerm,
    way: &Taken,
    header: &Header<'a>,
    at: &At,
) -> Result<Next<'a>, OutOfMemory>
    ensures { IfOk result (λ made. next_ends (plain_program at.now.program.now) (sorts_in at.now.sorts.now) made ≡ dm_taken_ends (plain_dm body.now) header.now at.now (plain_taken way.now)) }
{
    let scope = with_parts(alloc, at.scope, way.parts.as_slice())?;
    let hyps = copy_terms(alloc, way.hyps.as_slice())?;
    let text = Text::Definition(body, copy_header(alloc, header)?);
    Ok(Next { text, scope, hyps })
}

/// The text of the first arm of this constructor.
fn arm_of(arms: &[Arm<DmTerm>], con: Con) -> Option<&DmTerm>
    ensures { option_map plain_dm (option_copied result) ≡ dm_arm_of (dm_arms_in arms.now) con }
{
    let (arm, more) = arms.split_first()?;
    if arm.con == con {
        Some(&arm.body)
    } else {
        arm_of(more, con)
    }
}

/// The constructor of the first arm.
fn first_con(arms: &[Arm<DmTerm>]) -> Option<Con>
    ensures { result ≡ dm_first_con (dm_arms_in arms.now) }
{
    match arms.split_first() {
        Some((arm, _)) => Some(arm.con),
        None => None,
    }
}

/// A run of the header's first computation.
fn run_turn<'a>(alloc: Global, input: &Term, header: &Header<'a>, at: &At) -> Turned<'a>
    ensures { IfOk result (λ made. turns_at at.now made ≡ dm_ends_at (d_run_f (plain_term input.now)) header.now at.now) }
{
    let Some(text) = header.first else {
        return Ok(Turn::Ends(Seq::new(alloc)));
    };
    let input = put_at(alloc, input, header, at.scope)?;
    let scope = copy_terms(alloc, header.scope.as_slice())?;
    let hyps = copy_terms(alloc, at.hyps)?;
    onward(alloc, text, input, scope, hyps)
}

/// A run of the header's second computation, on a value.
fn run_on_turn<'a>(
    alloc: Global,
    value: &Term,
    input: &Term,
    header: &Header<'a>,
    at: &At,
) -> Turned<'a>
    ensures { IfOk result (λ made. turns_at at.now made ≡ dm_ends_at (d_run_g (plain_term value.now) (plain_term input.now)) header.now at.now) }
{
    let Some(text) = header.second else {
        return Ok(Turn::Ends(Seq::new(alloc)));
    };
    let value = put_at(alloc, value, header, at.scope)?;
    let scope = supposed(alloc, header.scope.as_slice(), copied(alloc, value.get()))?;
    let input = put_at(alloc, input, header, at.scope)?;
    let hyps = copy_terms(alloc, at.hyps)?;
    onward(alloc, text, input, scope, hyps)
}

/// The turn of definition text.
#[tactic(auto, using(crate::proofs::DmForms::dm_variants))]
pub fn definition_turn<'a>(
    alloc: Global,
    text: &'a DmTerm,
    header: &Header<'a>,
    at: &At,
) -> Turned<'a>
    ensures { IfOk result (λ made. turns_at at.now made ≡ dm_ends_at (plain_dm text.now) header.now at.now) }
{
    match text {
        DmTerm::Ret(term) => ret_turn(alloc, term, header, at),
        DmTerm::Let(_, bound, rest) => let_turn(alloc, bound.get(), rest.get(), header, at),
        DmTerm::If(test, left, right) => {
            if_turn(alloc, test, left.get(), right.get(), header, at)
        }
        DmTerm::Match(term, arms) => match_turn(alloc, term, arms.as_slice(), header, at),
        DmTerm::RunF(input) => run_turn(alloc, input, header, at),
        DmTerm::RunG(value, input) => run_on_turn(alloc, value, input, header, at),
    }
}
