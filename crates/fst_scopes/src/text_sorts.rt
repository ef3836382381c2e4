//! The sort of the value that a text gives.

ghost use Rattle.std.specs.Prelude.{◌≡◌, ◌∷◌, IfOk};
ghost use Rattle.fst_base.specs.Sorts.{plain_sort};
ghost use Rattle.fst_program.specs.Paths.{arms_sort, text_sort};
ghost use Rattle.fst_program.specs.Plain.{plain_comp, plain_program};
ghost use Rattle.fst_program.specs.Texts.{c_match, result_at, result_sort};
ghost use Rattle.fst_program.proofs.PlainLemmas.{plain_arms};
ghost use Rattle.fst_scopes.specs.Scopes.{sorts_in};
ghost use Rattle.fst_terms.specs.Terms.{plain_term};

use crate::headers::{effect_at, fun_at};
use crate::sort_putting::put_sorts;
use crate::sorting::{boxed_sort, with_parts, with_sort};
use fst_base::{Box, OutOfMemory, Sort, boxed};
use fst_program::{Arm, Comp, Effect, Program};
use fst_terms::Term;
use std::alloc::Global;

/// The result sort of an effect at this value sort.
pub fn result_at(
    alloc: Global,
    program: &Program,
    effect: u32,
    sort: &Sort,
) -> Result<Box<Sort>, OutOfMemory>
    ensures { IfOk result (λ made. plain_sort made ≡ result_at (plain_program program.now) effect (plain_sort sort.now)) }
{
    match effect_at(program, effect) {
        Some(definition) => boxed(
            alloc,
            put_sorts(alloc, &definition.result, sort, &Sort::VarB),
        ),
        None => boxed(alloc, sort.copy(alloc)),
    }
}

/// The sort of the results of a function with this effect and this declared sort.
pub fn result_sort(
    alloc: Global,
    program: &Program,
    effect: Effect,
    sort: &Sort,
) -> Result<Box<Sort>, OutOfMemory>
    ensures { IfOk result (λ made. plain_sort made ≡ result_sort (plain_program program.now) effect (plain_sort sort.now)) }
{
    match effect {
        Effect::User(number) => result_at(alloc, program, number, sort),
        _ => boxed(alloc, sort.copy(alloc)),
    }
}

/// The sort of the text's value, where these are the sorts of its variables.
#[cycle(text_sort)]
#[tactic(auto, using(crate::proofs::PlainForms::comp_variants))]
pub fn text_sort(
    alloc: Global,
    text: &Comp,
    program: &Program,
    sorts: &[Sort],
) -> Result<Box<Sort>, OutOfMemory>
    ensures { IfOk result (λ sort. plain_sort sort ≡ text_sort (plain_program program.now) (sorts_in sorts.now) (plain_comp text.now)) }
{
    match text {
        Comp::Ret(term) => boxed_sort(alloc, term, sorts),
        Comp::Let(_, bound, rest) => {
            let first = text_sort(alloc, bound.get(), program, sorts)?;
            rest_sort(alloc, rest.get(), first.get(), program, sorts)
        }
        Comp::Bind(_, _, bound, rest) => {
            let first = text_sort(alloc, bound.get(), program, sorts)?;
            rest_sort(alloc, rest.get(), first.get(), program, sorts)
        }
        Comp::GhostLet(_, bound, rest) => {
            let first = text_sort(alloc, bound.get(), program, sorts)?;
            rest_sort(alloc, rest.get(), first.get(), program, sorts)
        }
        Comp::Assert(_, _, rest) => text_sort(alloc, rest.get(), program, sorts),
        Comp::If(_, left, _) => text_sort(alloc, left.get(), program, sorts),
        Comp::Match(term, _, arms) => match_sort(alloc, arms.as_slice(), term, program, sorts),
        Comp::Call(function, _, _) => match fun_at(program, *function) {
            Some(fun) => boxed(alloc, fun.sort.copy(alloc)),
            None => Box::new(alloc, Sort::Unit),
        },
        Comp::Reify(effect, sort, _, _) => result_at(alloc, program, *effect, sort),
        Comp::Reflect(_, sort, _, _) => boxed(alloc, sort.copy(alloc)),
        Comp::Return(_, part) => text_sort(alloc, part.get(), program, sorts),
        Comp::Lift(_, part) => text_sort(alloc, part.get(), program, sorts),
    }
}

/// The sort of the rest of a let.
#[cycle(text_sort)]
fn rest_sort(
    alloc: Global,
    rest: &Comp,
    first: &Sort,
    program: &Program,
    sorts: &[Sort],
) -> Result<Box<Sort>, OutOfMemory>
    ensures { IfOk result (λ sort. plain_sort sort ≡ text_sort (plain_program program.now) (plain_sort first.now ∷ sorts_in sorts.now) (plain_comp rest.now)) }
{
    let inner = with_sort(alloc, sorts, first)?;
    text_sort(alloc, rest, program, inner.as_slice())
}

/// The sort of a match.
#[cycle(text_sort)]
fn match_sort(
    alloc: Global,
    arms: &[Arm<Comp>],
    term: &Term,
    program: &Program,
    sorts: &[Sort],
) -> Result<Box<Sort>, OutOfMemory>
    ensures { IfOk result (λ made. plain_sort made ≡ text_sort (plain_program program.now) (sorts_in sorts.now) (c_match (plain_term term.now) 0 (plain_arms arms.now))) }
{
    let sort = boxed_sort(alloc, term, sorts)?;
    arms_sort(alloc, arms, program, sort.get(), sorts)
}

/// The sort of the first arm.
#[cycle(text_sort)]
fn arms_sort(
    alloc: Global,
    arms: &[Arm<Comp>],
    program: &Program,
    sort: &Sort,
    sorts: &[Sort],
) -> Result<Box<Sort>, OutOfMemory>
    ensures { IfOk result (λ made. plain_sort made ≡ arms_sort (plain_program program.now) (sorts_in sorts.now) (plain_sort sort.now) (plain_arms arms.now)) }
{
    if arms.len() == 0 {
        return Box::new(alloc, Sort::Unit);
    }
    let arm = &arms[0];
    let inner = with_parts(alloc, sorts, arm.con, sort)?;
    text_sort(alloc, &arm.body, program, inner.as_slice())
}
