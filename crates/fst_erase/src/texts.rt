//! Core text without ghost lets and assertions.

ghost use Rattle.std.specs.Prelude.{◌≡◌, ◌∷◌, ◌++◌, true, false, map, reverse, take, length, IfOk, OnOk};
ghost use Rattle.fst_terms.specs.Terms.{plain_terms};
ghost use Rattle.fst_program.specs.Erasure.{erased_text, erased_args};
ghost use Rattle.fst_program.specs.Plain.{plain_comp, plain_program};
ghost use Rattle.fst_program.specs.Texts.{params_of};
ghost use Rattle.fst_erase.specs.Parts.{plain_arm, erased_arm};

use crate::terms::{erase_args, erase_term};
use fst_base::{Box, Name, OutOfMemory, Seq, boxed, pair};
use fst_program::{Arm, Comp, Program};
use fst_terms::Term;
use std::alloc::Global;

/// The text as it is run. The marks of the variables in scope stand in order, true for a ghost one.
#[cycle(erase)]
pub(crate) fn erase_text(
    alloc: Global,
    program: &Program,
    scope: &mut Seq<bool>,
    text: &Comp,
) -> Result<Comp, OutOfMemory>
    ensures erased { IfOk result (λ made. plain_comp made ≡ erased_text (plain_program program.now) (reverse scope.old) (plain_comp text.now)) }
    ensures scope { scope.new ≡ scope.old }
{
    match text {
        Comp::Ret(term) => Ok(Comp::Ret(erase_term(alloc, scope, term)?)),
        Comp::Let(name, bound, rest) => {
            let bound = erase_box(alloc, program, scope, bound.get());
            let rest = erase_under(alloc, program, scope, rest.get());
            let ((name, bound), rest) = pair(pair(name.copy(alloc), bound), rest)?;
            Ok(Comp::Let(name, bound, rest))
        }
        Comp::Bind(effect, name, bound, rest) => {
            let bound = erase_box(alloc, program, scope, bound.get());
            let rest = erase_under(alloc, program, scope, rest.get());
            let ((name, bound), rest) = pair(pair(name.copy(alloc), bound), rest)?;
            Ok(Comp::Bind(*effect, name, bound, rest))
        }
        Comp::GhostLet(_, _, rest) => erase_ghost_rest(alloc, program, scope, rest.get()),
        Comp::Assert(_, _, rest) => erase_text(alloc, program, scope, rest.get()),
        Comp::If(test, left, right) => {
            let left = erase_box(alloc, program, scope, left.get());
            let right = erase_box(alloc, program, scope, right.get());
            let ((test, left), right) = pair(pair(erase_term(alloc, scope, test), left), right)?;
            Ok(Comp::If(test, left, right))
        }
        Comp::Match(term, at, arms) => {
            let term = erase_term(alloc, scope, term);
            let (term, arms) = pair(term, erase_arms(alloc, program, scope, arms.as_slice()))?;
            Ok(Comp::Match(term, *at, arms))
        }
        Comp::Call(function, args, at) => {
            let args = erase_call(alloc, program, scope, *function, args.as_slice())?;
            Ok(Comp::Call(*function, args, *at))
        }
        Comp::Reify(effect, sort, part, input) => {
            let part = erase_box(alloc, program, scope, part.get());
            let input = erase_term(alloc, scope, input);
            let ((sort, part), input) = pair(pair(sort.copy(alloc), part), input)?;
            Ok(Comp::Reify(*effect, sort, part, input))
        }
        Comp::Reflect(effect, sort, name, part) => {
            let front = pair(sort.copy(alloc), name.copy(alloc));
            let ((sort, name), part) = pair(front, erase_under(alloc, program, scope, part.get()))?;
            Ok(Comp::Reflect(*effect, sort, name, part))
        }
        Comp::Return(effect, part) => {
            Ok(Comp::Return(*effect, erase_box(alloc, program, scope, part.get())?))
        }
        Comp::Lift(lift, part) => {
            Ok(Comp::Lift(*lift, erase_box(alloc, program, scope, part.get())?))
        }
    }
}

#[cycle(erase)]
fn erase_box(
    alloc: Global,
    program: &Program,
    scope: &mut Seq<bool>,
    text: &Comp,
) -> Result<Box<Comp>, OutOfMemory>
    ensures erased { IfOk result (λ made. plain_comp made ≡ erased_text (plain_program program.now) (reverse scope.old) (plain_comp text.now)) }
    ensures scope { scope.new ≡ scope.old }
{
    boxed(alloc, erase_text(alloc, program, scope, text))
}

/// The same under one variable more.
#[cycle(erase)]
fn erase_under(
    alloc: Global,
    program: &Program,
    scope: &mut Seq<bool>,
    text: &Comp,
) -> Result<Box<Comp>, OutOfMemory>
    ensures erased { IfOk result (λ made. plain_comp made ≡ erased_text (plain_program program.now) (false ∷ reverse scope.old) (plain_comp text.now)) }
    ensures scope { scope.new ≡ scope.old }
{
    let vars = scope.len();
    scope.push(false)?;
    let made = erase_box(alloc, program, scope, text);
    scope.truncate(vars);
    made
}

/// What is left of a ghost let: its rest, without the variable.
#[cycle(erase)]
fn erase_ghost_rest(
    alloc: Global,
    program: &Program,
    scope: &mut Seq<bool>,
    text: &Comp,
) -> Result<Comp, OutOfMemory>
    ensures erased { IfOk result (λ made. plain_comp made ≡ erased_text (plain_program program.now) (true ∷ reverse scope.old) (plain_comp text.now)) }
    ensures scope { scope.new ≡ scope.old }
{
    let vars = scope.len();
    scope.push(true)?;
    let made = erase_text(alloc, program, scope, text);
    scope.truncate(vars);
    made
}

#[cycle(erase)]
fn erase_arms(
    alloc: Global,
    program: &Program,
    scope: &mut Seq<bool>,
    arms: &[Arm<Comp>],
) -> Result<Seq<Arm<Comp>>, OutOfMemory>
    ensures erased { IfOk result (λ made. map plain_arm made ≡ map (λ a. erased_arm (plain_program program.now) (reverse scope.old) (plain_arm a)) arms.now) }
    ensures scope { scope.new ≡ scope.old }
{
    let mut made = Seq::new(alloc);
    for arm in arms {
        let body = erase_bound(alloc, program, scope, arm.names.as_slice(), &arm.body);
        let (names, body) = pair(copy_names(alloc, arm.names.as_slice()), body)?;
        let con = arm.con;
        made.push(Arm { con, names, body })?;
    }
    Ok(made)
}

/// The text under the variables that a pattern binds.
#[cycle(erase)]
fn erase_bound(
    alloc: Global,
    program: &Program,
    scope: &mut Seq<bool>,
    names: &[Name],
    text: &Comp,
) -> Result<Comp, OutOfMemory>
    ensures erased { IfOk result (λ made. plain_comp made ≡ erased_text (plain_program program.now) (map (λ x. false) names.now ++ reverse scope.old) (plain_comp text.now)) }
    ensures scope { scope.new ≡ scope.old }
{
    let vars = scope.len();
    let made = erase_pushed(alloc, program, scope, names, text);
    scope.truncate(vars);
    made
}

/// The same, where the variables' marks are left in the scope.
#[cycle(erase)]
fn erase_pushed(
    alloc: Global,
    program: &Program,
    scope: &mut Seq<bool>,
    names: &[Name],
    text: &Comp,
) -> Result<Comp, OutOfMemory>
    ensures erased { IfOk result (λ made. plain_comp made ≡ erased_text (plain_program program.now) (map (λ x. false) names.now ++ reverse scope.old) (plain_comp text.now)) }
    ensures kept { take (length scope.old) scope.new ≡ scope.old }
{
    push_shown(scope, names)?;
    erase_text(alloc, program, scope, text)
}

/// Marks as many variables more, none of them a ghost one.
fn push_shown(scope: &mut Seq<bool>, names: &[Name]) -> Result<(), OutOfMemory>
    ensures ok { OnOk result (scope.new ≡ scope.old ++ map (λ x. false) names.now) }
    ensures kept { take (length scope.old) scope.new ≡ scope.old }
{
    for _name in names {
        scope.push(false)?;
    }
    Ok(())
}

fn copy_names(alloc: Global, names: &[Name]) -> Result<Seq<Name>, OutOfMemory>
    ensures { IfOk result (λ copies. copies ≡ names.now) }
{
    let mut copies = Seq::new(alloc);
    for name in names {
        copies.push(name.copy(alloc)?)?;
    }
    Ok(copies)
}

/// The arguments of a call without the ghost ones.
fn erase_call(
    alloc: Global,
    program: &Program,
    scope: &mut Seq<bool>,
    function: u32,
    args: &[Term],
) -> Result<Seq<Term>, OutOfMemory>
    ensures erased { IfOk result (λ made. plain_terms made ≡ erased_args (reverse scope.old) (params_of (plain_program program.now) function) (plain_terms args.now)) }
    ensures scope { scope.new ≡ scope.old }
{
    match program.funs.get(function as usize) {
        Some(callee) => erase_args(alloc, scope, callee.params.as_slice(), args),
        None => erase_args(alloc, scope, &[], args),
    }
}
