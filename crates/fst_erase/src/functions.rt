//! Functions without ghost parameters and clauses.

ghost use Rattle.std.specs.Prelude.{◌≡◌, map, option_map, reverse, IfOk, IsTrue};
ghost use Rattle.fst_code.specs.Plain.{plain_code, plain_code_fun};
ghost use Rattle.fst_code.specs.Sound.{is_sound};
ghost use Rattle.fst_program.specs.Discipline.{IsDisciplined};
ghost use Rattle.fst_program.specs.Erasure.{erased, erased_fun, erased_text, unless_ghost};
ghost use Rattle.fst_program.specs.Plain.{plain_comp, plain_fun, plain_param, plain_program};
ghost use Rattle.fst_program.specs.Sorted.{IsSorted};
ghost use Rattle.fst_erase.specs.Parts.{bare_param, shown_params};

use crate::texts::erase_text;
use fst_base::{OutOfMemory, Seq, pair};
use fst_code::{Code, CodeFun};
use fst_program::{Comp, Effect, EffectDef, Fun, LiftDef, Param, Program};
use std::alloc::Global;

/// The code of a program: what a run needs, without GHOST functions, ghost parameters and arguments, ghost lets, assertions and
/// clauses. Functions keep their numbers.
pub fn erase(alloc: Global, program: &Program) -> Result<Code, OutOfMemory>
    ensures erased { IfOk result (λ code. plain_code code ≡ erased (plain_program program.now)) }
    ensures sound { IsSorted (plain_program program.now) → IsDisciplined (plain_program program.now) → IfOk result (λ code. IsTrue (is_sound (plain_code code))) }
{
    let front = pair(
        copy_effects(alloc, program.effects.as_slice()),
        copy_lifts(alloc, program.lifts.as_slice()),
    );
    let ((effects, lifts), funs) = pair(front, erase_funs(alloc, program))?;
    Ok(Code {
        effects,
        lifts,
        funs,
    })
}

fn copy_effects(alloc: Global, effects: &[EffectDef]) -> Result<Seq<EffectDef>, OutOfMemory>
    ensures { IfOk result (λ copies. copies ≡ effects.now) }
{
    let mut copies = Seq::new(alloc);
    for effect in effects {
        copies.push(effect.copy(alloc)?)?;
    }
    Ok(copies)
}

fn copy_lifts(alloc: Global, lifts: &[LiftDef]) -> Result<Seq<LiftDef>, OutOfMemory>
    ensures { IfOk result (λ copies. copies ≡ lifts.now) }
{
    let mut copies = Seq::new(alloc);
    for lift in lifts {
        copies.push(lift.copy(alloc)?)?;
    }
    Ok(copies)
}

fn erase_funs(alloc: Global, program: &Program) -> Result<Seq<Option<CodeFun>>, OutOfMemory>
    ensures { IfOk result (λ made. map (option_map plain_code_fun) made ≡ map (λ f. unless_ghost (plain_program program.now) (plain_fun f)) program.now.funs) }
{
    let mut made = Seq::new(alloc);
    for fun in program.funs.as_slice() {
        made.push(erase_unless_ghost(alloc, program, fun)?)?;
    }
    Ok(made)
}

fn erase_unless_ghost(
    alloc: Global,
    program: &Program,
    fun: &Fun,
) -> Result<Option<CodeFun>, OutOfMemory>
    ensures { IfOk result (λ made. option_map plain_code_fun made ≡ unless_ghost (plain_program program.now) (plain_fun fun.now)) }
{
    if matches!(fun.effect, Effect::Ghost) {
        Ok(None)
    } else {
        Ok(Some(erase_fun(alloc, program, fun)?))
    }
}

fn erase_fun(alloc: Global, program: &Program, fun: &Fun) -> Result<CodeFun, OutOfMemory>
    ensures { IfOk result (λ made. plain_code_fun made ≡ erased_fun (plain_program program.now) (plain_fun fun.now)) }
{
    let head = pair(
        fun.name.copy(alloc),
        erase_params(alloc, fun.params.as_slice()),
    );
    let text = pair(fun.sort.copy(alloc), erase_body(alloc, program, fun));
    let ((name, params), (sort, body)) = pair(head, text)?;
    Ok(CodeFun {
        name,
        params,
        effect: fun.effect,
        sort,
        body,
        group: fun.group,
    })
}

/// The parameters that aren't ghost ones, without refinements.
fn erase_params(alloc: Global, params: &[Param]) -> Result<Seq<Param>, OutOfMemory>
    ensures { IfOk result (λ made. map plain_param made ≡ shown_params (map plain_param params.now)) }
{
    let mut made = Seq::new(alloc);
    for param in params {
        if !param.hidden {
            made.push(erase_param(alloc, param)?)?;
        }
    }
    Ok(made)
}

/// The parameter without its refinement.
fn erase_param(alloc: Global, param: &Param) -> Result<Param, OutOfMemory>
    ensures { IfOk result (λ made. plain_param made ≡ bare_param (plain_param param.now)) }
{
    let (name, sort) = pair(param.name.copy(alloc), param.sort.copy(alloc))?;
    Ok(Param {
        name,
        sort,
        hidden: param.hidden,
        refine: None,
    })
}

fn erase_body(alloc: Global, program: &Program, fun: &Fun) -> Result<Comp, OutOfMemory>
    ensures { IfOk result (λ made. plain_comp made ≡ erased_text (plain_program program.now) (reverse (map (λ p. p.hidden) fun.now.params)) (plain_comp fun.now.body)) }
{
    let mut scope = marks(alloc, fun.params.as_slice())?;
    erase_text(alloc, program, &mut scope, &fun.body)
}

/// Of each parameter whether it is a ghost one.
fn marks(alloc: Global, params: &[Param]) -> Result<Seq<bool>, OutOfMemory>
    ensures { IfOk result (λ marks. marks ≡ map (λ p. p.hidden) params.now) }
{
    let mut marks = Seq::new(alloc);
    for param in params {
        marks.push(param.hidden)?;
    }
    Ok(marks)
}
