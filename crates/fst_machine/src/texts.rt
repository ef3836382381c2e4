//! The texts that numbers of code name.

ghost use Rattle.std.specs.Prelude.{◌≡◌, option_map};
ghost use Rattle.std.specs.Option.{option_copied};
ghost use Rattle.fst_base.specs.Values.{Val};
ghost use Rattle.fst_program.specs.Plain.{plain_dm};
ghost use Rattle.fst_program.specs.Runs.{input_to};
ghost use Rattle.fst_program.specs.Texts.{effect_at, fun_at};
ghost use Rattle.fst_code.specs.Plain.{plain_code, plain_code_fun};
ghost use Rattle.fst_machine.specs.Memories.{InputIs};
ghost use Rattle.fst_machine.specs.Turns.{lift_at};
ghost use Rattle.fst_machine.specs.declared.memory.Memory.{Memory};

use fst_cells::Cell;
use fst_code::{Code, CodeFun};
use fst_program::{Arm, Comp, DmTerm, Effect};

/// The text of an effect's bind.
pub(crate) fn bind_text(code: &Code, effect: u32) -> Option<&DmTerm>
    ensures { option_map plain_dm (option_copied result) ≡ option_map (λ d. d.bind) (effect_at (plain_code code.now) effect) }
{
    match code.effects.get(effect as usize) {
        Some(definition) => Some(&definition.bind),
        None => None,
    }
}

/// The text of an effect's return.
pub(crate) fn return_text(code: &Code, effect: u32) -> Option<&DmTerm>
    ensures { option_map plain_dm (option_copied result) ≡ option_map (λ d. d.ret) (effect_at (plain_code code.now) effect) }
{
    match code.effects.get(effect as usize) {
        Some(definition) => Some(&definition.ret),
        None => None,
    }
}

/// The text of a lift.
pub(crate) fn lift_text(code: &Code, lift: u32) -> Option<&DmTerm>
    ensures { option_map plain_dm (option_copied result) ≡ option_map (λ l. l.text) (lift_at (plain_code code.now) lift) }
{
    match code.lifts.get(lift as usize) {
        Some(definition) => Some(&definition.text),
        None => None,
    }
}

/// The function of this number, where it is there.
pub(crate) fn function(code: &Code, number: u32) -> Option<&CodeFun>
    ensures { option_map plain_code_fun (option_copied result) ≡ fun_at (plain_code code.now) number }
{
    match code.funs.get(number as usize) {
        Some(Some(fun)) => Some(fun),
        _ => None,
    }
}

pub(crate) fn arm_body<T>(arm: &Arm<T>) -> &T
    ensures { result.now ≡ arm.now.body }
{
    &arm.body
}

pub(crate) fn body_of(fun: &CodeFun) -> &Comp
    ensures { result.now ≡ fun.now.body }
{
    &fun.body
}

/// The input that a function with this effect is given.
pub(crate) fn input_for(effect: Effect, input: Option<Cell>) -> Option<Cell>
    ensures { (m : Memory) (s : Val) → InputIs m input s → InputIs m result (input_to effect s) }
{
    match effect {
        Effect::User(_) => input,
        Effect::Pure => None,
        Effect::Ghost => None,
        Effect::Div => None,
    }
}
