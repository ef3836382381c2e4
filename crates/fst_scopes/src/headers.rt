//! What stands in a program by its number.

ghost use Rattle.std.specs.Prelude.{◌≡◌, option_map};
ghost use Rattle.std.specs.Option.{option_copied};
ghost use Rattle.fst_program.specs.Plain.{plain_dm, plain_effect, plain_fun, plain_program};
ghost use Rattle.fst_program.specs.Texts.{bind_text, d_ret, effect_at, fun_at, if_there, lift_text, return_text};
ghost use Rattle.fst_terms.specs.Terms.{t_unit};

use fst_program::{DmTerm, EffectDef, Fun, Program};

/// The function of this number.
pub fn fun_at(program: &Program, function: u32) -> Option<&Fun>
    ensures { option_map plain_fun (option_copied result) ≡ fun_at (plain_program program.now) function }
{
    program.funs.get(function as usize)
}

/// The effect of this number.
pub fn effect_at(program: &Program, effect: u32) -> Option<&EffectDef>
    ensures { option_map plain_effect (option_copied result) ≡ effect_at (plain_program program.now) effect }
{
    program.effects.get(effect as usize)
}

/// The text of an effect's bind.
pub fn bind_text(program: &Program, effect: u32) -> Option<&DmTerm>
    ensures { if_there (option_map plain_dm (option_copied result)) (λ d. d) (d_ret t_unit) ≡ bind_text (plain_program program.now) effect }
{
    match effect_at(program, effect) {
        Some(effect) => Some(&effect.bind),
        None => None,
    }
}

/// The text of an effect's return.
pub fn return_text(program: &Program, effect: u32) -> Option<&DmTerm>
    ensures { if_there (option_map plain_dm (option_copied result)) (λ d. d) (d_ret t_unit) ≡ return_text (plain_program program.now) effect }
{
    match effect_at(program, effect) {
        Some(effect) => Some(&effect.ret),
        None => None,
    }
}

/// The text of a lift.
pub fn lift_text(program: &Program, lift: u32) -> Option<&DmTerm>
    ensures { if_there (option_map plain_dm (option_copied result)) (λ d. d) (d_ret t_unit) ≡ lift_text (plain_program program.now) lift }
{
    match program.lifts.get(lift as usize) {
        Some(lift) => Some(&lift.text),
        None => None,
    }
}
