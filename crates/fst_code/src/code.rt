ghost use Rattle.std.specs.Prelude.{◌≡◌, ◌+◌, ◌<◌, map, drop, length, true};
ghost use Rattle.std.specs.List.{list_all};
ghost use Rattle.fst_program.specs.Texts.{if_there};
ghost use Rattle.fst_program.specs.Plain.{plain_effect, plain_lift, plain_param};

use crate::definition::dm_within;
use crate::term::term_within;
use fst_base::{Name, Seq, Sort};
use fst_program::{Comp, Effect, EffectDef, LiftDef, Param};

/// A function of code. `group` is the number of the first function of its group.
#[derive(Drop)]
pub struct CodeFun {
    pub name: Name,
    pub params: Seq<Param>,
    pub effect: Effect,
    pub sort: Sort,
    pub body: Comp,
    pub group: u32,
}

/// What is left of a program for a run: a GHOST function is `None`, so that the others keep their numbers.
#[derive(Drop)]
pub struct Code {
    pub effects: Seq<EffectDef>,
    pub lifts: Seq<LiftDef>,
    pub funs: Seq<Option<CodeFun>>,
}

impl Code {
    ghost use Rattle.fst_code.specs.Plain.{plain_code, plain_code_fun};
    ghost use Rattle.fst_code.specs.Sound.{is_sound, effect_sound, lift_sound, fun_sound, param_sound, params_sound, effect_within};

    /// Whether every index is in range, every callee is there, no function is GHOST, no text that runs holds an application, and no
    /// ghost parameter, ghost let or assertion is left.
    #[tactic(auto, using(crate::proofs::VariantLemmas::sound_parts))]
    pub fn sound(&self) -> bool
        ensures { result ≡ is_sound (plain_code self.now) }
    {
        self.effects_sound() && self.lifts_sound() && self.funs_sound()
    }

    fn effects_sound(&self) -> bool
        ensures { result ≡ list_all (λ d. effect_sound (plain_code self.now) (plain_effect d)) self.now.effects }
    {
        for definition in self.effects.as_slice() {
            if !self.effect_sound(definition) {
                return false;
            }
        }
        true
    }

    fn effect_sound(&self, definition: &EffectDef) -> bool
        ensures { result ≡ effect_sound (plain_code self.now) (plain_effect definition.now) }
    {
        self.effect_within(definition.base)
            && dm_within(&definition.ret, 2)
            && dm_within(&definition.bind, 1)
    }

    fn effect_within(&self, effect: Effect) -> bool
        ensures { result ≡ effect_within (plain_code self.now) effect }
    {
        match effect {
            Effect::User(number) => self.is_effect(number),
            Effect::Pure => true,
            Effect::Ghost => true,
            Effect::Div => true,
        }
    }

    fn lifts_sound(&self) -> bool
        ensures { result ≡ list_all (λ d. lift_sound (plain_code self.now) (plain_lift d)) self.now.lifts }
    {
        for lift in self.lifts.as_slice() {
            if !self.lift_sound(lift) {
                return false;
            }
        }
        true
    }

    fn lift_sound(&self, lift: &LiftDef) -> bool
        ensures { result ≡ lift_sound (plain_code self.now) (plain_lift lift.now) }
    {
        self.is_effect(lift.from) && self.is_effect(lift.to) && dm_within(&lift.text, 1)
    }

    fn funs_sound(&self) -> bool
        ensures { result ≡ list_all (λ f. if_there f (λ g. fun_sound (plain_code self.now) (plain_code_fun g)) true) self.now.funs }
    {
        for fun in self.funs.as_slice() {
            if let Some(fun) = fun {
                if !self.fun_sound(fun) {
                    return false;
                }
            }
        }
        true
    }

    fn fun_sound(&self, fun: &CodeFun) -> bool
        ensures { result ≡ fun_sound (plain_code self.now) (plain_code_fun fun.now) }
    {
        !matches!(fun.effect, Effect::Ghost)
            && self.effect_within(fun.effect)
            && (fun.group as usize) < self.funs.len()
            && self.params_sound(fun.params.as_slice())
            && self.text_sound(&fun.body, fun.params.len() as u64)
    }

    fn params_sound(&self, params: &[Param]) -> bool
        ensures { result ≡ params_sound (plain_code self.now) 0 (map plain_param params.now) }
    {
        for at in 0..params.len() {
            if !self.param_sound(&params[at], at as u64 + 1) {
                return false;
            }
        }
        true
    }

    /// Whether the parameter isn't a ghost one, and its refinement sees no more than the last `vars` parameters.
    fn param_sound(&self, param: &Param, vars: u64) -> bool
        ensures { result ≡ param_sound (plain_code self.now) vars (plain_param param.now) }
    {
        if param.hidden {
            return false;
        }
        match &param.refine {
            Some(formula) => term_within(formula, vars, self.funs.len()),
            None => true,
        }
    }
}
