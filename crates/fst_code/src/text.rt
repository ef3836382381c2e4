ghost use Rattle.std.specs.Prelude.{◌≡◌, ◌+◌, ℕ, length};
ghost use Rattle.std.specs.List.{list_all};
ghost use Rattle.fst_terms.specs.Indices.{Stands};
ghost use Rattle.fst_program.specs.Plain.{plain_comp};

use crate::code::Code;
use crate::term::{term_within, terms_within};
use fst_program::{Arm, Comp};

impl Code {
    ghost use Rattle.fst_code.specs.Plain.{plain_code};
    ghost use Rattle.fst_code.specs.Sound.{text_sound, is_effect, is_lift, is_there};

    /// Whether the text's variables are among the last `vars`, what it names is there, and nothing ghost is left of it.
    #[cycle(text)]
    #[tactic(auto, using(crate::proofs::VariantLemmas::comp_variants))]
    pub(crate) fn text_sound(&self, text: &Comp, vars: u64) -> bool
        ensures { (n : ℕ) → Stands vars n → result ≡ text_sound (plain_code self.now) n (plain_comp text.now) }
    {
        match text {
            Comp::Ret(term) => term_within(term, vars, 0),
            Comp::Let(_, bound, rest) => self.text_sound(bound.get(), vars)
                && self.text_sound(rest.get(), vars.saturating_add(1)),
            Comp::Bind(effect, _, bound, rest) => self.is_effect(*effect)
                && self.text_sound(bound.get(), vars)
                && self.text_sound(rest.get(), vars.saturating_add(1)),
            Comp::GhostLet(_, _, _) => false,
            Comp::Assert(_, _, _) => false,
            Comp::If(test, left, right) => term_within(test, vars, 0)
                && self.text_sound(left.get(), vars)
                && self.text_sound(right.get(), vars),
            Comp::Match(term, _, arms) => term_within(term, vars, 0)
                && self.arms_sound(arms.as_slice(), vars),
            Comp::Call(function, args, _) => self.is_there(*function)
                && terms_within(args.as_slice(), vars, 0),
            Comp::Reify(effect, _, text, input) => self.is_effect(*effect)
                && self.text_sound(text.get(), vars)
                && term_within(input, vars, 0),
            Comp::Reflect(effect, _, _, text) => self.is_effect(*effect)
                && self.text_sound(text.get(), vars.saturating_add(1)),
            Comp::Return(effect, text) => self.is_effect(*effect)
                && self.text_sound(text.get(), vars),
            Comp::Lift(lift, text) => self.is_lift(*lift) && self.text_sound(text.get(), vars),
        }
    }

    #[cycle(text)]
    fn arms_sound(&self, arms: &[Arm<Comp>], vars: u64) -> bool
        ensures { (n : ℕ) → Stands vars n → result ≡ list_all (λ arm. text_sound (plain_code self.now) (length arm.names + n) (plain_comp arm.body)) arms.now }
    {
        for arm in arms {
            let bound = arm.names.len() as u64;
            if !self.text_sound(&arm.body, vars.saturating_add(bound)) {
                return false;
            }
        }
        true
    }

    pub(crate) fn is_effect(&self, effect: u32) -> bool
        ensures { result ≡ is_effect (plain_code self.now) effect }
    {
        (effect as usize) < self.effects.len()
    }

    fn is_lift(&self, lift: u32) -> bool
        ensures { result ≡ is_lift (plain_code self.now) lift }
    {
        (lift as usize) < self.lifts.len()
    }

    /// Whether the function is there; a GHOST one isn't.
    fn is_there(&self, function: u32) -> bool
        ensures { result ≡ is_there (plain_code self.now) function }
    {
        matches!(self.funs.get(function as usize), Some(Some(_)))
    }
}
