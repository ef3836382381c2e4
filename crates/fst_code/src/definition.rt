ghost use Rattle.std.specs.Prelude.{◌≡◌, ◌+◌, ℕ, length};
ghost use Rattle.std.specs.List.{list_all};
ghost use Rattle.fst_terms.specs.Indices.{Stands};
ghost use Rattle.fst_program.specs.Plain.{plain_dm};
ghost use Rattle.fst_code.specs.Within.{dm_within};

use crate::term::term_within;
use fst_program::{Arm, DmTerm};

/// Whether the variables of definition text are among the last `vars`, and it holds no application.
#[cycle(dm)]
#[tactic(auto, using(crate::proofs::VariantLemmas::dm_variants))]
pub(crate) fn dm_within(text: &DmTerm, vars: u64) -> bool
    ensures { (n : ℕ) → Stands vars n → result ≡ dm_within n (plain_dm text.now) }
{
    match text {
        DmTerm::Ret(term) => term_within(term, vars, 0),
        DmTerm::Let(_, bound, rest) => dm_within(bound.get(), vars)
            && dm_within(rest.get(), vars.saturating_add(1)),
        DmTerm::If(test, left, right) => term_within(test, vars, 0)
            && dm_within(left.get(), vars)
            && dm_within(right.get(), vars),
        DmTerm::Match(term, arms) => term_within(term, vars, 0)
            && dm_arms_within(arms.as_slice(), vars),
        DmTerm::RunF(input) => term_within(input, vars, 0),
        DmTerm::RunG(value, input) => term_within(value, vars, 0) && term_within(input, vars, 0),
    }
}

#[cycle(dm)]
fn dm_arms_within(arms: &[Arm<DmTerm>], vars: u64) -> bool
    ensures { (n : ℕ) → Stands vars n → result ≡ list_all (λ arm. dm_within (length arm.names + n) (plain_dm arm.body)) arms.now }
{
    for arm in arms {
        let bound = arm.names.len() as u64;
        if !dm_within(&arm.body, vars.saturating_add(bound)) {
            return false;
        }
    }
    true
}
