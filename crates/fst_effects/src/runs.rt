//! Runs of a header's computations.

ghost use Rattle.std.specs.Prelude.{◌≡◌, option_map};
ghost use Rattle.fst_base.specs.Sorts.{plain_sort};
ghost use Rattle.fst_effects.specs.DefinitionTexts.{run_in};
ghost use Rattle.fst_effects.specs.Scopes.{run_wants, sort_at, wants_in};

use crate::wanted::{Run, Wants};
use fst_base::Sort;
use fst_names::{Ref, RefKind};

/// The computation that a name runs.
pub fn run_of(runs: &[Run], name: Ref) -> Option<&Run>
    ensures { option_map (λ r. r.now) result ≡ run_in runs.now name }
{
    match name.kind {
        RefKind::RunF => runs.get(0),
        RefKind::RunG => runs.get(1),
        _ => None,
    }
}

/// The sorts that are wanted of the arguments of a run.
pub fn wants_of_run(run: Option<&Run>) -> Wants<'_>
    ensures { wants_in result ≡ run_wants (option_map (λ r. r.now) run.entry) }
{
    match run {
        Some(run) => Wants::Run(run),
        None => Wants::Params(&[]),
    }
}

/// The sort of the results of a run.
pub fn value_of_run(run: Option<&Run>) -> Option<&Sort>
    ensures { sort_at result ≡ option_map (λ r. plain_sort r.sort) (option_map (λ r. r.now) run.entry) }
{
    match run {
        Some(run) => Some(run.sort.get()),
        None => None,
    }
}
