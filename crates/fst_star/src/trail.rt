//! Where a walk stands.
ghost use Rattle.std.specs.Prelude.{◌≡◌, length, IfOk};
ghost use Rattle.fst_base.specs.Sorts.{plain_sort};
ghost use Rattle.fst_program.specs.Paths.{choose, fresh, suppose};
ghost use Rattle.fst_star.specs.Met.{plain_trail};
ghost use Rattle.fst_terms.specs.Terms.{plain_term};

use crate::raising::raise_terms;
use fst_base::{Name, OutOfMemory, Seq, Sort, both, pair};
use fst_program::Choice;
use fst_terms::{Formula, Term, Var};
use std::alloc::Global;

/// The variables, hypotheses and choices of a way, each list with the last one last.
#[derive(Drop)]
pub struct Trail {
    pub vars: Seq<Var>,
    pub hyps: Seq<Formula>,
    pub choices: Seq<Choice>,
}

/// The number in the 32 bits of an index.
pub(crate) fn count_of(items: usize) -> Result<u32, OutOfMemory>
    ensures { IfOk result (λ count. count ≡ items) }
{
    match u32::try_from(items) {
        Ok(count) => Ok(count),
        Err(_) => Err(OutOfMemory),
    }
}

fn copy_vars(alloc: Global, vars: &[Var]) -> Result<Seq<Var>, OutOfMemory>
    ensures { IfOk result (λ copies. copies ≡ vars.now) }
{
    let mut copies = Seq::new(alloc);
    for var in vars {
        copies.push(var.copy(alloc)?)?;
    }
    Ok(copies)
}

pub(crate) fn copy_terms(alloc: Global, terms: &[Term]) -> Result<Seq<Term>, OutOfMemory>
    ensures { IfOk result (λ copies. copies ≡ terms.now) }
{
    let mut copies = Seq::new(alloc);
    for term in terms {
        copies.push(term.copy(alloc)?)?;
    }
    Ok(copies)
}

impl Trail {
    /// The number of variables.
    pub fn count(&self) -> Result<u32, OutOfMemory>
        ensures { IfOk result (λ n. n ≡ length self.now.vars) }
    {
        count_of(self.vars.len())
    }

    /// An equal trail.
    pub fn copy(&self, alloc: Global) -> Result<Trail, OutOfMemory>
        ensures { IfOk result (λ trail. trail ≡ self.now) }
    {
        let choices = Seq::from_slice(alloc, self.choices.as_slice())?;
        let vars = copy_vars(alloc, self.vars.as_slice())?;
        let hyps = copy_terms(alloc, self.hyps.as_slice())?;
        Ok(Trail {
            vars,
            hyps,
            choices,
        })
    }

    /// With one hypothesis more.
    pub fn suppose(&self, alloc: Global, formula: Formula) -> Result<Trail, OutOfMemory>
        ensures { IfOk result (λ trail. plain_trail trail ≡ suppose (plain_term formula) (plain_trail self.now)) }
    {
        let (formula, trail) = both(formula, self.copy(alloc))?;
        let Trail {
            vars,
            mut hyps,
            choices,
        } = trail;
        hyps.push(formula)?;
        Ok(Trail {
            vars,
            hyps,
            choices,
        })
    }

    /// With one choice more.
    pub fn choose(self, choice: Choice) -> Result<Trail, OutOfMemory>
        ensures { IfOk result (λ trail. plain_trail trail ≡ choose choice (plain_trail self)) }
    {
        let Trail {
            vars,
            hyps,
            mut choices,
        } = self;
        choices.push(choice)?;
        Ok(Trail {
            vars,
            hyps,
            choices,
        })
    }

    /// With one variable more, which has index 0.
    pub fn fresh(&self, alloc: Global, name: &Name, sort: &Sort) -> Result<Trail, OutOfMemory>
        ensures { IfOk result (λ trail. plain_trail trail ≡ fresh name.now (plain_sort sort.now) (plain_trail self.now)) }
    {
        let choices = Seq::from_slice(alloc, self.choices.as_slice())?;
        let hyps = raise_terms(alloc, self.hyps.as_slice(), 0, 1)?;
        let mut vars = copy_vars(alloc, self.vars.as_slice())?;
        let (name, sort) = pair(name.copy(alloc), sort.copy(alloc))?;
        vars.push(Var { name, sort })?;
        Ok(Trail {
            vars,
            hyps,
            choices,
        })
    }
}
