//! Formulas on the way to a flat form: cleared of lets and places, and with names put in.

ghost use Rattle.std.specs.Prelude.{◌≡◌, ◌++◌, map, IfOk, OnOk};
ghost use Rattle.fst_flats.specs.Preparing.{sorts_in};
ghost use Rattle.fst_flats.specs.Steps.{plain_forms};
ghost use Rattle.fst_terms.specs.Flats.{sorts_of_vars};
ghost use Rattle.fst_terms.specs.FlatForms.{clear, formulas, name_all};
ghost use Rattle.fst_terms.specs.Meaning.{plain_sequent, plain_var};
ghost use Rattle.fst_terms.specs.Naming.{name_var, names_of};
ghost use Rattle.fst_terms.specs.Terms.{plain_term};

use crate::clearing::{clear_all, clear_boxed, variables};
use crate::keyed::Keyed;
use crate::name_facts::add_name_facts;
use crate::naming::{name_formula, name_formulas};
use crate::renaming::{count, rename_all, rename_boxed};
use crate::sorting::sort_of;
use fst_base::{Box, Name, OutOfMemory, Seq, Sort};
use fst_terms::{Formula, Sequent, Term, Var};
use std::alloc::Global;

/// Hypotheses, a goal and facts over variables.
#[derive(Drop)]
pub struct Forms {
    pub vars: Seq<Var>,
    pub hyps: Seq<Formula>,
    pub goal: Box<Formula>,
    pub facts: Seq<Formula>,
}

/// The sequent with these facts, its lets substituted away and every place 0.
pub fn cleared(alloc: Global, sequent: &Sequent, extra: &[Formula]) -> Result<Forms, OutOfMemory>
    ensures { IfOk result (λ forms. plain_forms forms ≡ clear (plain_sequent sequent.now) (map plain_term extra.now)) }
{
    let mut scope = variables(alloc, count(sequent.vars.len())?)?;
    let vars = copy_vars(alloc, sequent.vars.as_slice())?;
    let hyps = clear_all(alloc, sequent.hyps.as_slice(), &mut scope)?;
    let goal = clear_boxed(alloc, &sequent.goal, &mut scope)?;
    let facts = clear_all(alloc, extra, &mut scope)?;
    Ok(Forms {
        vars,
        hyps,
        goal,
        facts,
    })
}

fn copy_vars(alloc: Global, vars: &[Var]) -> Result<Seq<Var>, OutOfMemory>
    ensures { IfOk result (λ copies. copies ≡ vars.now) }
{
    let mut copies = Seq::new(alloc);
    for var in vars {
        copies.push(var.copy(alloc)?)?;
    }
    Ok(copies)
}

/// The sorts of the variables.
pub fn sorts_of(alloc: Global, vars: &[Var]) -> Result<Seq<Sort>, OutOfMemory>
    ensures { IfOk result (λ sorts. sorts_in sorts ≡ sorts_of_vars (map plain_var vars.now)) }
{
    let mut sorts = Seq::new(alloc);
    for var in vars {
        sorts.push(var.sort.copy(alloc)?)?;
    }
    Ok(sorts)
}

/// The terms that are named in the formulas.
fn names_of(alloc: Global, forms: &Forms, sorts: &[Sort]) -> Result<Keyed, OutOfMemory>
    ensures { IfOk result (λ names. map plain_term names ≡ names_of (sorts_in sorts.now) (formulas (plain_forms forms.now))) }
{
    let mut names = Keyed::new(alloc);
    name_formulas(alloc, forms.hyps.as_slice(), sorts, &mut names)?;
    name_formula(alloc, forms.goal.get(), sorts, &mut names)?;
    name_formulas(alloc, forms.facts.as_slice(), sorts, &mut names)?;
    Ok(names)
}

/// The variable of a name.
fn name_var(alloc: Global, term: &Term, sorts: &[Sort]) -> Result<Var, OutOfMemory>
    ensures { IfOk result (λ var. plain_var var ≡ name_var (sorts_in sorts.now) (plain_term term.now)) }
{
    let name = Name::new(alloc, "if")?;
    let sort = sort_of(alloc, term, sorts)?;
    Ok(Var { name, sort })
}

/// Adds the variables of these names.
fn add_names(
    alloc: Global,
    names: &[Term],
    sorts: &[Sort],
    vars: &mut Seq<Var>,
) -> Result<(), OutOfMemory>
    ensures { OnOk result (map plain_var vars.new ≡ map plain_var vars.old ++ map (name_var (sorts_in sorts.now)) (map plain_term names.now)) }
{
    for term in names {
        vars.push(name_var(alloc, term, sorts)?)?;
    }
    Ok(())
}

/// The formulas with names for what is named, and with the facts of the names.
pub fn named(alloc: Global, forms: &Forms) -> Result<Forms, OutOfMemory>
    ensures { IfOk result (λ named. plain_forms named ≡ name_all (plain_forms forms.now)) }
{
    let sorts = sorts_of(alloc, forms.vars.as_slice())?;
    let sorts = sorts.as_slice();
    let names = names_of(alloc, forms, sorts)?;
    let mut vars = copy_vars(alloc, forms.vars.as_slice())?;
    add_names(alloc, names.as_slice(), sorts, &mut vars)?;
    let hyps = rename_all(alloc, forms.hyps.as_slice(), false, sorts, &names)?;
    let goal = rename_boxed(alloc, &forms.goal, false, sorts, &names)?;
    let mut facts = rename_all(alloc, forms.facts.as_slice(), false, sorts, &names)?;
    add_name_facts(alloc, sorts, &names, &mut facts)?;
    Ok(Forms {
        vars,
        hyps,
        goal,
        facts,
    })
}
