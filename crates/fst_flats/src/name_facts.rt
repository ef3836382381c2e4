ghost use Rattle.std.specs.Prelude.{◌≡◌, ◌++◌, map, OnOk};
ghost use Rattle.fst_flats.specs.Makes.{Makes};
ghost use Rattle.fst_flats.specs.Preparing.{fact_of_name, sorts_in};
ghost use Rattle.fst_terms.specs.Naming.{name_fact, name_facts};
ghost use Rattle.fst_terms.specs.Terms.{plain_term};

use crate::building::{Made, choice, copied, equation, push_made};
use crate::keyed::Keyed;
use crate::renaming::{name_of, rename};
use crate::sorting::is_data_term;
use fst_base::{OutOfMemory, Seq, Sort, boxed, pair};
use fst_terms::Term;
use std::alloc::Global;

/// The fact of a name: that it is the term; of an `if` that isn't a formula that it is the side that the test chooses.
#[tactic(auto, using(crate::proofs::PlainForms::plain_variants))]
fn name_fact(alloc: Global, term: &Term, name: &Term, is_data: bool) -> Made
    ensures { Makes result (name_fact is_data (plain_term name.now) (plain_term term.now)) }
{
    match term {
        Term::If(test, left, right) if is_data => {
            let left = equation(alloc, copied(alloc, name), copied(alloc, left.get()));
            let right = equation(alloc, copied(alloc, name), copied(alloc, right.get()));
            choice(alloc, copied(alloc, test.get()), left, right)
        }
        _ => equation(alloc, copied(alloc, name), copied(alloc, term)),
    }
}

/// The fact of the name of this term.
fn fact_of_name(alloc: Global, term: &Term, sorts: &[Sort], names: &Keyed) -> Made
    ensures { Makes result (fact_of_name (sorts_in sorts.now) (map plain_term names.now) (plain_term term.now)) }
{
    let is_data = is_data_term(alloc, sorts, term)?;
    let renamed = boxed(alloc, rename(alloc, term, false, sorts, names));
    let (renamed, name) = pair(renamed, boxed(alloc, name_of(term, names)))?;
    name_fact(alloc, renamed.get(), name.get(), is_data)
}

/// Adds the fact of each name.
pub fn add_name_facts(
    alloc: Global,
    sorts: &[Sort],
    names: &Keyed,
    facts: &mut Seq<Term>,
) -> Result<(), OutOfMemory>
    ensures { OnOk result (map plain_term facts.new ≡ map plain_term facts.old ++ name_facts (sorts_in sorts.now) (map plain_term names.now)) }
{
    add_facts_of(alloc, names.as_slice(), sorts, names, facts)
}

/// Adds the fact of the name of each of these terms.
fn add_facts_of(
    alloc: Global,
    terms: &[Term],
    sorts: &[Sort],
    names: &Keyed,
    facts: &mut Seq<Term>,
) -> Result<(), OutOfMemory>
    ensures { OnOk result (map plain_term facts.new ≡ map plain_term facts.old ++ map (fact_of_name (sorts_in sorts.now) (map plain_term names.now)) (map plain_term terms.now)) }
{
    for term in terms {
        push_made(fact_of_name(alloc, term, sorts, names), facts)?;
    }
    Ok(())
}
