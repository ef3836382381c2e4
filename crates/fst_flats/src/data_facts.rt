ghost use Rattle.std.specs.Prelude.{◌≡◌, flat_map, map, OnOk};
ghost use Rattle.fst_base.specs.Sorts.{plain_sort};
ghost use Rattle.fst_flats.specs.Preparing.{sorts_in};
ghost use Rattle.fst_flats.specs.Rows.{binary_facts};
ghost use Rattle.fst_terms.specs.DataFacts.{facts_at, facts_of};
ghost use Rattle.fst_terms.specs.Same.{firsts};
ghost use Rattle.fst_terms.specs.Terms.{plain_term};

use crate::division_facts::add_division_facts;
use crate::keyed::Keyed;
use crate::list_facts::{add_cons_facts, add_nullary_facts, add_unary_facts};
use fst_base::{Op, OutOfMemory, Sort};
use fst_terms::Term;
use std::alloc::Global;

/// The facts of a term of two arguments.
#[tactic(auto, using(crate::proofs::PlainForms::plain_variants))]
fn add_binary_facts(
    alloc: Global,
    op: Op,
    sort: &Sort,
    args: (&Term, &Term),
    term: &Term,
    lens: &[Sort],
    facts: &mut Keyed,
) -> Result<(), OutOfMemory>
    ensures { OnOk result (map plain_term facts.new ≡ firsts (map plain_term facts.old) (binary_facts (map plain_sort lens.now) op (plain_sort sort.now) (plain_term args.entry.0.now) (plain_term args.entry.1.now) (plain_term term.now))) }
{
    let (first, second) = args;
    if op == Op::Cons {
        return add_cons_facts(alloc, sort, second, term, lens, facts);
    }
    match second {
        Term::Int(by) => add_division_facts(alloc, op, first, *by, term, facts),
        _ => Ok(()),
    }
}

/// The facts of a primitive of these arguments.
fn add_facts_of(
    alloc: Global,
    op: Op,
    sort: &Sort,
    args: &[Term],
    term: &Term,
    sorts: &[Sort],
    lens: &[Sort],
    facts: &mut Keyed,
) -> Result<(), OutOfMemory>
    ensures { OnOk result (map plain_term facts.new ≡ firsts (map plain_term facts.old) (facts_of (sorts_in sorts.now) (map plain_sort lens.now) op (plain_sort sort.now) (map plain_term args.now) (plain_term term.now))) }
{
    match args {
        [] => add_nullary_facts(alloc, op, sort, term, lens, facts),
        [arg] => add_unary_facts(alloc, op, sort, arg, term, sorts, facts),
        [first, second] => add_binary_facts(alloc, op, sort, (first, second), term, lens, facts),
        _ => Ok(()),
    }
}

/// The facts that a term gives.
#[tactic(auto, using(crate::proofs::PlainForms::plain_variants))]
fn add_facts_at(
    alloc: Global,
    term: &Term,
    sorts: &[Sort],
    lens: &[Sort],
    facts: &mut Keyed,
) -> Result<(), OutOfMemory>
    ensures { OnOk result (map plain_term facts.new ≡ firsts (map plain_term facts.old) (facts_at (sorts_in sorts.now) (map plain_sort lens.now) (plain_term term.now))) }
{
    match term {
        Term::Prim(op, sort, args, _) => {
            add_facts_of(alloc, *op, sort, args.as_slice(), term, sorts, lens, facts)
        }
        _ => Ok(()),
    }
}

/// The facts that these terms give, each fact once.
pub fn add_facts(
    alloc: Global,
    terms: &[Term],
    sorts: &[Sort],
    lens: &[Sort],
    facts: &mut Keyed,
) -> Result<(), OutOfMemory>
    ensures { OnOk result (map plain_term facts.new ≡ firsts (map plain_term facts.old) (flat_map (facts_at (sorts_in sorts.now) (map plain_sort lens.now)) (map plain_term terms.now))) }
{
    for term in terms {
        add_facts_at(alloc, term, sorts, lens, facts)?;
    }
    Ok(())
}
