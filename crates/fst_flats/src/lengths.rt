//! The sorts of lists whose length is spoken of.

ghost use Rattle.std.specs.Prelude.{◌≡◌, ◌++◌, map, option_map, IfOk, OnOk};
ghost use Rattle.std.specs.Option.{option_copied};
ghost use Rattle.fst_base.specs.Sorts.{plain_sort};
ghost use Rattle.fst_flats.specs.Preparing.{sorts_in};
ghost use Rattle.fst_flats.specs.Rows.{given, measured};
ghost use Rattle.fst_terms.specs.Formulas.{sort_of};
ghost use Rattle.fst_terms.specs.DataFacts.{is_sort_among, len_sorts};
ghost use Rattle.fst_terms.specs.Terms.{plain_term};

use crate::arguments::only;
use crate::sorting::sort_of;
use fst_base::{Op, OutOfMemory, Seq, Sort};
use fst_terms::Term;
use std::alloc::Global;

/// Whether the sort is one of these.
pub fn is_sort_among(sort: &Sort, sorts: &[Sort]) -> bool
    ensures { result ≡ is_sort_among (plain_sort sort.now) (map plain_sort sorts.now) }
{
    for other in sorts {
        if sort.same(other) {
            return true;
        }
    }
    false
}

/// The list whose length the term is.
#[tactic(auto, using(crate::proofs::PlainForms::plain_variants))]
fn measured(term: &Term) -> Option<&Term>
    ensures { option_map plain_term (option_copied result) ≡ measured (plain_term term.now) }
{
    match term {
        Term::Prim(Op::Len, _, args, _) => only(args.as_slice()),
        _ => None,
    }
}

/// Adds the sort of the list whose length the term is.
fn add_len_sort(
    alloc: Global,
    term: &Term,
    sorts: &[Sort],
    lens: &mut Seq<Sort>,
) -> Result<(), OutOfMemory>
    ensures { OnOk result (map plain_sort lens.new ≡ map plain_sort lens.old ++ given (sort_of (sorts_in sorts.now)) (measured (plain_term term.now))) }
{
    match measured(term) {
        Some(list) => lens.push(sort_of(alloc, list, sorts)?),
        None => Ok(()),
    }
}

/// The sorts of lists whose length is among these terms, in the order of the terms.
pub fn len_sorts(alloc: Global, terms: &[Term], sorts: &[Sort]) -> Result<Seq<Sort>, OutOfMemory>
    ensures { IfOk result (λ lens. map plain_sort lens ≡ len_sorts (sorts_in sorts.now) (map plain_term terms.now)) }
{
    let mut lens = Seq::new(alloc);
    for term in terms {
        add_len_sort(alloc, term, sorts, &mut lens)?;
    }
    Ok(lens)
}
