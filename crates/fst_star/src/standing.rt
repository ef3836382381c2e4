//! Where a translated text stands.
ghost use Rattle.std.specs.Prelude.{◌≡◌, ◌∷◌, ◌++◌, suc, map, reverse, IfOk};
ghost use Rattle.fst_base.specs.Sorts.{plain_sort};
ghost use Rattle.fst_scopes.specs.Scopes.{terms_for, sorts_in};
ghost use Rattle.fst_terms.specs.Terms.{plain_term, shift, t_var};

use crate::putting::under;
use crate::raising::sum;
use crate::trail::copy_terms;
use fst_base::{OutOfMemory, Seq, Sort, pair};
use fst_scopes::{copy_sorts, with_sort};
use fst_terms::Term;
use std::alloc::Global;

/// The sorts of the variables of a place and the terms that stand for a text's variables, each list with the last one last, and
/// the number of variables that the place has more than the header's computations share.
#[derive(Drop)]
pub struct Place {
    pub sorts: Seq<Sort>,
    pub terms: Seq<Term>,
    pub depth: u32,
}

/// The place under one variable more of this sort, for which it stands itself.
pub(crate) fn place_under(alloc: Global, place: &Place, sort: &Sort) -> Result<Place, OutOfMemory>
    ensures sorts { IfOk result (λ made. sorts_in made.sorts ≡ plain_sort sort.now ∷ sorts_in place.now.sorts) }
    ensures terms { IfOk result (λ made. terms_for made.terms ≡ t_var 0 ∷ map (shift 0 1) (terms_for place.now.terms)) }
    ensures depth { IfOk result (λ made. made.depth ≡ suc place.now.depth) }
{
    let depth = sum(place.depth, 1)?;
    let sorts = with_sort(alloc, place.sorts.as_slice(), sort);
    let (sorts, terms) = pair(sorts, under(alloc, place.terms.as_slice()))?;
    Ok(Place {
        sorts,
        terms,
        depth,
    })
}

/// These terms and more, for the last variables.
pub(crate) fn with_terms(
    alloc: Global,
    terms: &[Term],
    more: &[Term],
) -> Result<Seq<Term>, OutOfMemory>
    ensures { IfOk result (λ made. made ≡ terms.now ++ more.now) }
{
    let mut made = copy_terms(alloc, terms)?;
    for term in more {
        made.push(term.copy(alloc)?)?;
    }
    Ok(made)
}

/// The same place with these terms for the last variables of the text.
pub(crate) fn place_with(alloc: Global, place: &Place, more: &[Term]) -> Result<Place, OutOfMemory>
    ensures sorts { IfOk result (λ made. made.sorts ≡ place.now.sorts) }
    ensures terms { IfOk result (λ made. terms_for made.terms ≡ reverse (map plain_term more.now) ++ terms_for place.now.terms) }
    ensures depth { IfOk result (λ made. made.depth ≡ place.now.depth) }
{
    let sorts = copy_sorts(alloc, place.sorts.as_slice());
    let (sorts, terms) = pair(sorts, with_terms(alloc, place.terms.as_slice(), more))?;
    Ok(Place {
        sorts,
        terms,
        depth: place.depth,
    })
}
