//! Where a core text stands whose transformer is inferred.
ghost use Rattle.std.specs.Prelude.{◌≡◌, ◌∷◌, ◌++◌, map, reverse, IfOk};
ghost use Rattle.fst_base.specs.Sorts.{plain_sort};
ghost use Rattle.fst_scopes.specs.Scopes.{sorts_in, terms_for};
ghost use Rattle.fst_star.specs.Inferring.{scope_at};
ghost use Rattle.fst_star.specs.Translation.{under};
ghost use Rattle.fst_terms.specs.Terms.{plain_term, shift, t_var};

use crate::putting::with_last;
use crate::raising::{raise, raise_terms};
use crate::standing::with_terms;
use crate::trail::copy_terms;
use fst_base::{Box, OutOfMemory, Seq, Sort, boxed, pair};
use fst_program::{Fun, Program};
use fst_scopes::{copy_sorts, with_sort};
use fst_terms::Term;
use std::alloc::Global;

/// The function whose transformer is inferred, and its program.
#[derive(Drop)]
pub struct Owner<'a> {
    pub program: &'a Program,
    pub fun: &'a Fun,
}

/// The sorts of the variables of a transformer's place, the function's measures at its start over these, the terms for the text's
/// variables and the one for its input; each list has the last variable last.
#[derive(Drop)]
pub struct Spot {
    pub sorts: Seq<Sort>,
    pub olds: Seq<Term>,
    pub terms: Seq<Term>,
    pub input: Box<Term>,
}

/// These terms for variables, under one variable more.
fn raised(alloc: Global, terms: &[Term]) -> Result<Seq<Term>, OutOfMemory>
    ensures { IfOk result (λ made. terms_for made ≡ map (shift 0 1) (terms_for terms.now)) }
{
    raise_terms(alloc, terms, 0, 1)
}

/// The spot under one variable more of this sort.
pub fn spot_under(alloc: Global, spot: &Spot, sort: &Sort) -> Result<Spot, OutOfMemory>
    ensures scope { IfOk result (λ made. scope_at made ≡ under (plain_sort sort.now) (scope_at spot.now)) }
    ensures terms { IfOk result (λ made. terms_for made.terms ≡ map (shift 0 1) (terms_for spot.now.terms)) }
    ensures input { IfOk result (λ made. plain_term made.input ≡ shift 0 1 (plain_term spot.now.input)) }
{
    let sorts = with_sort(alloc, spot.sorts.as_slice(), sort);
    let olds = raise_terms(alloc, spot.olds.as_slice(), 0, 1);
    let terms = raised(alloc, spot.terms.as_slice());
    let input = boxed(alloc, raise(alloc, spot.input.get(), 0, 1));
    let ((sorts, olds), (terms, input)) = pair(pair(sorts, olds), pair(terms, input))?;
    Ok(Spot {
        sorts,
        olds,
        terms,
        input,
    })
}

/// The spot with one term more, for the last variable of the text.
pub fn spot_before(spot: Spot, term: Term) -> Result<Spot, OutOfMemory>
    ensures scope { IfOk result (λ made. scope_at made ≡ scope_at spot) }
    ensures terms { IfOk result (λ made. terms_for made.terms ≡ plain_term term ∷ terms_for spot.terms) }
    ensures input { IfOk result (λ made. plain_term made.input ≡ plain_term spot.input) }
{
    let Spot {
        sorts,
        olds,
        terms,
        input,
    } = spot;
    let terms = with_last(terms, term)?;
    Ok(Spot {
        sorts,
        olds,
        terms,
        input,
    })
}

/// The same spot with another input.
pub fn spot_on(alloc: Global, spot: &Spot, input: Box<Term>) -> Result<Spot, OutOfMemory>
    ensures scope { IfOk result (λ made. scope_at made ≡ scope_at spot.now) }
    ensures terms { IfOk result (λ made. terms_for made.terms ≡ terms_for spot.now.terms) }
    ensures input { IfOk result (λ made. plain_term made.input ≡ plain_term input) }
{
    let sorts = copy_sorts(alloc, spot.sorts.as_slice());
    let olds = copy_terms(alloc, spot.olds.as_slice());
    let terms = copy_terms(alloc, spot.terms.as_slice());
    let ((sorts, olds), terms) = pair(pair(sorts, olds), terms)?;
    Ok(Spot {
        sorts,
        olds,
        terms,
        input,
    })
}

/// The same spot with these terms more for the last variables of the text.
pub fn spot_with(alloc: Global, spot: &Spot, more: &[Term]) -> Result<Spot, OutOfMemory>
    ensures scope { IfOk result (λ made. scope_at made ≡ scope_at spot.now) }
    ensures terms { IfOk result (λ made. terms_for made.terms ≡ reverse (map plain_term more.now) ++ terms_for spot.now.terms) }
    ensures input { IfOk result (λ made. plain_term made.input ≡ plain_term spot.now.input) }
{
    let sorts = copy_sorts(alloc, spot.sorts.as_slice());
    let olds = copy_terms(alloc, spot.olds.as_slice());
    let terms = with_terms(alloc, spot.terms.as_slice(), more);
    let input = boxed(alloc, spot.input.get().copy(alloc));
    let ((sorts, olds), (terms, input)) = pair(pair(sorts, olds), pair(terms, input))?;
    Ok(Spot {
        sorts,
        olds,
        terms,
        input,
    })
}

/// The same spot with its input for one term more, that of the last variable of the text.
pub fn spot_last(alloc: Global, spot: &Spot) -> Result<Spot, OutOfMemory>
    ensures scope { IfOk result (λ made. scope_at made ≡ scope_at spot.now) }
    ensures terms { IfOk result (λ made. terms_for made.terms ≡ plain_term spot.now.input ∷ terms_for spot.now.terms) }
{
    let term = boxed(alloc, spot.input.get().copy(alloc))?;
    let inner = spot_with(alloc, spot, &[])?;
    spot_before(inner, term.into_inner())
}
