ghost use Rattle.std.specs.Prelude.{◌≡◌, ◌∷◌, ◌++◌, [], get_or, IfOk};
ghost use Rattle.fst_base.specs.Sorts.{plain_sort, s_unit};
ghost use Rattle.fst_terms.specs.Naming.{is_data, takes_data};
ghost use Rattle.fst_shapes.specs.Preparing.{sorts_in};
ghost use Rattle.fst_terms.specs.Formulas.{sort_of};
ghost use Rattle.fst_terms.specs.Terms.{plain_term, plain_terms};

use fst_base::{Box, Op, OutOfMemory, Seq, Sort};
use fst_terms::Term;
use std::alloc::Global;

/// The sort of the term, where these are the sorts of its variables.
#[tactic(auto, using(crate::proofs::PlainForms::plain_variants))]
pub fn sort_of(alloc: Global, term: &Term, sorts: &[Sort]) -> Result<Sort, OutOfMemory>
    ensures { IfOk result (λ sort. plain_sort sort ≡ sort_of (sorts_in sorts.now) (plain_term term.now)) }
{
    match term {
        Term::Var(index) => sort_at(alloc, sorts, *index),
        Term::Int(_) => Ok(Sort::Int),
        Term::Bool(_) => Ok(Sort::Bool),
        Term::Unit => Ok(Sort::Unit),
        Term::Prim(_, sort, _, _) => sort.copy(alloc),
        Term::If(_, left, _) => sort_of(alloc, left.get(), sorts),
        Term::App(_, sort, _) => sort.copy(alloc),
        Term::Let(_, bound, rest) => {
            let inner = copy_sorts(alloc, sorts)?;
            let inner = pushed(inner, sort_of(alloc, bound.get(), sorts)?)?;
            sort_of(alloc, rest.get(), inner.as_slice())
        }
    }
}

/// The sort of the term, on the heap.
pub fn boxed_sort(alloc: Global, term: &Term, sorts: &[Sort]) -> Result<Box<Sort>, OutOfMemory>
    ensures { IfOk result (λ sort. plain_sort sort ≡ sort_of (sorts_in sorts.now) (plain_term term.now)) }
{
    Box::new(alloc, sort_of(alloc, term, sorts)?)
}

/// The sort of a variable.
#[tactic(auto, using(crate::proofs::PlainForms::plain_variants))]
fn sort_at(alloc: Global, sorts: &[Sort], index: u32) -> Result<Sort, OutOfMemory>
    ensures { IfOk result (λ sort. plain_sort sort ≡ get_or (sorts_in sorts.now) index s_unit) }
{
    let index = index as usize;
    if index < sorts.len() {
        sorts[sorts.len() - 1 - index].copy(alloc)
    } else {
        Ok(Sort::Unit)
    }
}

fn copy_sorts(alloc: Global, sorts: &[Sort]) -> Result<Seq<Sort>, OutOfMemory>
    ensures { IfOk result (λ copies. copies ≡ sorts.now) }
{
    let mut copies = Seq::new(alloc);
    for sort in sorts {
        copies.push(sort.copy(alloc)?)?;
    }
    Ok(copies)
}

/// The list with one item more.
fn pushed<T: Drop>(mut items: Seq<T>, item: T) -> Result<Seq<T>, OutOfMemory>
    ensures { IfOk result (λ made. made ≡ items ++ item ∷ []) }
{
    items.push(item)?;
    Ok(items)
}

/// Whether the sort isn't that of formulas.
#[tactic(auto, using(crate::proofs::PlainForms::plain_variants))]
pub fn is_data(sort: &Sort) -> bool
    ensures { result ≡ is_data (plain_sort sort.now) }
{
    match sort {
        Sort::Bool => false,
        Sort::Unit | Sort::Int | Sort::VarA | Sort::VarB => true,
        Sort::Pair(_, _) | Sort::Opt(_) | Sort::List(_) | Sort::Either(_, _) => true,
    }
}

/// Whether the term isn't a formula.
pub fn is_data_term(alloc: Global, sorts: &[Sort], term: &Term) -> Result<bool, OutOfMemory>
    ensures { IfOk result (λ b. b ≡ is_data (sort_of (sorts_in sorts.now) (plain_term term.now))) }
{
    let sort = sort_of(alloc, term, sorts)?;
    Ok(is_data(&sort))
}
