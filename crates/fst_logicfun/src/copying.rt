//! Copies of lists of terms, and parts of such lists.

ghost use Rattle.std.specs.Prelude.{◌≡◌, ◌++◌, ◌≤◌, ◌∷◌, [], drop, length, take, IfOk};

use fst_base::{OutOfMemory, Seq};
use fst_terms::Term;
use std::alloc::Global;

pub fn copy_terms(alloc: Global, terms: &[Term]) -> Result<Seq<Term>, OutOfMemory>
    ensures { IfOk result (λ copies. copies ≡ terms.now) }
{
    let mut copies = Seq::new(alloc);
    for term in terms {
        copies.push(term.copy(alloc)?)?;
    }
    Ok(copies)
}

/// The list with one item more.
pub fn pushed<T: Drop>(mut items: Seq<T>, item: T) -> Result<Seq<T>, OutOfMemory>
    ensures { IfOk result (λ made. made ≡ items ++ item ∷ []) }
{
    items.push(item)?;
    Ok(items)
}

/// The terms from this one on.
pub fn after(terms: &[Term], from: usize) -> &[Term]
    ensures { result.now ≡ drop from terms.now }
{
    if from <= terms.len() {
        &terms[from..]
    } else {
        &[]
    }
}

/// The terms before this one.
pub fn front(terms: &[Term], to: usize) -> &[Term]
    requires { to ≤ length terms.now }
    ensures { result.now ≡ take to terms.now }
{
    &terms[..to]
}
