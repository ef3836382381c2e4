ghost use Rattle.std.specs.Prelude.{◌≡◌, [], ◌∷◌, map, OnOk};
ghost use Rattle.fst_terms.specs.Same.{firsts, is_among};
ghost use Rattle.fst_terms.specs.Terms.{plain_term};

use crate::term::Term;
use fst_base::{OutOfMemory, Seq};
use std::alloc::Global;

/// Whether the term is one of these.
fn is_among(term: &Term, terms: &[Term]) -> bool
    ensures { result ≡ is_among (plain_term term.now) (map plain_term terms.now) }
{
    for other in terms {
        if term.same(other) {
            return true;
        }
    }
    false
}

/// Puts the term last, unless it is there.
pub fn add(alloc: Global, term: &Term, terms: &mut Seq<Term>) -> Result<(), OutOfMemory>
    ensures { OnOk result (map plain_term terms.new ≡ firsts (map plain_term terms.old) (plain_term term.now ∷ [])) }
{
    if is_among(term, terms.as_slice()) {
        return Ok(());
    }
    terms.push(term.copy(alloc)?)?;
    Ok(())
}
