ghost use Rattle.std.specs.Prelude.{◌≡◌, ◌++◌, ◌∷◌, [], length, map, OnOk};
ghost use Rattle.fst_flats.specs.Keys.{keys_of, place_of};
ghost use Rattle.fst_terms.specs.Same.{firsts, is_among};
ghost use Rattle.fst_terms.specs.Terms.{plain_term};

use crate::keys::{key, place};
use fst_base::{OutOfMemory, Seq};
use fst_terms::Term;
use std::alloc::Global;
use std::marker::Model;

/// A list of terms, searched by the keys that stand beside them. Contracts see the list.
#[derive(Drop)]
pub struct Keyed {
    terms: Seq<Term>,
    keys: Seq<u64>,
}

impl Model for Keyed {
    ghost use Rattle.std.specs.Prelude.{◌≡◌, List};
    ghost use Rattle.std.specs.Coded.{coded_list};
    ghost use Rattle.fst_flats.specs.Keys.{keys_of};
    ghost use Rattle.fst_terms.specs.contracts.term.Term as term;
    ghost use Rattle.fst_terms.specs.declared.term.Term.{Term};

    ghost Value = { List Term };

    ghost coded = { coded_list term.the_row.coded };

    ghost view = { λ k. k.terms };

    ghost invariant = { λ k. k.keys ≡ keys_of k.terms };
}

impl Keyed {
    pub fn new(alloc: Global) -> Keyed
        ensures { result ≡ [] }
    {
        Keyed {
            terms: Seq::new(alloc),
            keys: Seq::new(alloc),
        }
    }

    pub fn len(&self) -> usize
        ensures { result ≡ length self.now }
    {
        self.terms.len()
    }

    pub fn as_slice(&self) -> &[Term]
        ensures { result.now ≡ self.now }
    {
        self.terms.as_slice()
    }

    pub fn into_terms(self) -> Seq<Term>
        ensures { result ≡ self }
    {
        let Keyed { terms, keys } = self;
        drop(keys);
        terms
    }

    /// The place of the term, and the list's length where it isn't there.
    pub fn place(&self, term: &Term) -> usize
        ensures { result ≡ place_of (plain_term term.now) (map plain_term self.now) }
    {
        place(term, self.terms.as_slice(), self.keys.as_slice())
    }

    pub fn contains(&self, term: &Term) -> bool
        ensures { result ≡ is_among (plain_term term.now) (map plain_term self.now) }
    {
        self.place(term) < self.len()
    }

    /// Puts the term last.
    pub fn push(&mut self, alloc: Global, term: &Term) -> Result<(), OutOfMemory>
        ensures { OnOk result (self.new ≡ self.old ++ term.now ∷ []) }
    {
        push_keyed(alloc, term, &mut self.terms, &mut self.keys)
    }

    /// Puts the term last, unless it is there.
    pub fn add(&mut self, alloc: Global, term: &Term) -> Result<(), OutOfMemory>
        ensures { OnOk result (map plain_term self.new ≡ firsts (map plain_term self.old) (plain_term term.now ∷ [])) }
    {
        if self.contains(term) {
            return Ok(());
        }
        self.push(alloc, term)
    }

    /// Puts each of the terms last that isn't there.
    pub fn add_all(&mut self, alloc: Global, terms: &[Term]) -> Result<(), OutOfMemory>
        ensures { OnOk result (map plain_term self.new ≡ firsts (map plain_term self.old) (map plain_term terms.now)) }
    {
        for term in terms {
            self.add(alloc, term)?;
        }
        Ok(())
    }
}

/// Puts the term last, and its key beside it.
fn push_keyed(
    alloc: Global,
    term: &Term,
    terms: &mut Seq<Term>,
    keys: &mut Seq<u64>,
) -> Result<(), OutOfMemory>
    requires { keys.old ≡ keys_of terms.old }
    ensures kept { keys.new ≡ keys_of terms.new }
    ensures put { OnOk result (terms.new ≡ terms.old ++ term.now ∷ []) }
{
    let copy = term.copy(alloc)?;
    let count = terms.len();
    terms.push(copy)?;
    let done = keys.push(key(term));
    if done.is_err() {
        terms.truncate(count);
    }
    done
}
