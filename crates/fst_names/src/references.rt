//! What uses of names stand for.

ghost use Rattle.std.specs.Prelude.{◌≡◌, IfOk};
ghost use Rattle.fst_names.specs.Names.{local, refer, kind_or_a, variable_kind, run_use, number_of, runs_of};
ghost use Rattle.fst_names.specs.Looked.{tables_in};
ghost use Rattle.fst_names.specs.Scopes.{names_in};

use crate::reference::{Ref, RefKind};
use crate::scope::Scope;
use crate::tables::{Tables, run_number};
use fst_base::OutOfMemory;
use fst_trees::Word;

impl<'a> Scope<'a> {
    /// What a variable stands for: the last of its name in scope.
    pub fn local(&self, word: &Word) -> Result<Ref, OutOfMemory>
        ensures { IfOk result (λ r. r ≡ local (names_in self.now) word.now) }
    {
        let index = self.find(&word.text).unwrap_or(0);
        let Ok(index) = u32::try_from(index) else {
            return Err(OutOfMemory);
        };
        Ok(Ref {
            kind: RefKind::Local,
            index,
            at: word.at,
        })
    }
}

impl<'t, 'a> Tables<'t, 'a> {
    /// What an applied function stands for: the first of its name.
    pub fn applied_ref(&self, word: &Word) -> Ref
        ensures reference { result ≡ ((tables_in self.now).applied word.now).reference }
        ensures at { result.at ≡ word.now.at }
    {
        let index = match self.globals.fun(&word.text) {
            Some((number, _)) => number,
            None => 0,
        };
        Ref {
            kind: RefKind::Fun,
            index,
            at: word.at,
        }
    }

    /// What an effect's name stands for: the first of its name.
    pub fn effect_ref(&self, word: &Word) -> Ref
        ensures { result ≡ ((tables_in self.now).effect word.now).reference }
    {
        Ref {
            kind: RefKind::Effect,
            index: self.globals.effect(&word.text).unwrap_or(0),
            at: word.at,
        }
    }

    /// What a called name stands for: in the text of a definition one of the header's computations, else a function.
    #[tactic(auto, using(crate::proofs::ReferenceLemmas::calls))]
    pub fn called_ref(&self, word: &Word) -> Ref
        ensures reference { result ≡ ((tables_in self.now).called word.now).reference }
        ensures at { result.at ≡ word.now.at }
    {
        match self.header {
            Some(header) => run_ref(header, word),
            None => self.applied_ref(word),
        }
    }

    /// What a name of a sort stands for. A name that is none counts as the first sort variable.
    pub fn sort_ref(&self, word: &Word) -> Ref
        ensures { result ≡ refer (kind_or_a (tables_in self.now) (variable_kind (tables_in self.now) word.now.text)) 0 word.now }
    {
        let is_b = word.text.text() != "a" && word.text.text() == "b";
        let kind = if self.has_variables() && is_b {
            RefKind::SortB
        } else {
            RefKind::SortA
        };
        Ref {
            kind,
            index: 0,
            at: word.at,
        }
    }
}

/// One of a header's computations. A name that is none counts as the first.
fn run_ref(header: &[Word], word: &Word) -> Ref
    ensures reference { result ≡ (run_use word.now (number_of word.now.text (runs_of header.now))).reference }
    ensures at { result.at ≡ word.now.at }
{
    let kind = match run_number(header, word) {
        None | Some(0) => RefKind::RunF,
        Some(_) => RefKind::RunG,
    };
    Ref {
        kind,
        index: 0,
        at: word.at,
    }
}
