//! The variables in scope, with their sorts.

ghost use Rattle.std.specs.Prelude.{◌≡◌, ◌∷◌, [], List, OnOk, slice_get};
ghost use Rattle.fst_effects.specs.Known as K;
ghost use Rattle.fst_effects.specs.Scopes.{entry_at, entry_of, scope_in};

use fst_base::{Box, OutOfMemory, Sort};
use std::alloc::Global;

/// A variable in scope, or a parameter; `hidden` marks a ghost one.
#[derive(Drop)]
pub struct Entry {
    pub sort: Box<Sort>,
    pub hidden: bool,
}

/// The variables in scope.
#[derive(Drop)]
pub struct Context {
    entries: Vec<Entry>,
}

impl Context {
    /// No variables.
    pub fn new(alloc: Global) -> Context
        ensures { scope_in result ≡ [] }
    {
        Context {
            entries: Vec::new(alloc),
        }
    }

    /// Brings a variable into scope.
    pub fn push(&mut self, entry: Entry) -> Result<(), OutOfMemory>
        ensures { OnOk result (scope_in self.new ≡ entry_of entry ∷ scope_in self.old) }
    {
        self.entries.push(entry)?;
        Ok(())
    }

    /// Takes the last variable out of scope, where there is one.
    pub fn pop(&mut self)
        ensures { (last : K.Entry) (others : List K.Entry) → scope_in self.old ≡ last ∷ others → scope_in self.new ≡ others }
    {
        self.entries.pop();
    }

    /// The variable with the index, where there is one.
    #[tactic(auto, using(crate::proofs::ScopeLemmas::entries))]
    pub fn find(&self, index: u32) -> Option<&Entry>
        ensures { entry_at result ≡ slice_get (scope_in self.now) index }
    {
        let count = self.entries.len();
        let index = index as usize;
        if index < count {
            Some(&self.entries[count - 1 - index])
        } else {
            None
        }
    }
}
