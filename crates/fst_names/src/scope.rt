ghost use Rattle.std.specs.Prelude.{◌≡◌, [], ◌∷◌, OnOk, List, ℕ, length, bytes_eq};
ghost use Rattle.fst_trees.specs.declared.word.Word as w;
ghost use Rattle.fst_names.specs.Scopes.{names_in};
ghost use Rattle.fst_names.specs.Names.{is_among, number_of, binding};

use fst_base::{Name, OutOfMemory};
use fst_trees::Word;
use std::alloc::Global;

/// The names of the variables in scope.
#[derive(Drop)]
pub struct Scope<'a> {
    names: Vec<&'a str>,
}

/// Whether the two are one name.
pub fn is_same(first: &Name, second: &Name) -> bool
    ensures { result ≡ bytes_eq first.now second.now }
{
    first.text() == second.text()
}

/// Whether the name has this text.
fn is_text(name: &Name, text: &str) -> bool
    ensures { result ≡ bytes_eq name.now text.now }
{
    name.text() == text
}

impl<'a> Scope<'a> {
    /// No names.
    pub fn new(alloc: Global) -> Scope<'a>
        ensures { names_in result ≡ [] }
    {
        Scope {
            names: Vec::new(alloc),
        }
    }

    /// Brings a name into scope.
    pub fn push(&mut self, name: &'a Name) -> Result<(), OutOfMemory>
        ensures ok { OnOk result (names_in self.new ≡ name.now ∷ names_in self.old) }
    {
        self.push_text(name.text())
    }

    /// Brings a name of this text into scope.
    pub fn push_text(&mut self, text: &'a str) -> Result<(), OutOfMemory>
        ensures ok { OnOk result (names_in self.new ≡ text.now ∷ names_in self.old) }
    {
        self.names.push(text)?;
        Ok(())
    }

    /// Takes the last name out of scope, where there is one.
    pub fn pop(&mut self)
        ensures { (last : List ℕ) (others : List (List ℕ)) → names_in self.old ≡ last ∷ others → names_in self.new ≡ others }
    {
        self.names.pop();
    }

    /// Brings the names of these words into scope, in order.
    #[tactic(auto, using(crate::proofs::WordLemmas::bindings))]
    pub fn bind(&mut self, words: &'a [Word]) -> Result<(), OutOfMemory>
        ensures ok { OnOk result (names_in self.new ≡ binding words.now (names_in self.old)) }
    {
        for word in words {
            self.push(&word.text)?;
        }
        Ok(())
    }

    /// Takes as many names out of scope as these words are.
    pub fn unbind(&mut self, count: usize)
        ensures { (ws : List w.Word) (xs : List (List ℕ)) → length ws ≡ count → names_in self.old ≡ binding ws xs → names_in self.new ≡ xs }
    {
        for _index in 0..count {
            self.pop();
        }
    }

    /// The number of the name, from the last one on.
    pub(crate) fn find(&self, name: &Name) -> Option<usize>
        ensures { result ≡ number_of name.now (names_in self.now) }
    {
        let count = self.names.len();
        for index in 0..count {
            let bound = self.names[count - 1 - index];
            if is_text(name, bound) {
                return Some(index);
            }
        }
        None
    }

    /// Whether the name is one of these.
    #[tactic(auto, using(crate::proofs::ScopeLemmas::founds))]
    pub fn has(&self, name: &Name) -> bool
        ensures { result ≡ is_among name.now (names_in self.now) }
    {
        match self.find(name) {
            Some(_) => true,
            None => false,
        }
    }
}
