ghost use Rattle.std.specs.Prelude.{◌≡◌, ◌<◌, ◌++◌, [], ℕ, length, get_or, set, IfOk, OnOk};

use fst_base::{OutOfMemory, Seq};
use std::alloc::Global;
use std::marker::Model;
use std::mem;

/// For each label the terms that were put under it; the term that is the label itself stands in no list until its class is moved.
#[derive(Debug, Drop)]
pub struct Members {
    lists: Vec<Seq<u32>>,
}

impl Model for Members {
    ghost use Rattle.std.specs.Prelude.{List, ℕ};

    ghost Value = { List (List ℕ) };

    ghost view = { λ m. m.lists.items };
}

impl Members {
    /// So many labels without terms.
    pub fn new(alloc: Global, count: usize) -> Result<Members, OutOfMemory>
        ensures { IfOk result (λ members. (length members ≡ count) × ((l : ℕ) → get_or members l [] ≡ [])) }
    {
        let mut lists = Vec::new(alloc);
        for _at in 0..count {
            lists.push(Seq::new(alloc))?;
        }
        Ok(Members { lists })
    }

    /// How many terms stand under the label.
    pub fn count(&self, label: u32) -> usize
        requires { label < length self.now }
    {
        self.lists[label as usize].len()
    }

    /// Takes out the terms of the label.
    pub fn take(&mut self, alloc: Global, label: u32) -> Seq<u32>
        requires { label < length self.old }
        ensures { (result ≡ get_or self.old label []) × (self.new ≡ set self.old label []) }
    {
        mem::replace(&mut self.lists[label as usize], Seq::new(alloc))
    }

    /// Puts these terms under the label too.
    pub fn append(&mut self, label: u32, terms: Seq<u32>) -> Result<(), OutOfMemory>
        requires { label < length self.old }
        ensures { OnOk result (self.new ≡ set self.old label (get_or self.old label [] ++ terms)) }
    {
        self.lists[label as usize].append(terms)
    }
}
