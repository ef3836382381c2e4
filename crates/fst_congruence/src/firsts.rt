ghost use Rattle.std.specs.Prelude.{◌≡◌, ℕ, List, None, IfOk};
ghost use Rattle.fst_congruence.specs.Firsts.{first_of, FirstIs};

use fst_base::OutOfMemory;
use std::alloc::Global;
use std::collections::HashMap;

/// For each key the first term that was met with it.
#[derive(Drop)]
pub struct Firsts {
    terms: HashMap<Vec<u32>, u32>,
}

impl Firsts {
    /// No keys.
    pub fn new(alloc: Global) -> Firsts
        ensures { (key : List ℕ) → first_of result key ≡ None }
    {
        Firsts {
            terms: HashMap::new(alloc),
        }
    }

    /// The first term with this key, which is this one where there was none.
    pub fn first(&mut self, key: Vec<u32>, term: u32) -> Result<u32, OutOfMemory>
        ensures { IfOk result (λ first. FirstIs self.old self.new key.items term first) }
    {
        if let Some(first) = self.terms.get(key.as_slice()) {
            return Ok(*first);
        }
        self.terms.insert(key, term)?;
        Ok(term)
    }
}
