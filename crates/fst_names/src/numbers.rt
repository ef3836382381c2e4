ghost use Rattle.std.specs.Prelude.{◌≡◌, [], ◌∷◌, ◌++◌, ℕ, List, Some, None, OnOk, OnErr, bytes_eq, if◌then◌else◌};
ghost use Rattle.std.specs.HashMap.{get_by};
ghost use Rattle.fst_names.specs.Names.{number_of, or_else};

use fst_base::{Name, OutOfMemory};
use std::alloc::Global;
use std::collections::HashMap;
use std::marker::Model;

/// Names in order, each looked up by the first of its numbers.
#[derive(Drop)]
pub struct Numbers<'a> {
    names: Vec<&'a Name>,
    first: HashMap<&'a str, u32>,
}

impl<'a> Model for Numbers<'a> {
    ghost use Rattle.std.specs.Prelude.{◌≡◌, ℕ, List, map, bytes_eq};
    ghost use Rattle.std.specs.HashMap.{get_by};
    ghost use Rattle.fst_names.specs.Names.{Names, number_of};

    ghost Value = { Names };

    ghost view = { λ s. map (λ x. x.now) s.names.items };

    ghost invariant = { λ s. (q : List ℕ) → get_by (λ k. bytes_eq q k.now) s.first ≡ number_of q (map (λ x. x.now) s.names.items) };
}

/// The number of the name, unless it has one.
fn put_first<'a>(
    first: &mut HashMap<&'a str, u32>,
    name: &'a Name,
    number: u32,
) -> Result<(), OutOfMemory>
    ensures ok { OnOk result ((q : List ℕ) → get_by (λ k. bytes_eq q k.now) first.new ≡ or_else (get_by (λ k. bytes_eq q k.now) first.old) (if bytes_eq q name.now then Some number else None)) }
    ensures stays { OnErr result ((q : List ℕ) → get_by (λ k. bytes_eq q k.now) first.new ≡ get_by (λ k. bytes_eq q k.now) first.old) }
{
    if first.get(name.text()).is_some() {
        return Ok(());
    }
    first.insert(name.text(), number)?;
    Ok(())
}

impl<'a> Numbers<'a> {
    /// No names.
    pub fn new(alloc: Global) -> Numbers<'a>
        ensures { result ≡ [] }
    {
        Numbers {
            names: Vec::new(alloc),
            first: HashMap::new(alloc),
        }
    }

    /// One more name behind them.
    pub fn push(&mut self, name: &'a Name) -> Result<(), OutOfMemory>
        ensures ok { OnOk result (self.new ≡ self.old ++ name.now ∷ []) }
        ensures stays { OnErr result (self.new ≡ self.old) }
    {
        let Ok(number) = u32::try_from(self.names.len()) else {
            return Err(OutOfMemory);
        };
        self.names.reserve(1)?;
        put_first(&mut self.first, name, number)?;
        self.names.push_reserved(name);
        Ok(())
    }

    /// The first number of the name.
    pub fn find(&self, name: &Name) -> Option<u32>
        ensures { result ≡ number_of name.now self.now }
    {
        self.first.get(name.text()).copied()
    }
}
