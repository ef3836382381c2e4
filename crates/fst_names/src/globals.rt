ghost use Rattle.std.specs.Prelude.{◌≡◌, option_map, OnOk, ◌++◌, ◌∷◌, []};
ghost use Rattle.fst_names.specs.Names.{fun_from, number_of};
ghost use Rattle.fst_names.specs.Heads.{head_in, found_in};

use crate::numbers::Numbers;
use fst_base::{Name, OutOfMemory};
use std::alloc::Global;
use std::marker::Model;

/// What is known of a function before its text is read.
#[derive(Clone, Copy)]
pub struct Head<'a> {
    pub name: &'a Name,
    pub arity: usize,
    pub group: u32,
}

/// All functions and effects of a program, in order.
#[derive(Drop)]
pub struct Globals<'a> {
    heads: Vec<Head<'a>>,
    funs: Numbers<'a>,
    effects: Numbers<'a>,
}

impl<'a> Model for Globals<'a> {
    ghost use Rattle.std.specs.Prelude.{◌≡◌, map};
    ghost use Rattle.fst_names.specs.Names as names;
    ghost use Rattle.fst_names.specs.Heads.{head_in};

    ghost Value = { names.Globals };

    ghost view = { λ s. record { funs = map head_in s.heads.items; effects = s.effects } };

    ghost invariant = { λ s. s.funs ≡ map (λ h. h.name.now) s.heads.items };
}

impl<'a> Globals<'a> {
    /// No functions and no effects.
    pub fn new(alloc: Global) -> Globals<'a>
        ensures { result ≡ record { funs = []; effects = [] } }
    {
        Globals {
            heads: Vec::new(alloc),
            funs: Numbers::new(alloc),
            effects: Numbers::new(alloc),
        }
    }

    /// One more function behind them.
    pub fn push_fun(&mut self, head: Head<'a>) -> Result<(), OutOfMemory>
        ensures { OnOk result (self.new ≡ record { funs = self.old.funs ++ head_in head.entry ∷ []; effects = self.old.effects }) }
    {
        self.heads.reserve(1)?;
        self.funs.push(head.name)?;
        self.heads.push_reserved(head);
        Ok(())
    }

    /// One more effect behind them.
    pub fn push_effect(&mut self, name: &'a Name) -> Result<(), OutOfMemory>
        ensures { OnOk result (self.new ≡ record { funs = self.old.funs; effects = self.old.effects ++ name.now ∷ [] }) }
    {
        self.effects.push(name)
    }

    /// The first function of the name, with its number.
    pub fn fun(&self, name: &Name) -> Option<(u32, Head<'a>)>
        ensures { option_map found_in result ≡ fun_from 0 name.now self.now.funs }
    {
        match self.funs.find(name) {
            Some(number) => Some((number, self.heads[number as usize])),
            None => None,
        }
    }

    /// The number of the first effect of the name.
    pub fn effect(&self, name: &Name) -> Option<u32>
        ensures { result ≡ number_of name.now self.now.effects }
    {
        self.effects.find(name)
    }
}
