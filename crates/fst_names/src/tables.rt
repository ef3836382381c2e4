ghost use Rattle.std.specs.Prelude.{◌≡◌, ◌≤◌, option_map};
ghost use Rattle.fst_names.specs.Broken.{first_broken};
ghost use Rattle.fst_names.specs.Names.{broken_count, broken_global, called_fun, applied_fun, named_effect, run_use, number_of, runs_of};
ghost use Rattle.fst_names.specs.Looked.{tables_in, before_in, seen};

use crate::before::Before;
use crate::broken::{Broken, unless};
use crate::globals::Globals;
use crate::scope::is_same;
use fst_base::Rule;
use fst_trees::Word;

/// What is known of a name that is called, applied or named as an effect: the rule that is broken there, and how many
/// arguments a call of it has.
#[derive(Clone, Copy)]
pub struct Called {
    pub broken: Option<Broken>,
    pub arity: Option<usize>,
}

/// What the names of a declaration are looked up in.
#[derive(Clone, Copy)]
pub struct Tables<'t, 'a> {
    pub globals: &'t Globals<'a>,
    pub before: Before,
    /// In the text of a definition, the names of its header.
    pub header: Option<&'t [Word]>,
}

/// A name that stands for nothing.
fn unknown(word: &Word) -> Called
    ensures broken { result.broken ≡ broken_global None word.now }
    ensures arity { result.arity ≡ None }
{
    Called {
        broken: unless(false, Rule::Unknown, word.at),
        arity: None,
    }
}

impl<'t, 'a> Tables<'t, 'a> {
    /// A function of a group up to this one.
    fn called_fun(&self, word: &Word) -> Called
        ensures { result ≡ seen (called_fun self.now.globals.now (before_in self.now.before) word.now) }
    {
        match self.globals.fun(&word.text) {
            Some((_, head)) => Called {
                broken: unless(head.group <= self.before.group, Rule::TooEarly, word.at),
                arity: Some(head.arity),
            },
            None => unknown(word),
        }
    }

    /// A function of a group before this one.
    pub fn applied(&self, word: &Word) -> Called
        ensures { result ≡ seen ((tables_in self.now).applied word.now) }
    {
        match self.globals.fun(&word.text) {
            Some((_, head)) => Called {
                broken: unless(head.group < self.before.group, Rule::TooEarly, word.at),
                arity: Some(head.arity),
            },
            None => unknown(word),
        }
    }

    /// What is broken at an effect, which has to stand before.
    pub fn effect(&self, word: &Word) -> Option<Broken>
        ensures { result ≡ ((tables_in self.now).effect word.now).broken }
    {
        match self.globals.effect(&word.text) {
            Some(number) => unless(number < self.before.effects, Rule::TooEarly, word.at),
            None => unless(false, Rule::Unknown, word.at),
        }
    }

    /// What is called in a text.
    pub fn called(&self, word: &Word) -> Called
        ensures { result ≡ seen ((tables_in self.now).called word.now) }
    {
        match self.header {
            Some(header) => called_run(header, word),
            None => self.called_fun(word),
        }
    }

    /// Whether a and b are sorts.
    pub fn has_variables(&self) -> bool
        ensures { result ≡ (tables_in self.now).has_variables }
    {
        self.header.is_some()
    }
}

/// One of a header's computations: the first takes an input, the second a value and an input.
fn called_run(header: &[Word], word: &Word) -> Called
    ensures { result ≡ seen (run_use word.now (number_of word.now.text (runs_of header.now))) }
{
    match run_number(header, word) {
        Some(0) => Called {
            broken: None,
            arity: Some(1),
        },
        Some(_) => Called {
            broken: None,
            arity: Some(2),
        },
        None => unknown(word),
    }
}

/// The number of the computation of the name, among all names of the header but the last.
#[tactic(auto, using(crate::proofs::WordLemmas::runs))]
pub fn run_number(header: &[Word], word: &Word) -> Option<usize>
    ensures { result ≡ number_of word.now.text (runs_of header.now) }
{
    let count = header.len().saturating_sub(1);
    for index in 0..count {
        if is_same(&word.text, &header[index].text) {
            return Some(index);
        }
    }
    None
}

/// A call with the wrong number of arguments.
pub fn wrong_count(arity: Option<usize>, count: usize, word: &Word) -> Option<Broken>
    ensures { result ≡ first_broken (broken_count arity count word.now) }
{
    match arity {
        None => None,
        Some(arity) => unless(arity == count, Rule::Arity, word.at),
    }
}
