ghost use Rattle.std.specs.Prelude.{◌≡◌, suc, IfOk};
ghost use Rattle.fst_names.specs.Looked.{before_in};
ghost use Rattle.fst_names.specs.Names.{start, after, group_of};
ghost use Rattle.fst_names.specs.Trees.{plain_decl, word_at};

use fst_base::OutOfMemory;
use fst_trees::{Decl, Word};

/// How much of a program stands before a declaration: the group of the function, if it is one, and how many functions and
/// effects.
#[derive(Clone, Copy)]
pub struct Before {
    pub group: u32,
    pub funs: u32,
    pub effects: u32,
}

/// One more than so many. A count that leaves its type is want of memory.
fn one_more(count: u32) -> Result<u32, OutOfMemory>
    ensures { IfOk result (λ more. more ≡ suc count) }
{
    match count.checked_add(1) {
        Some(more) => Ok(more),
        None => Err(OutOfMemory),
    }
}

impl Before {
    /// Nothing stands before the first declaration.
    pub fn start() -> Before
        ensures { before_in result ≡ start }
    {
        Before {
            group: 0,
            funs: 0,
            effects: 0,
        }
    }

    /// The group of the next function: that of the function before it, where it is joined to it.
    pub fn group_of(self, joined: bool) -> u32
        ensures { result ≡ group_of joined (before_in self) }
    {
        if joined { self.group } else { self.funs }
    }

    /// What stands before a function, counted with its own group.
    pub fn own(self, joined: bool) -> Before
        ensures { before_in result ≡ record { group = group_of joined (before_in self); funs = self.funs; effects = self.effects } }
    {
        Before {
            group: self.group_of(joined),
            ..self
        }
    }

    /// What stands before the next declaration.
    pub fn after(self, decl: &Decl<Word>) -> Result<Before, OutOfMemory>
        ensures { IfOk result (λ next. before_in next ≡ after (before_in self) (plain_decl word_at decl.now)) }
    {
        match decl {
            Decl::Effect(_) => Ok(Before {
                effects: one_more(self.effects)?,
                ..self
            }),
            Decl::Lift(_) => Ok(self),
            Decl::Fun(fun) => Ok(Before {
                group: self.group_of(fun.joined),
                funs: one_more(self.funs)?,
                ..self
            }),
        }
    }
}
