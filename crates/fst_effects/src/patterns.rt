//! Patterns: whether one fits a sort, and its names in scope.

ghost use Rattle.std.specs.Prelude.{◌≡◌, is_some, OnOk};
ghost use Rattle.fst_base.specs.Sorts.{plain_sort};
ghost use Rattle.fst_effects.specs.Known.{Ctx};
ghost use Rattle.fst_effects.specs.Patterns as P;
ghost use Rattle.fst_effects.specs.PatternScopes as S;
ghost use Rattle.fst_effects.specs.PatternScopes.{first_part, fits, pattern_scope, second_part, with_part};
ghost use Rattle.fst_effects.specs.Scopes.{scope_in, sort_at};

use crate::scope::{Context, Entry};
use crate::sorts::{copy_sort, inl_of, inr_of, item_of, left_of, option_of, right_of};
use fst_base::{OutOfMemory, Sort};
use fst_program::Con;
use fst_trees::ConWord;
use std::alloc::Global;

/// The constructor that a pattern's word is.
pub fn core_con(con: ConWord) -> Con
    ensures { result ≡ P.core_con con }
{
    match con {
        ConWord::True => Con::True,
        ConWord::False => Con::False,
        ConWord::Empty => Con::Empty,
        ConWord::Full => Con::Full,
        ConWord::Nil => Con::Nil,
        ConWord::Cons => Con::Cons,
        ConWord::Left => Con::Left,
        ConWord::Right => Con::Right,
        ConWord::Pair => Con::Pair,
    }
}

/// The sort of a pattern's first name, where the pattern fits the sort and binds one.
fn first_part(con: ConWord, sort: &Sort) -> Option<&Sort>
    ensures { sort_at result ≡ first_part con (plain_sort sort.now) }
{
    match con {
        ConWord::Full => option_of(Some(sort)),
        ConWord::Cons => item_of(Some(sort)),
        ConWord::Left => inl_of(Some(sort)),
        ConWord::Right => inr_of(Some(sort)),
        ConWord::Pair => left_of(Some(sort)),
        ConWord::True | ConWord::False | ConWord::Empty | ConWord::Nil => None,
    }
}

/// The sort of a pattern's second name, where the pattern fits the sort and binds two.
fn second_part(con: ConWord, sort: &Sort) -> Option<&Sort>
    ensures { sort_at result ≡ second_part con (plain_sort sort.now) }
{
    match con {
        ConWord::Cons => match item_of(Some(sort)) {
            Some(_) => Some(sort),
            None => None,
        },
        ConWord::Pair => right_of(Some(sort)),
        _ => None,
    }
}

/// Whether the sort is bool.
#[tactic(auto, using(crate::proofs::PlainLemmas::sorts))]
fn is_bool(sort: &Sort) -> bool
    ensures { result ≡ S.is_bool (plain_sort sort.now) }
{
    match sort {
        Sort::Bool => true,
        _ => false,
    }
}

/// Whether there is a sort.
fn is_there(part: Option<&Sort>) -> bool
    ensures { result ≡ is_some (sort_at part.entry) }
{
    match part {
        Some(_) => true,
        None => false,
    }
}

/// Whether the pattern's constructor is one of the sort.
#[tactic(auto, using(crate::proofs::PatternLemmas::fitting))]
pub fn fits(con: ConWord, sort: &Sort) -> bool
    ensures { result ≡ fits con (plain_sort sort.now) }
{
    match con {
        ConWord::True | ConWord::False => is_bool(sort),
        ConWord::Empty => is_there(option_of(Some(sort))),
        ConWord::Nil => is_there(item_of(Some(sort))),
        _ => is_there(first_part(con, sort)),
    }
}

/// Brings a variable of the sort into scope, where there is one.
fn bind_part(alloc: Global, part: Option<&Sort>, context: &mut Context) -> Result<(), OutOfMemory>
    ensures { OnOk result (scope_in context.new ≡ with_part (sort_at part.entry) (scope_in context.old)) }
{
    match part {
        Some(sort) => context.push(Entry {
            sort: copy_sort(alloc, sort)?,
            hidden: false,
        }),
        None => Ok(()),
    }
}

/// Takes a variable of the sort out of scope, where there is one.
fn drop_part(part: Option<&Sort>, context: &mut Context)
    ensures { (xs : Ctx) → scope_in context.old ≡ with_part (sort_at part.entry) xs → scope_in context.new ≡ xs }
{
    match part {
        Some(_) => context.pop(),
        None => {}
    }
}

/// Brings the names of a pattern into scope, where it fits the sort.
#[tactic(auto, using(crate::proofs::PatternLemmas::scopes))]
pub fn bind(
    alloc: Global,
    con: ConWord,
    sort: &Sort,
    context: &mut Context,
) -> Result<(), OutOfMemory>
    ensures { OnOk result (scope_in context.new ≡ pattern_scope con (plain_sort sort.now) (scope_in context.old)) }
{
    bind_part(alloc, first_part(con, sort), context)?;
    bind_part(alloc, second_part(con, sort), context)
}

/// Takes them out of scope.
#[tactic(auto, using(crate::proofs::PatternLemmas::scopes))]
pub fn unbind(con: ConWord, sort: &Sort, context: &mut Context)
    ensures { (xs : Ctx) → scope_in context.old ≡ pattern_scope con (plain_sort sort.now) xs → scope_in context.new ≡ xs }
{
    drop_part(second_part(con, sort), context);
    drop_part(first_part(con, sort), context);
}
