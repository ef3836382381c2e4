//! Effects and lifts.

ghost use Rattle.std.specs.Prelude.{◌≡◌, [], IfOk};
ghost use Rattle.fst_names.specs.Names.{binding, definition_tables, input_of, is_before, number_of};
ghost use Rattle.fst_names.specs.Looked.{before_in, tables_in};
ghost use Rattle.fst_names.specs.Scopes.{names_in};
ghost use Rattle.fst_names.specs.Declarations.{effect_word_breaks, return_breaks, bind_breaks, effect_breaks, lift_breaks};

use crate::before::Before;
use crate::broken::{Broken, least, unless};
use crate::check_definitions::check_dm;
use crate::check_sorts::check_sort;
use crate::globals::Globals;
use crate::scope::Scope;
use crate::tables::Tables;
use crate::words::check_words;
use fst_base::{OutOfMemory, Rule};
use fst_trees::{DmTree, EffectTree, LiftTree, Word};
use std::alloc::Global;

/// Whether an effect of the name stands before.
fn is_declared(globals: &Globals<'_>, before: Before, word: &Word) -> bool
    ensures { result ≡ is_before before.effects (number_of word.now.text globals.now.effects) }
{
    match globals.effect(&word.text) {
        Some(number) => number < before.effects,
        None => false,
    }
}

/// What is broken at the name of an effect: it is declared before, or there are 32 effects before.
#[tactic(auto, using(crate::proofs::CheckEffectLemmas::words))]
fn check_effect_word(globals: &Globals<'_>, before: Before, word: &Word) -> Option<Broken>
    ensures { result ≡ effect_word_breaks globals.now (before_in before) word.now }
{
    least(
        unless(!is_declared(globals, before, word), Rule::Twice, word.at),
        unless(before.effects < 32, Rule::TooMany, word.at),
    )
}

/// What the names of a return and of an effect's sorts are looked up in: there are no computations. Of the words the empty
/// part is taken.
pub fn return_tables<'t, 'a>(
    globals: &'t Globals<'a>,
    before: Before,
    words: &'t [Word],
) -> Tables<'t, 'a>
    ensures { tables_in result ≡ definition_tables globals.now (before_in before) [] }
{
    Tables {
        globals,
        before,
        header: Some(&words[..0]),
    }
}

/// The scope of a return: its names are all variables.
pub fn variable_scope<'a>(alloc: Global, names: &'a [Word]) -> Result<Scope<'a>, OutOfMemory>
    ensures { IfOk result (λ scope. names_in scope ≡ binding names.now []) }
{
    let mut scope = Scope::new(alloc);
    scope.bind(names)?;
    Ok(scope)
}

/// What a return breaks, by its names and its text.
fn check_return<'a>(
    alloc: Global,
    globals: &Globals<'a>,
    before: Before,
    names: &'a [Word],
    text: &'a DmTree<Word>,
) -> Result<Option<Broken>, OutOfMemory>
    ensures { IfOk result (λ found. found ≡ return_breaks globals.now (before_in before) names.now text.now) }
{
    let tables = return_tables(globals, before, names);
    let mut scope = variable_scope(alloc, names)?;
    let text = check_dm(&tables, text, &mut scope)?;
    Ok(least(check_words(names), text))
}

/// The scope of a bind or a lift: the last of its names is that of the input, and the others are computations.
#[tactic(auto, using(crate::proofs::CheckEffectLemmas::inputs))]
pub fn input_scope<'a>(alloc: Global, names: &'a [Word]) -> Result<Scope<'a>, OutOfMemory>
    ensures { IfOk result (λ scope. names_in scope ≡ input_of names.now) }
{
    let mut scope = Scope::new(alloc);
    let count = names.len();
    if count == 0 {
        return Ok(scope);
    }
    scope.push(&names[count - 1].text)?;
    Ok(scope)
}

/// What a bind or a lift breaks, by its names and its text.
fn check_bind<'a>(
    alloc: Global,
    globals: &Globals<'a>,
    before: Before,
    names: &'a [Word],
    text: &'a DmTree<Word>,
) -> Result<Option<Broken>, OutOfMemory>
    ensures { IfOk result (λ found. found ≡ bind_breaks globals.now (before_in before) names.now text.now) }
{
    let tables = Tables {
        globals,
        before,
        header: Some(names),
    };
    let mut scope = input_scope(alloc, names)?;
    let text = check_dm(&tables, text, &mut scope)?;
    Ok(least(check_words(names), text))
}

/// What an effect breaks, of which this much stands before.
#[tactic(auto, using(crate::proofs::CheckEffectLemmas::effects))]
pub fn check_effect<'a>(
    alloc: Global,
    globals: &Globals<'a>,
    before: Before,
    effect: &'a EffectTree<Word>,
) -> Result<Option<Broken>, OutOfMemory>
    ensures { IfOk result (λ found. found ≡ effect_breaks globals.now (before_in before) effect.now) }
{
    let names = effect.ret_names.as_slice();
    let tables = return_tables(globals, before, names);
    let word = check_effect_word(globals, before, &effect.name);
    let input = check_sort(&tables, &effect.input);
    let carried = check_sort(&tables, &effect.result);
    let ret = check_return(alloc, globals, before, names, &effect.ret)?;
    let names = effect.bind_names.as_slice();
    let bind = check_bind(alloc, globals, before, names, &effect.bind)?;
    Ok(least(least(least(least(word, input), carried), ret), bind))
}

/// What a lift breaks, of which this much stands before.
#[tactic(auto, using(crate::proofs::CheckEffectLemmas::lifts))]
pub fn check_lift<'a>(
    alloc: Global,
    globals: &Globals<'a>,
    before: Before,
    lift: &'a LiftTree<Word>,
) -> Result<Option<Broken>, OutOfMemory>
    ensures { IfOk result (λ found. found ≡ lift_breaks globals.now (before_in before) lift.now) }
{
    let names = lift.names.as_slice();
    let tables = Tables {
        globals,
        before,
        header: Some(names),
    };
    let from = tables.effect(&lift.from);
    let to = tables.effect(&lift.to);
    let text = check_bind(alloc, globals, before, names, &lift.text)?;
    Ok(least(least(from, to), text))
}
