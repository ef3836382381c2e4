//! Effects and lifts with their names looked up.

ghost use Rattle.std.specs.Prelude.{◌≡◌, [], IfOk};
ghost use Rattle.fst_names.specs.Names.{binding, definition_tables, input_of, runs_of};
ghost use Rattle.fst_names.specs.Namings.{sort_named, dm_named, effect_named, lift_named, ref_at};
ghost use Rattle.fst_names.specs.Looked.{before_in, tables_in};
ghost use Rattle.fst_names.specs.Trees.{plain_wsort, plain_dm, plain_weffect, plain_wlift};

use crate::before::Before;
use crate::check_effects::{input_scope, return_tables, variable_scope};
use crate::globals::Globals;
use crate::name_definitions::name_dm;
use crate::name_forms::{copy_word, copy_words};
use crate::name_sorts::name_sort;
use crate::reference::Ref;
use crate::tables::Tables;
use fst_base::{OutOfMemory, Seq, pair};
use fst_trees::{DmTree, EffectTree, LiftTree, SortTree, Word};
use std::alloc::Global;

/// The text of a return, by its names.
fn name_return<'a>(
    alloc: Global,
    globals: &Globals<'a>,
    before: Before,
    names: &'a [Word],
    text: &'a DmTree<Word>,
) -> Result<DmTree<Ref>, OutOfMemory>
    ensures { IfOk result (λ c. plain_dm ref_at c ≡ dm_named (definition_tables globals.now (before_in before) []) (binding names.now []) text.now) }
{
    let tables = return_tables(globals, before, names);
    let mut scope = variable_scope(alloc, names)?;
    name_dm(alloc, &tables, text, &mut scope)
}

/// The text of a bind or a lift, by its names.
fn name_bind<'a>(
    alloc: Global,
    globals: &Globals<'a>,
    before: Before,
    names: &'a [Word],
    text: &'a DmTree<Word>,
) -> Result<DmTree<Ref>, OutOfMemory>
    ensures { IfOk result (λ c. plain_dm ref_at c ≡ dm_named (definition_tables globals.now (before_in before) (runs_of names.now)) (input_of names.now) text.now) }
{
    let tables = Tables {
        globals,
        before,
        header: Some(names),
    };
    let mut scope = input_scope(alloc, names)?;
    name_dm(alloc, &tables, text, &mut scope)
}

/// A lift with its names looked up, of which this much stands before.
#[tactic(auto, using(crate::proofs::NameEffectLemmas::lifts))]
pub fn name_lift<'a>(
    alloc: Global,
    globals: &Globals<'a>,
    before: Before,
    lift: &'a LiftTree<Word>,
) -> Result<LiftTree<Ref>, OutOfMemory>
    ensures { IfOk result (λ l. plain_wlift ref_at l ≡ lift_named globals.now (before_in before) lift.now) }
{
    let names = lift.names.as_slice();
    let tables = Tables {
        globals,
        before,
        header: Some(names),
    };
    let text = name_bind(alloc, globals, before, names, &lift.text);
    let (names, text) = pair(copy_words(alloc, names), text)?;
    Ok(LiftTree {
        at: lift.at,
        from: tables.effect_ref(&lift.from),
        to: tables.effect_ref(&lift.to),
        names,
        text,
    })
}

/// The sorts of an effect: that of its input and that of what it carries.
fn name_sorts(
    alloc: Global,
    tables: &Tables<'_, '_>,
    effect: &EffectTree<Word>,
) -> Result<(SortTree<Ref>, SortTree<Ref>), OutOfMemory>
    ensures { IfOk result (λ p. (plain_wsort p.0 ≡ sort_named (tables_in tables.now) effect.now.input) × (plain_wsort p.1 ≡ sort_named (tables_in tables.now) effect.now.result)) }
{
    let input = name_sort(alloc, tables, &effect.input);
    let carried = name_sort(alloc, tables, &effect.result);
    pair(input, carried)
}

/// A text behind a copy of its names.
type Header = (Seq<Word>, DmTree<Ref>);

/// The return of an effect.
fn name_ret<'a>(
    alloc: Global,
    globals: &Globals<'a>,
    before: Before,
    effect: &'a EffectTree<Word>,
) -> Result<Header, OutOfMemory>
    ensures { IfOk result (λ p. (p.0 ≡ effect.now.ret_names) × (plain_dm ref_at p.1 ≡ dm_named (definition_tables globals.now (before_in before) []) (binding effect.now.ret_names []) effect.now.ret)) }
{
    let names = effect.ret_names.as_slice();
    let text = name_return(alloc, globals, before, names, &effect.ret);
    pair(copy_words(alloc, names), text)
}

/// The bind of an effect.
fn name_then<'a>(
    alloc: Global,
    globals: &Globals<'a>,
    before: Before,
    effect: &'a EffectTree<Word>,
) -> Result<Header, OutOfMemory>
    ensures { IfOk result (λ p. (p.0 ≡ effect.now.bind_names) × (plain_dm ref_at p.1 ≡ dm_named (definition_tables globals.now (before_in before) (runs_of effect.now.bind_names)) (input_of effect.now.bind_names) effect.now.bind)) }
{
    let names = effect.bind_names.as_slice();
    let text = name_bind(alloc, globals, before, names, &effect.bind);
    pair(copy_words(alloc, names), text)
}

/// An effect with its names looked up, of which this much stands before.
#[tactic(auto, using(crate::proofs::NameEffectLemmas::effects))]
pub fn name_effect<'a>(
    alloc: Global,
    globals: &Globals<'a>,
    before: Before,
    effect: &'a EffectTree<Word>,
) -> Result<EffectTree<Ref>, OutOfMemory>
    ensures { IfOk result (λ e. plain_weffect ref_at e ≡ effect_named globals.now (before_in before) effect.now) }
{
    let tables = return_tables(globals, before, effect.ret_names.as_slice());
    let name = copy_word(alloc, &effect.name)?;
    let sorts = name_sorts(alloc, &tables, effect);
    let ret = name_ret(alloc, globals, before, effect);
    let bind = name_then(alloc, globals, before, effect);
    let ((input, carried), ((ret_names, ret), (bind_names, bind))) = pair(sorts, pair(ret, bind))?;
    Ok(EffectTree {
        name,
        div: effect.div,
        input,
        result: carried,
        ret_names,
        ret,
        bind_names,
        bind,
    })
}
