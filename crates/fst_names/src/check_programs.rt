//! Whole programs.

ghost use Rattle.std.specs.Prelude.{◌≡◌, [], IfOk, OnOk, Some, Err};
ghost use Rattle.fst_base.specs.declared.place.Pos.{Pos};
ghost use Rattle.fst_base.specs.declared.rule.Rule.{Rule};
ghost use Rattle.fst_base.specs.declared.rule.Fault.TheVariants as fault;
ghost use Rattle.fst_names.specs.Broken.{first_broken};
ghost use Rattle.fst_names.specs.Names.{broken_names};
ghost use Rattle.fst_names.specs.Looked.{before_in};
ghost use Rattle.fst_names.specs.Declarations.{with_decl, all_of, decl_breaks, decls_break, decls_of};

use crate::before::Before;
use crate::broken::{Broken, least};
use crate::check_effects::{check_effect, check_lift};
use crate::check_functions::check_fun;
use crate::globals::{Globals, Head};
use fst_base::{Fault, OutOfMemory};
use fst_trees::{Decl, RawProgram, Word};
use std::alloc::Global;

/// Puts the declaration behind those of which this much is known.
fn put_decl<'a>(
    globals: &mut Globals<'a>,
    before: Before,
    decl: &'a Decl<Word>,
) -> Result<(), OutOfMemory>
    ensures { OnOk result (globals.new ≡ with_decl globals.old (before_in before) decl.now) }
{
    match decl {
        Decl::Effect(effect) => globals.push_effect(&effect.name.text),
        Decl::Lift(_) => Ok(()),
        Decl::Fun(fun) => globals.push_fun(Head {
            name: &fun.head.name.text,
            arity: fun.head.params.len(),
            group: before.group_of(fun.joined),
        }),
    }
}

/// All functions and effects of the program.
#[tactic(auto, using(crate::proofs::CheckProgramLemmas::gathers))]
pub fn gather<'a>(alloc: Global, decls: &'a [Decl<Word>]) -> Result<Globals<'a>, OutOfMemory>
    ensures { IfOk result (λ globals. globals ≡ all_of decls.now) }
{
    let mut globals = Globals::new(alloc);
    let mut before = Before::start();
    for decl in decls {
        put_decl(&mut globals, before, decl)?;
        before = before.after(decl)?;
    }
    Ok(globals)
}

/// What a declaration breaks, of which this much stands before.
#[tactic(auto, using(crate::proofs::CheckProgramLemmas::decls))]
fn check_decl<'a>(
    alloc: Global,
    globals: &Globals<'a>,
    before: Before,
    decl: &'a Decl<Word>,
) -> Result<Option<Broken>, OutOfMemory>
    ensures { IfOk result (λ found. found ≡ decl_breaks globals.now (before_in before) decl.now) }
{
    match decl {
        Decl::Effect(effect) => check_effect(alloc, globals, before, effect),
        Decl::Lift(lift) => check_lift(alloc, globals, before, lift),
        Decl::Fun(fun) => check_fun(alloc, globals, before, fun),
    }
}

/// What any of the declarations breaks, with these known functions and effects.
#[tactic(auto, using(crate::proofs::CheckProgramLemmas::steps))]
fn check_decls<'a>(
    alloc: Global,
    globals: &Globals<'a>,
    decls: &'a [Decl<Word>],
) -> Result<Option<Broken>, OutOfMemory>
    ensures { IfOk result (λ found. found ≡ decls_break globals.now decls.now) }
{
    let mut found = None;
    let mut before = Before::start();
    for decl in decls {
        found = least(found, check_decl(alloc, globals, before, decl)?);
        before = before.after(decl)?;
    }
    Ok(found)
}

/// What the program breaks.
fn find_broken(alloc: Global, decls: &[Decl<Word>]) -> Result<Option<Broken>, OutOfMemory>
    ensures { IfOk result (λ found. found ≡ decls_break (all_of decls.now) decls.now) }
{
    let globals = gather(alloc, decls)?;
    check_decls(alloc, &globals, decls)
}

/// Ok exactly where the program breaks no rule on names. Else the broken rule at the smallest place, and of several there the
/// one of the smallest number, if memory isn't wanted first.
#[tactic(auto, using(crate::proofs::CheckProgramLemmas::answers))]
pub fn check_program(alloc: Global, program: &RawProgram) -> Result<(), Fault>
    ensures ok { OnOk result (broken_names (decls_of program.now) ≡ []) }
    ensures refused { (broken : Rule) (at : Pos) → result ≡ Err (fault.Refused broken at) → first_broken (broken_names (decls_of program.now)) ≡ Some (record { at = at; rule = broken }) }
{
    match find_broken(alloc, program.decls.as_slice()) {
        Ok(None) => Ok(()),
        Ok(Some(broken)) => Err(Fault::Refused(broken.rule, broken.at)),
        Err(OutOfMemory) => Err(Fault::NoMemory),
    }
}
