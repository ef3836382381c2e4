//! Functions, declarations and whole programs with their names looked up.

ghost use Rattle.std.specs.Prelude.{◌≡◌, [], map, IfOk, OnOk, Some, Err};
ghost use Rattle.fst_base.specs.declared.place.Pos.{Pos};
ghost use Rattle.fst_base.specs.declared.rule.Rule.{Rule};
ghost use Rattle.fst_base.specs.declared.rule.Fault.TheVariants as fault;
ghost use Rattle.fst_names.specs.Broken.{first_broken};
ghost use Rattle.fst_names.specs.Names.{broken_names, named};
ghost use Rattle.fst_names.specs.Namings.{ref_at};
ghost use Rattle.fst_names.specs.NamedDeclarations.{fun_named, decl_named, decls_named, decls_in};
ghost use Rattle.fst_names.specs.Looked.{before_in};
ghost use Rattle.fst_names.specs.Declarations.{all_of, decls_of};
ghost use Rattle.fst_names.specs.Trees.{plain_wfun, plain_decl};

use crate::before::Before;
use crate::check_programs::{check_program, gather};
use crate::globals::Globals;
use crate::name_effects::{name_effect, name_lift};
use crate::name_heads::name_head;
use crate::name_texts::name_body;
use crate::named::{Named, NamedDecl};
use crate::reference::Ref;
use crate::scope::Scope;
use crate::tables::Tables;
use fst_base::{Fault, OutOfMemory, Seq, pair};
use fst_trees::{Decl, FunTree, RawProgram, Word};
use std::alloc::Global;

/// A function with its names looked up, of which this much stands before.
#[tactic(auto, using(crate::proofs::NameFunLemmas::funs))]
pub fn name_fun<'a>(
    alloc: Global,
    globals: &Globals<'a>,
    before: Before,
    fun: &'a FunTree<Word>,
) -> Result<FunTree<Ref>, OutOfMemory>
    ensures { IfOk result (λ f. plain_wfun f ≡ fun_named globals.now (before_in before) fun.now) }
{
    let tables = Tables {
        globals,
        before: before.own(fun.joined),
        header: None,
    };
    let mut scope = Scope::new(alloc);
    let head = name_head(alloc, &tables, &fun.head, &mut scope);
    let body = name_body(alloc, &tables, &fun.body, &mut scope);
    let (head, body) = pair(head, body)?;
    Ok(FunTree {
        head,
        joined: fun.joined,
        body,
    })
}

/// A declaration with its names looked up, of which this much stands before.
#[tactic(auto, using(crate::proofs::NameProgramLemmas::decls))]
fn name_decl<'a>(
    alloc: Global,
    globals: &Globals<'a>,
    before: Before,
    decl: &'a Decl<Word>,
) -> Result<NamedDecl, OutOfMemory>
    ensures { IfOk result (λ d. plain_decl ref_at d ≡ decl_named globals.now (before_in before) decl.now) }
{
    match decl {
        Decl::Effect(effect) => {
            let effect = name_effect(alloc, globals, before, effect)?;
            Ok(Decl::Effect(effect))
        }
        Decl::Lift(lift) => {
            let lift = name_lift(alloc, globals, before, lift)?;
            Ok(Decl::Lift(lift))
        }
        Decl::Fun(fun) => {
            let fun = name_fun(alloc, globals, before, fun)?;
            Ok(Decl::Fun(fun))
        }
    }
}

/// The declarations with their names looked up among these functions and effects.
#[tactic(auto, using(crate::proofs::NameProgramLemmas::steps))]
fn name_decls<'a>(
    alloc: Global,
    globals: &Globals<'a>,
    decls: &'a [Decl<Word>],
) -> Result<Seq<NamedDecl>, OutOfMemory>
    ensures { IfOk result (λ ds. map (plain_decl ref_at) ds ≡ decls_named globals.now decls.now) }
{
    let mut named = Seq::new(alloc);
    let mut before = Before::start();
    for decl in decls {
        let next = before.after(decl)?;
        let decl = name_decl(alloc, globals, before, decl)?;
        named.push(decl)?;
        before = next;
    }
    Ok(named)
}

/// The program with its names looked up, whether or not a rule is broken.
#[tactic(auto, using(crate::proofs::NameProgramLemmas::answers))]
fn name_program(alloc: Global, raw: &RawProgram) -> Result<Named, OutOfMemory>
    ensures { IfOk result (λ program. decls_in program ≡ named (decls_of raw.now)) }
{
    let globals = gather(alloc, raw.decls.as_slice())?;
    let decls = name_decls(alloc, &globals, raw.decls.as_slice())?;
    Ok(Named { decls })
}

/// The program with what its names stand for: Ok exactly where it breaks no rule on names. Else the broken rule at the
/// smallest place, and of several there the one of the smallest number, if memory isn't wanted first.
pub fn resolve(alloc: Global, raw: &RawProgram) -> Result<Named, Fault>
    ensures ok { OnOk result (broken_names (decls_of raw.now) ≡ []) }
    ensures named { IfOk result (λ program. decls_in program ≡ named (decls_of raw.now)) }
    ensures refused { (broken : Rule) (at : Pos) → result ≡ Err (fault.Refused broken at) → first_broken (broken_names (decls_of raw.now)) ≡ Some (record { at = at; rule = broken }) }
{
    check_program(alloc, raw)?;
    match name_program(alloc, raw) {
        Ok(named) => Ok(named),
        Err(OutOfMemory) => Err(Fault::NoMemory),
    }
}
