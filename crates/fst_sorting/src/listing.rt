//! The functions of a program in order.

ghost use Rattle.std.specs.Prelude.{◌≡◌, IfOk, OnOk};
ghost use Rattle.fst_names.specs.Trees.{plain_wfun};
ghost use Rattle.fst_sorting.specs.Listed.{all_placed, last_group, listed, with_decl, with_fun};

use fst_base::OutOfMemory;
use fst_names::{NamedDecl, Ref};
use fst_trees::{Decl, FunTree};
use std::alloc::Global;

/// A function with its number, and the number of the first function of its group.
#[derive(Clone, Copy)]
pub struct Placed<'a> {
    pub tree: &'a FunTree<Ref>,
    pub number: u32,
    pub group: u32,
}

/// The group of the last function; 0 where there is none.
#[tactic(auto, using(crate::proofs::ListedLemmas::groups))]
fn last_group(funs: &[Placed<'_>]) -> u32
    ensures { result ≡ last_group 0 (all_placed funs.now) }
{
    let count = funs.len();
    if count == 0 { 0 } else { funs[count - 1].group }
}

/// Puts a function behind these.
#[tactic(auto, using(crate::proofs::ListedLemmas::funs))]
fn put_fun<'a>(funs: &mut Vec<Placed<'a>>, tree: &'a FunTree<Ref>) -> Result<(), OutOfMemory>
    ensures { OnOk result (all_placed funs.new.items ≡ with_fun (all_placed funs.old.items) (plain_wfun tree.now)) }
{
    let Ok(number) = u32::try_from(funs.len()) else {
        return Err(OutOfMemory);
    };
    let group = if tree.joined {
        last_group(funs.as_slice())
    } else {
        number
    };
    funs.push(Placed {
        tree,
        number,
        group,
    })?;
    Ok(())
}

/// Puts the declaration behind these, where it is a function.
fn put_decl<'a>(funs: &mut Vec<Placed<'a>>, decl: &'a NamedDecl) -> Result<(), OutOfMemory>
    ensures { OnOk result (all_placed funs.new.items ≡ with_decl (all_placed funs.old.items) decl.now) }
{
    match decl {
        Decl::Effect(_) => Ok(()),
        Decl::Lift(_) => Ok(()),
        Decl::Fun(fun) => put_fun(funs, fun),
    }
}

/// The functions of these declarations.
#[tactic(auto, using(crate::proofs::ListedLemmas::lists))]
pub fn list_funs(alloc: Global, decls: &[NamedDecl]) -> Result<Vec<Placed<'_>>, OutOfMemory>
    ensures { IfOk result (λ funs. all_placed funs.items ≡ listed decls.now) }
{
    let mut funs = Vec::new(alloc);
    for decl in decls {
        put_decl(&mut funs, decl)?;
    }
    Ok(funs)
}
