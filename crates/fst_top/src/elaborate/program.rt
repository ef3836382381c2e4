ghost use Rattle.std.specs.Prelude.{◌≡◌, ◌≤◌, [], length, map};
ghost use Rattle.fst_program.specs.Plain.{plain_fun, plain_program};
ghost use Rattle.fst_top.specs.Elaboration.{funs_from, is_named, most_funs, program_of, result_name};
ghost use Rattle.fst_top.specs.Elaborating.{Gives};
ghost use Rattle.fst_top.specs.Functions.{next_fun, plain_funs};

use crate::elaborate::functions::elaborate_fun;
use crate::elaborate::stop::Stop;
use fst_base::{Name, Seq, refuse};
use fst_program::{Fun, Program};
use fst_reader::{Decl, RawDecl};
use std::alloc::Global;

/// The greatest number of functions.
const MOST_FUNS: usize = 1000;

/// Whether a function has the name.
fn is_declared(funs: &[Fun], name: &Name) -> bool
    ensures { result ≡ is_named name.now (map (λ f. f.name) funs.now) }
{
    for fun in funs {
        if name.same(&fun.name) {
            return true;
        }
    }
    false
}

/// The function that a declaration is, after these; its name is none of theirs.
fn next_fun(
    alloc: Global,
    funs: &[Fun],
    decl: &RawDecl,
    result_word: &Name,
    number: u32,
) -> Result<Fun, Stop>
    requires { result_word.now ≡ result_name }
    ensures { Gives plain_fun (next_fun number (map (λ f. f.name) funs.now) decl.now) result }
{
    let Decl::Fun(tree) = decl else {
        return Err(Stop::NotBuilt);
    };
    let fun = elaborate_fun(alloc, tree, result_word, number)?;
    if is_declared(funs, &fun.name) {
        return refuse(fun, Stop::NotBuilt);
    }
    Ok(fun)
}

/// The functions that these declarations are.
fn elaborate_funs(alloc: Global, decls: &[RawDecl]) -> Result<Seq<Fun>, Stop>
    requires { length decls.now ≤ most_funs }
    ensures { Gives plain_funs (funs_from 0 [] decls.now) result }
{
    let result_word = Name::new(alloc, "result")?;
    let mut funs = Seq::new(alloc);
    for decl in decls {
        let number = funs.len() as u32;
        let fun = next_fun(alloc, funs.as_slice(), decl, &result_word, number)?;
        funs.push(fun)?;
    }
    Ok(funs)
}

/// The program of these declarations.
pub fn elaborate_program(alloc: Global, decls: &[RawDecl]) -> Result<Program, Stop>
    ensures { Gives plain_program (program_of decls.now) result }
{
    if decls.len() > MOST_FUNS {
        return Err(Stop::NotBuilt);
    }
    let funs = elaborate_funs(alloc, decls)?;
    Ok(Program {
        effects: Seq::new(alloc),
        lifts: Seq::new(alloc),
        funs,
    })
}
