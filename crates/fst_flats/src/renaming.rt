ghost use Rattle.std.specs.Prelude.{◌≡◌, ◌+◌, false, map, IfOk};
ghost use Rattle.fst_flats.specs.Preparing.{sorts_in};
ghost use Rattle.fst_terms.specs.Naming.{name_index, renamed};
ghost use Rattle.fst_terms.specs.Terms.{plain_term, t_var};

use crate::building::Made;
use crate::keyed::Keyed;
use crate::naming::is_named;
use crate::sorting::{is_data_term, takes_data};
use fst_base::{Box, OutOfMemory, Seq, Sort, boxed, pair};
use fst_terms::Term;
use std::alloc::Global;

/// The term with these terms replaced by their names.
#[cycle(rename)]
#[tactic(auto, using(crate::proofs::PlainForms::plain_variants))]
pub fn rename(alloc: Global, term: &Term, is_argument: bool, sorts: &[Sort], names: &Keyed) -> Made
    ensures { IfOk result (λ made. plain_term made ≡ renamed (sorts_in sorts.now) (map plain_term names.now) is_argument (plain_term term.now)) }
{
    match term {
        Term::Var(index) => past(*index, names.len()),
        Term::Int(number) => Ok(Term::Int(*number)),
        Term::Bool(truth) => Ok(Term::Bool(*truth)),
        Term::Unit => Ok(Term::Unit),
        Term::Prim(op, sort, args, at) => {
            if is_named(is_argument, *op) {
                return name_of(term, names);
            }
            let args_are = takes_data(alloc, sorts, *op, args.as_slice())?;
            let args = rename_all(alloc, args.as_slice(), args_are, sorts, names)?;
            let sort = sort.copy(alloc)?;
            Ok(Term::Prim(*op, sort, args, *at))
        }
        Term::If(test, left, right) => {
            if is_argument {
                return name_of(term, names);
            }
            let left_is = is_data_term(alloc, sorts, left.get())?;
            let test = rename_boxed(alloc, test, false, sorts, names);
            let front = pair(test, rename_boxed(alloc, left, left_is, sorts, names));
            let right = rename_boxed(alloc, right, left_is, sorts, names);
            let ((test, left), right) = pair(front, right)?;
            Ok(Term::If(test, left, right))
        }
        Term::App(function, sort, args) => {
            let args = rename_all(alloc, args.as_slice(), true, sorts, names)?;
            let sort = sort.copy(alloc)?;
            Ok(Term::App(*function, sort, args))
        }
        Term::Let(_, _, _) => term.copy(alloc),
    }
}

#[cycle(rename)]
pub fn rename_boxed(
    alloc: Global,
    term: &Box<Term>,
    is_argument: bool,
    sorts: &[Sort],
    names: &Keyed,
) -> Result<Box<Term>, OutOfMemory>
    ensures { IfOk result (λ made. plain_term made ≡ renamed (sorts_in sorts.now) (map plain_term names.now) is_argument (plain_term term.now)) }
{
    boxed(alloc, rename(alloc, term.get(), is_argument, sorts, names))
}

#[cycle(rename)]
pub fn rename_all(
    alloc: Global,
    terms: &[Term],
    are_arguments: bool,
    sorts: &[Sort],
    names: &Keyed,
) -> Result<Seq<Term>, OutOfMemory>
    ensures { IfOk result (λ made. map plain_term made ≡ map (λ t. renamed (sorts_in sorts.now) (map plain_term names.now) are_arguments (plain_term t)) terms.now) }
{
    let mut made = Seq::new(alloc);
    for term in terms {
        made.push(rename(alloc, term, are_arguments, sorts, names)?)?;
    }
    Ok(made)
}

/// The variable with this many names after it.
#[tactic(auto, using(crate::proofs::PlainForms::plain_variants))]
fn past(index: u32, names: usize) -> Made
    ensures { IfOk result (λ made. plain_term made ≡ t_var (index + names)) }
{
    match index.checked_add(count(names)?) {
        Some(index) => Ok(Term::Var(index)),
        None => Err(OutOfMemory),
    }
}

/// The name of the term.
#[tactic(auto, using(crate::proofs::PlainForms::plain_variants))]
pub fn name_of(term: &Term, names: &Keyed) -> Made
    ensures { IfOk result (λ made. plain_term made ≡ t_var (name_index (map plain_term names.now) (plain_term term.now))) }
{
    Ok(Term::Var(count(name_index(term, names))?))
}

/// How many names stand after that of the term, and 0 where it has none.
fn name_index(term: &Term, names: &Keyed) -> usize
    ensures { result ≡ name_index (map plain_term names.now) (plain_term term.now) }
{
    let place = names.place(term);
    if place < names.len() {
        names.len() - 1 - place
    } else {
        0
    }
}

/// The count in 32 bits.
pub fn count(items: usize) -> Result<u32, OutOfMemory>
    ensures { IfOk result (λ count. count ≡ items) }
{
    match u32::try_from(items) {
        Ok(count) => Ok(count),
        Err(_) => Err(OutOfMemory),
    }
}
