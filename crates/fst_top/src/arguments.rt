//! The argument words of a run.

ghost use Rattle.std.specs.Prelude.{map, IfOk};
ghost use Rattle.fst_base.specs.Sorts.{plain_sort};
ghost use Rattle.fst_program.specs.Plain.{plain_param};
ghost use Rattle.fst_top.specs.Answering.{IsArgumentRead, IsTaken};

use fst_base::{Name, OutOfMemory, Seq, Sort, Value};
use fst_program::Param;
use fst_values::{ValueFault, read_value};
use std::alloc::Global;

/// The values of all words, or the first word that is bad; the first of all is word 1.
#[derive(Drop)]
pub enum Arguments {
    Values(Seq<Value>),
    Bad(u128),
}

/// The values that the words are at these parameters.
pub fn read_arguments(
    alloc: Global,
    params: &[Param],
    words: &[Name],
) -> Result<Arguments, OutOfMemory>
    ensures { IfOk result (IsTaken (map plain_param params.now) words.now) }
{
    let mut values = Seq::new(alloc);
    let mut left = params;
    let mut rest = words;
    'parameters: while let Some((param, more)) = left.split_first() {
        let Some((word, others)) = rest.split_first() else {
            return Ok(Arguments::Bad(values.len() as u128 + 1));
        };
        let Some(value) = argument(alloc, word, &param.sort)? else {
            return Ok(Arguments::Bad(values.len() as u128 + 1));
        };
        values.push(value)?;
        left = more;
        rest = others;
    }
    if rest.is_empty() {
        Ok(Arguments::Values(values))
    } else {
        Ok(Arguments::Bad(values.len() as u128 + 1))
    }
}

/// The value of the sort that the word is, if it is one.
fn argument(alloc: Global, word: &Name, sort: &Sort) -> Result<Option<Value>, OutOfMemory>
    ensures { IfOk result (IsArgumentRead (plain_sort sort.now) word.now) }
{
    match read_value(alloc, word.text().as_bytes(), sort) {
        Ok(value) => Ok(Some(value)),
        Err(ValueFault::NumberTooWide) => Ok(None),
        Err(ValueFault::NotAValue) => Ok(None),
        Err(ValueFault::NoMemory) => Err(OutOfMemory),
    }
}
