ghost use Rattle.std.specs.Prelude.{◌≡◌, ◌==◌, length, suc};
ghost use Rattle.std.specs.Cmp.Lexicographic.{pointwise};
ghost use Rattle.fst_base.specs.Sorts.{plain_sort, s_unit, s_bool, s_int, s_pair, s_opt, s_list, s_either};
ghost use Rattle.fst_values.specs.Reading.{Gives, items, reads};

use crate::fault::ValueFault;
use crate::number::{is_numeral, number};
use crate::parts;
use crate::reader::Reader;
use fst_base::{Seq, Sort, Value};
use std::alloc::Global;

/// Reads a value of the sort: none where a number in it is past 128 bits.
#[cycle(value)]
pub fn value(
    alloc: Global,
    reader: &mut Reader<'_>,
    sort: &Sort,
) -> Result<Option<Value>, ValueFault>
    ensures { Gives (reads (plain_sort sort.now) reader.old) result reader.new }
{
    match sort {
        Sort::Unit => unit(reader),
        Sort::Bool => truth(reader),
        Sort::Int => integer(reader),
        Sort::Pair(first, second) => pair(alloc, reader, first.get(), second.get()),
        Sort::Opt(item) => option(alloc, reader, item.get()),
        Sort::List(item) => list(alloc, reader, item.get()),
        Sort::Either(left, right) => either(alloc, reader, left.get(), right.get()),
        Sort::VarA | Sort::VarB => Err(ValueFault::NotAValue),
    }
}

fn unit(reader: &mut Reader<'_>) -> Result<Option<Value>, ValueFault>
    ensures { Gives (reads s_unit reader.old) result reader.new }
{
    reader.expect(b'(')?;
    reader.expect(b')')?;
    Ok(Some(Value::Unit))
}

fn is(word: &[u8], name: &[u8]) -> bool
    ensures { result ≡ pointwise ◌==◌ word.now name.now }
{
    word == name
}

fn truth(reader: &mut Reader<'_>) -> Result<Option<Value>, ValueFault>
    ensures { Gives (reads s_bool reader.old) result reader.new }
{
    let word = reader.word();
    if is(word, b"true") {
        return Ok(Some(Value::Bool(true)));
    }
    if is(word, b"false") {
        return Ok(Some(Value::Bool(false)));
    }
    Err(ValueFault::NotAValue)
}

fn integer(reader: &mut Reader<'_>) -> Result<Option<Value>, ValueFault>
    ensures { Gives (reads s_int reader.old) result reader.new }
{
    let is_negative = reader.take(b'-');
    let digits = reader.word();
    if !is_numeral(digits) {
        return Err(ValueFault::NotAValue);
    }
    match number(is_negative, digits) {
        Some(number) => Ok(Some(Value::Int(number))),
        None => Ok(None),
    }
}

#[cycle(value)]
fn pair(
    alloc: Global,
    reader: &mut Reader<'_>,
    first: &Sort,
    second: &Sort,
) -> Result<Option<Value>, ValueFault>
    ensures { Gives (reads (s_pair (plain_sort first.now) (plain_sort second.now)) reader.old) result reader.new }
{
    reader.expect(b'(')?;
    let first = value(alloc, reader, first)?;
    reader.expect(b',')?;
    let second = value(alloc, reader, second)?;
    reader.expect(b')')?;
    Ok(parts::pair(alloc, first, second)?)
}

#[cycle(value)]
fn option(alloc: Global, reader: &mut Reader<'_>, item: &Sort) -> Result<Option<Value>, ValueFault>
    ensures { Gives (reads (s_opt (plain_sort item.now)) reader.old) result reader.new }
{
    let word = reader.word();
    if is(word, b"none") {
        return Ok(Some(Value::Nothing));
    }
    if is(word, b"some") {
        let part = value(alloc, reader, item)?;
        return Ok(parts::just(alloc, part)?);
    }
    Err(ValueFault::NotAValue)
}

#[cycle(value)]
fn either(
    alloc: Global,
    reader: &mut Reader<'_>,
    left: &Sort,
    right: &Sort,
) -> Result<Option<Value>, ValueFault>
    ensures { Gives (reads (s_either (plain_sort left.now) (plain_sort right.now)) reader.old) result reader.new }
{
    let word = reader.word();
    if is(word, b"inl") {
        let part = value(alloc, reader, left)?;
        return Ok(parts::left(alloc, part)?);
    }
    if is(word, b"inr") {
        let part = value(alloc, reader, right)?;
        return Ok(parts::right(alloc, part)?);
    }
    Err(ValueFault::NotAValue)
}

#[cycle(value)]
fn list(alloc: Global, reader: &mut Reader<'_>, item: &Sort) -> Result<Option<Value>, ValueFault>
    ensures { Gives (reads (s_list (plain_sort item.now)) reader.old) result reader.new }
{
    reader.expect(b'[')?;
    if reader.take(b']') {
        return Ok(Some(Value::List(Seq::new(alloc))));
    }
    items(alloc, reader, item)
}

/// Reads the items of a list and its end.
#[cycle(value)]
fn items(alloc: Global, reader: &mut Reader<'_>, item: &Sort) -> Result<Option<Value>, ValueFault>
    ensures { Gives (items (reads (plain_sort item.now)) (suc (length reader.old)) reader.old) result reader.new }
{
    let mut items = Some(Seq::new(alloc));
    loop {
        let part = value(alloc, reader, item)?;
        items = parts::with_item(items, part)?;
        if reader.take(b']') {
            return Ok(parts::list(items));
        }
        reader.expect(b';')?;
    }
}
