ghost use Rattle.std.specs.Prelude.{◌≡◌, map, IfOk};
ghost use Rattle.fst_base.specs.Sorts.{plain_sort};
ghost use Rattle.fst_base.specs.Values.{plain_value};
ghost use Rattle.fst_base.specs.declared.sort.Sort.TheVariants as any;
ghost use Rattle.fst_prims.specs.Arguments.{AreArguments};

use fst_base::{Box, Op, OutOfMemory, Seq, Sort, Value, pair};
use fst_cells::{Cell, Store};
use fst_prims::{PrimFault, table_of_prims};
use std::alloc::Global;

#[derive(Clone, Copy)]
enum Wanted {
    Number(i128),
    Truth(bool),
    PastRange,
    ZeroDivisor,
}

fn is_wanted(answer: &Result<Value, PrimFault>, wanted: Wanted) -> bool {
    match (answer, wanted) {
        (Ok(Value::Int(a)), Wanted::Number(b)) => *a == b,
        (Ok(Value::Bool(a)), Wanted::Truth(b)) => *a == b,
        (Err(PrimFault::PastRange), Wanted::PastRange) => true,
        (Err(PrimFault::ZeroDivisor), Wanted::ZeroDivisor) => true,
        _ => false,
    }
}

const LEAST: i128 = -170141183460469231731687303715884105728;

const GREATEST: i128 = 170141183460469231731687303715884105727;

/// What a row answers on values, where it makes the same of cells with these values; else want of memory.
fn both_ways(alloc: Global, op: Op, args: &[Value], sort: &Sort) -> Result<Value, PrimFault>
    requires { AreArguments op (map plain_value args.now) (plain_sort sort.now) }
{
    let applied = table_of_prims().apply(alloc, op, args, sort);
    if is_made(alloc, op, args, sort, &applied) {
        applied
    } else {
        Err(PrimFault::NoMemory)
    }
}

/// Whether the row makes this of cells with these values.
fn is_made(
    alloc: Global,
    op: Op,
    args: &[Value],
    sort: &Sort,
    applied: &Result<Value, PrimFault>,
) -> bool {
    let mut store = Store::new(alloc);
    let Ok(cells) = put_all(alloc, &mut store, args) else {
        return false;
    };
    let made = store.make(op, cells.as_slice(), sort);
    are_alike(alloc, &store, &made, applied).unwrap_or(false)
}

fn put_all(alloc: Global, store: &mut Store, values: &[Value]) -> Result<Seq<Cell>, OutOfMemory> {
    let mut cells = Seq::new(alloc);
    for value in values {
        cells.push(store.put(value)?)?;
    }
    Ok(cells)
}

/// Whether the answer on cells and the one on values are the same value or the same fault.
fn are_alike(
    alloc: Global,
    store: &Store,
    made: &Result<Cell, PrimFault>,
    applied: &Result<Value, PrimFault>,
) -> Result<bool, OutOfMemory> {
    match (made, applied) {
        (Ok(cell), Ok(value)) => is_value(alloc, store, *cell, value),
        (Err(PrimFault::PastRange), Err(PrimFault::PastRange)) => Ok(true),
        (Err(PrimFault::ZeroDivisor), Err(PrimFault::ZeroDivisor)) => Ok(true),
        _ => Ok(false),
    }
}

fn is_value(alloc: Global, store: &Store, cell: Cell, value: &Value) -> Result<bool, OutOfMemory> {
    let told = store.value(alloc, cell)?;
    Ok(told.same(value))
}

/// What a row with two numbers answers; none where the row is another one.
fn on_numbers(alloc: Global, op: Op, a: i128, b: i128) -> Option<Result<Value, PrimFault>> {
    let args = [Value::Int(a), Value::Int(b)];
    match op {
        Op::Add | Op::Sub | Op::Mul | Op::Div | Op::Rem => {
            Some(both_ways(alloc, op, &args, &Sort::Int))
        }
        Op::Le | Op::Lt => Some(both_ways(alloc, op, &args, &Sort::Bool)),
        _ => None,
    }
}

// Rows of two numbers.
static NUMBERS: [(Op, i128, i128, Wanted); 17] = [
    (Op::Add, 2, -5, Wanted::Number(-3)),
    (Op::Add, GREATEST, 1, Wanted::PastRange),
    (Op::Sub, 2, -5, Wanted::Number(7)),
    (Op::Sub, LEAST, 1, Wanted::PastRange),
    (Op::Mul, -3, 7, Wanted::Number(-21)),
    (Op::Mul, LEAST, -1, Wanted::PastRange),
    (Op::Div, -7, 2, Wanted::Number(-4)),
    (Op::Div, -7, -2, Wanted::Number(4)),
    (Op::Div, 7, -2, Wanted::Number(-3)),
    (Op::Div, LEAST, -1, Wanted::PastRange),
    (Op::Div, 1, 0, Wanted::ZeroDivisor),
    (Op::Rem, -7, 2, Wanted::Number(1)),
    (Op::Rem, LEAST, -1, Wanted::Number(0)),
    (Op::Rem, 1, 0, Wanted::ZeroDivisor),
    (Op::Le, LEAST, GREATEST, Wanted::Truth(true)),
    (Op::Le, 3, 3, Wanted::Truth(true)),
    (Op::Lt, 3, 3, Wanted::Truth(false)),
];

/// Whether the row answers so; false where it is no row of two numbers.
fn is_answered(alloc: Global, op: Op, a: i128, b: i128, wanted: Wanted) -> bool {
    match on_numbers(alloc, op, a, b) {
        Some(answer) => is_wanted(&answer, wanted),
        None => false,
    }
}

/// The numbers from 1 as a list.
fn count_to(alloc: Global, last: i128) -> Result<Seq<Value>, OutOfMemory> {
    let mut items = Seq::new(alloc);
    for number in 0..last {
        items.push(Value::Int(number + 1))?;
    }
    Ok(items)
}

fn some_numbers(alloc: Global, last: i128) -> Result<Value, OutOfMemory> {
    let items = Value::List(count_to(alloc, last)?);
    Ok(Value::Just(Box::new(alloc, items)?))
}

/// Some [1; 2; 3] against the option of the numbers up to the last.
fn equal(alloc: Global, last: i128) -> Result<Value, PrimFault> {
    let (a, b) = pair(some_numbers(alloc, 3), some_numbers(alloc, last))?;
    both_ways(alloc, Op::Eq, &[a, b], &Sort::Bool)
}

/// The length of [1; 2; ..; last].
fn length(alloc: Global, last: i128) -> Result<Value, PrimFault> {
    let args = [Value::List(count_to(alloc, last)?)];
    both_ways(alloc, Op::Len, &args, &Sort::Int)
}

/// 9 :: [1; 2].
fn cons(alloc: Global) -> Result<Value, PrimFault> {
    let sort = Sort::List(Box::new(alloc, Sort::VarA)?);
    let args = [Value::Int(9), Value::List(count_to(alloc, 2)?)];
    both_ways(alloc, Op::Cons, &args, &sort)
}

fn is_number(value: &Value, wanted: i128) -> bool {
    match value {
        Value::Int(number) => *number == wanted,
        _ => false,
    }
}

fn are_numbers(answer: &Result<Value, PrimFault>, wanted: &[i128]) -> bool {
    match answer {
        Ok(Value::List(items)) => items.len() == wanted.len()
            && items
                .as_slice()
                .iter()
                .zip(wanted.iter())
                .all(|(item, number)| is_number(item, *number)),
        _ => false,
    }
}

/// -x
fn negated(alloc: Global, x: i128) -> Result<Value, PrimFault> {
    both_ways(alloc, Op::Neg, &[Value::Int(x)], &Sort::Int)
}

/// The number in none.
fn the_default(alloc: Global) -> Result<Value, PrimFault> {
    both_ways(alloc, Op::The, &[Value::Nothing], &Sort::Int)
}

/// An application of another row.
#[derive(Clone, Copy, Debug)]
enum Case {
    Negated(i128),
    TheDefault,
    Equal(i128),
    Length(i128),
}

fn answer_of(alloc: Global, case: Case) -> Result<Value, PrimFault> {
    match case {
        Case::Negated(x) => negated(alloc, x),
        Case::TheDefault => the_default(alloc),
        Case::Equal(last) => equal(alloc, last),
        Case::Length(last) => length(alloc, last),
    }
}

static CASES: [(Case, Wanted); 6] = [
    (Case::Negated(7), Wanted::Number(-7)),
    (Case::Negated(LEAST), Wanted::PastRange),
    (Case::TheDefault, Wanted::Number(0)),
    (Case::Equal(3), Wanted::Truth(true)),
    (Case::Equal(2), Wanted::Truth(false)),
    (Case::Length(1000), Wanted::Number(1000)),
];

fn is_case(alloc: Global, case: Case, wanted: Wanted) -> bool {
    is_wanted(&answer_of(alloc, case), wanted)
}

fn is_cons(alloc: Global) -> bool {
    are_numbers(&cons(alloc), &[9, 1, 2])
}

fn boxed_number(alloc: Global, x: i128) -> Result<Box<Value>, OutOfMemory> {
    Box::new(alloc, Value::Int(x))
}

fn sort_of_any(alloc: Global) -> Result<Box<Sort>, OutOfMemory>
    ensures { IfOk result (λ sort. sort ≡ any.VarA) }
{
    Box::new(alloc, Sort::VarA)
}

/// The first part of (1, 2).
fn first_part(alloc: Global) -> Result<Value, PrimFault> {
    let (a, b) = pair(boxed_number(alloc, 1), boxed_number(alloc, 2))?;
    both_ways(alloc, Op::Fst, &[Value::Pair(a, b)], &Sort::VarA)
}

/// The second part of (1, 2).
fn second_part(alloc: Global) -> Result<Value, PrimFault> {
    let (a, b) = pair(boxed_number(alloc, 1), boxed_number(alloc, 2))?;
    both_ways(alloc, Op::Snd, &[Value::Pair(a, b)], &Sort::VarA)
}

/// The value in inl 3.
fn left(alloc: Global) -> Result<Value, PrimFault> {
    let part = boxed_number(alloc, 3)?;
    both_ways(alloc, Op::Outl, &[Value::Left(part)], &Sort::VarA)
}

/// The default value for the one in inr of inl 3.
fn right(alloc: Global) -> Result<Value, PrimFault> {
    let part = boxed_number(alloc, 3)?;
    both_ways(alloc, Op::Outr, &[Value::Left(part)], &Sort::VarA)
}

/// The first item of [1; ..; last].
fn head(alloc: Global, last: i128) -> Result<Value, PrimFault> {
    let items = count_to(alloc, last)?;
    both_ways(alloc, Op::Hd, &[Value::List(items)], &Sort::VarA)
}

/// The rest of [1; ..; last].
fn tail(alloc: Global, last: i128) -> Result<Value, PrimFault> {
    let (part, items) = pair(sort_of_any(alloc), count_to(alloc, last))?;
    both_ways(alloc, Op::Tl, &[Value::List(items)], &Sort::List(part))
}

/// (1, 2)
fn tuple(alloc: Global) -> Result<Value, PrimFault> {
    let (a, b) = pair(sort_of_any(alloc), sort_of_any(alloc))?;
    let args = [Value::Int(1), Value::Int(2)];
    both_ways(alloc, Op::Pair, &args, &Sort::Pair(a, b))
}

fn none(alloc: Global) -> Result<Value, PrimFault> {
    let part = sort_of_any(alloc)?;
    both_ways(alloc, Op::Nothing, &[], &Sort::Opt(part))
}

/// some 4
fn some(alloc: Global) -> Result<Value, PrimFault> {
    let part = sort_of_any(alloc)?;
    both_ways(alloc, Op::Just, &[Value::Int(4)], &Sort::Opt(part))
}

fn nil(alloc: Global) -> Result<Value, PrimFault> {
    let part = sort_of_any(alloc)?;
    both_ways(alloc, Op::Nil, &[], &Sort::List(part))
}

/// inl 4
fn inl(alloc: Global) -> Result<Value, PrimFault> {
    let (a, b) = pair(sort_of_any(alloc), sort_of_any(alloc))?;
    both_ways(alloc, Op::Inl, &[Value::Int(4)], &Sort::Either(a, b))
}

/// inr 4
fn inr(alloc: Global) -> Result<Value, PrimFault> {
    let (a, b) = pair(sort_of_any(alloc), sort_of_any(alloc))?;
    both_ways(alloc, Op::Inr, &[Value::Int(4)], &Sort::Either(a, b))
}

fn is_told(answer: &Result<Value, PrimFault>) -> bool {
    match answer {
        Ok(_) => true,
        Err(_) => false,
    }
}

/// Whether the rows of data give the same on values and on cells.
fn data_alike(alloc: Global) -> bool {
    is_told(&first_part(alloc))
        && is_told(&second_part(alloc))
        && is_told(&left(alloc))
        && is_told(&right(alloc))
        && is_told(&head(alloc, 3))
        && is_told(&head(alloc, 0))
        && is_told(&tail(alloc, 3))
        && is_told(&tuple(alloc))
        && is_told(&none(alloc))
        && is_told(&some(alloc))
        && is_told(&nil(alloc))
        && is_told(&inl(alloc))
        && is_told(&inr(alloc))
}

#[test]
fn rows(rt: HostRuntime) {
    let alloc = rt.alloc();
    assert_eq!(rt; table_of_prims().row(Op::Div).name, "div");
    for (op, a, b, wanted) in &NUMBERS {
        assert!(rt; is_answered(alloc, *op, *a, *b, *wanted), "{a} {b}");
    }
    for (case, wanted) in &CASES {
        assert!(rt; is_case(alloc, *case, *wanted), "{case:?}");
    }
    assert!(rt; is_cons(alloc));
    assert!(rt; data_alike(alloc));
}
