use fst_base::{OutOfMemory, Seq, Sort, Value, boxed, boxes};
use fst_values::{ValueFault, print_value, read_value};
use std::alloc::Global;
use std::test::Fail;

#[derive(Clone, Copy)]
enum Shape {
    Unit,
    Bool,
    Int,
    /// The variable a.
    Any,
    /// Options of options of numbers.
    Options,
    /// () or a bool.
    Either,
    /// Lists of pairs of a number and a bool.
    Pairs,
    Ints,
}

#[derive(Clone, Copy)]
enum Wanted {
    /// A value that prints so.
    Prints(&'static str),
    NotAValue,
    TooWide,
}

const GREATEST: &str = "170141183460469231731687303715884105727";

const LEAST: &str = "-170141183460469231731687303715884105728";

// Texts with what is due for each of them at the sort; a printed text is among those that print so.
static ROWS: [(Shape, &'static [&'static str], Wanted); 26] = [
    (
        Shape::Unit,
        &["()", " ( ) ", "\t(\n)\r\n"],
        Wanted::Prints("()"),
    ),
    (Shape::Bool, &["true"], Wanted::Prints("true")),
    (
        Shape::Bool,
        &["false", "\n false\t"],
        Wanted::Prints("false"),
    ),
    (Shape::Int, &["0", "-0"], Wanted::Prints("0")),
    (Shape::Int, &["007", "7"], Wanted::Prints("7")),
    (Shape::Int, &["-3", " - \t3 "], Wanted::Prints("-3")),
    (Shape::Int, &[GREATEST], Wanted::Prints(GREATEST)),
    (Shape::Int, &[LEAST], Wanted::Prints(LEAST)),
    (Shape::Options, &["none"], Wanted::Prints("none")),
    (
        Shape::Options,
        &["some none", "some\nnone"],
        Wanted::Prints("some none"),
    ),
    (
        Shape::Options,
        &["some some 3"],
        Wanted::Prints("some some 3"),
    ),
    (
        Shape::Options,
        &["some some -4", "some some- 4"],
        Wanted::Prints("some some -4"),
    ),
    (
        Shape::Either,
        &["inl ()", "inl()"],
        Wanted::Prints("inl ()"),
    ),
    (
        Shape::Either,
        &["inr true", "inr  true"],
        Wanted::Prints("inr true"),
    ),
    (Shape::Pairs, &["[]", "[ ]"], Wanted::Prints("[]")),
    (
        Shape::Pairs,
        &["[(1, true)]", "[(1,true)]"],
        Wanted::Prints("[(1, true)]"),
    ),
    (
        Shape::Pairs,
        &["[(-1, false); (2, true)]", "[( -1 , false ) ;(02,true)]"],
        Wanted::Prints("[(-1, false); (2, true)]"),
    ),
    (
        Shape::Unit,
        &["", "(", ")", "() ()", "(())", "()x", "true"],
        Wanted::NotAValue,
    ),
    (Shape::Any, &["()"], Wanted::NotAValue),
    (
        Shape::Bool,
        &[
            "",
            "True",
            "truefalse",
            "true false",
            "(true)",
            "true,",
            "1",
            "tr ue",
        ],
        Wanted::NotAValue,
    ),
    (
        Shape::Int,
        &[
            "",
            "-",
            "--3",
            "+3",
            "3-",
            "1 2",
            "3x",
            "x3",
            "1_000",
            "(3)",
            "3 // three",
        ],
        Wanted::NotAValue,
    ),
    (
        Shape::Options,
        &[
            "some",
            "some 3",
            "some some3",
            "none 3",
            "somenone",
            "some some 3 4",
            "Some none",
        ],
        Wanted::NotAValue,
    ),
    (
        Shape::Either,
        &["inl true", "inr ()", "inrtrue", "inl", "true"],
        Wanted::NotAValue,
    ),
    (
        Shape::Pairs,
        &[
            "[",
            "[;]",
            "[(1, true);]",
            "[(1, true), (2, true)]",
            "[(1, true)] 2",
            "(1, true)",
            "[1, true]",
            "[(1 true)]",
            "[(1, true]",
            "[(1, true, true)]",
            "[(true, 1)]",
            "[(170141183460469231731687303715884105728, true); 2]",
        ],
        Wanted::NotAValue,
    ),
    (
        Shape::Int,
        &[
            "170141183460469231731687303715884105728",
            "-170141183460469231731687303715884105729",
            "1000000000000000000000000000000000000000000",
        ],
        Wanted::TooWide,
    ),
    (
        Shape::Pairs,
        &["[(1, true); (170141183460469231731687303715884105728, true)]"],
        Wanted::TooWide,
    ),
];

fn option_of(alloc: Global, item: Result<Sort, OutOfMemory>) -> Result<Sort, OutOfMemory> {
    Ok(Sort::Opt(boxed(alloc, item)?))
}

fn list_of(alloc: Global, item: Result<Sort, OutOfMemory>) -> Result<Sort, OutOfMemory> {
    Ok(Sort::List(boxed(alloc, item)?))
}

fn either_of(alloc: Global, left: Sort, right: Sort) -> Result<Sort, OutOfMemory> {
    let (left, right) = boxes(alloc, left, right)?;
    Ok(Sort::Either(left, right))
}

fn pair_of(alloc: Global, first: Sort, second: Sort) -> Result<Sort, OutOfMemory> {
    let (first, second) = boxes(alloc, first, second)?;
    Ok(Sort::Pair(first, second))
}

fn sort_of(alloc: Global, shape: Shape) -> Result<Sort, OutOfMemory> {
    match shape {
        Shape::Unit => Ok(Sort::Unit),
        Shape::Bool => Ok(Sort::Bool),
        Shape::Int => Ok(Sort::Int),
        Shape::Any => Ok(Sort::VarA),
        Shape::Options => option_of(alloc, option_of(alloc, Ok(Sort::Int))),
        Shape::Either => either_of(alloc, Sort::Unit, Sort::Bool),
        Shape::Pairs => list_of(alloc, pair_of(alloc, Sort::Int, Sort::Bool)),
        Shape::Ints => list_of(alloc, Ok(Sort::Int)),
    }
}

fn prints(alloc: Global, value: &Value, printed: &[u8]) -> Result<bool, OutOfMemory> {
    let mut out = Seq::new(alloc);
    print_value(value, &mut out)?;
    Ok(out.as_slice() == printed)
}

fn is_wanted(
    alloc: Global,
    answer: &Result<Value, ValueFault>,
    wanted: Wanted,
) -> Result<bool, OutOfMemory> {
    match (answer, wanted) {
        (Ok(value), Wanted::Prints(printed)) => prints(alloc, value, printed.as_bytes()),
        (Err(ValueFault::NotAValue), Wanted::NotAValue) => Ok(true),
        (Err(ValueFault::NumberTooWide), Wanted::TooWide) => Ok(true),
        _ => Ok(false),
    }
}

fn read_at(alloc: Global, text: &[u8], sort: &Sort, wanted: Wanted) -> Result<bool, OutOfMemory> {
    is_wanted(alloc, &read_value(alloc, text, sort), wanted)
}

fn answers(alloc: Global, shape: Shape, text: &str, wanted: Wanted) -> Result<bool, OutOfMemory> {
    read_at(alloc, text.as_bytes(), &sort_of(alloc, shape)?, wanted)
}

#[test]
fn texts(rt: HostRuntime) -> Result<(), Fail> {
    for (shape, texts, wanted) in &ROWS {
        for text in *texts {
            assert!(rt; answers(rt.alloc(), *shape, text, *wanted)?, "{text}");
        }
    }
    Ok(())
}

fn long_list(alloc: Global) -> Result<Seq<u8>, OutOfMemory> {
    let mut text = Seq::new(alloc);
    text.extend_from_slice(b"[0")?;
    for _ in 0..100000 {
        text.extend_from_slice(b"; 0")?;
    }
    text.extend_from_slice(b"]")?;
    Ok(text)
}

fn is_printed_as_read(alloc: Global, text: &[u8]) -> Result<bool, ValueFault> {
    let value = read_value(alloc, text, &sort_of(alloc, Shape::Ints)?)?;
    Ok(prints(alloc, &value, text)?)
}

#[test]
fn long_lists(rt: HostRuntime) -> Result<(), Fail> {
    let text = long_list(rt.alloc())?;
    assert!(rt; is_printed_as_read(rt.alloc(), text.as_slice())?);
    Ok(())
}
