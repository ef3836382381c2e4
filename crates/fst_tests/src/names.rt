use fst_base::{Fault, Rule};
use fst_names::check_program;
use fst_reader::read;
use std::alloc::{AllocError, Global};
use std::test::Fail;

/// A text in two parts, and the rule on names that it breaks where the second begins; without one it breaks none.
pub(crate) type Row = (&'static [u8], &'static [u8], Option<Rule>);

/// The rule that the program breaks with the place, or nothing. `NoMain` stands for want of memory, `Syntax` for a text that is no
/// program.
pub(crate) fn refusal(alloc: Global, text: &[u8]) -> Option<(Rule, usize)> {
    let Ok(program) = read(alloc, text) else {
        return Some((Rule::Syntax, 0));
    };
    match check_program(alloc, &program) {
        Ok(()) => None,
        Err(Fault::Refused(rule, at)) => Some((rule, at.at as usize)),
        Err(Fault::NoMemory) => Some((Rule::NoMain, 0)),
    }
}

/// The number of the first row whose refusal is another.
pub(crate) fn first_wrong(alloc: Global, rows: &[Row]) -> Result<Option<usize>, AllocError> {
    for index in 0..rows.len() {
        let (first, second, rule) = rows[index];
        let mut text = Vec::from_slice(alloc, first)?;
        text.extend_from_slice(second)?;
        let wanted = rule.map(|rule| (rule, first.len()));
        if refusal(alloc, text.as_slice()) != wanted {
            return Ok(Some(index));
        }
    }
    Ok(None)
}

static UNKNOWN: [Row; 38] = [
    // Variables.
    (b"fun main : PURE int { ", b"y }", Some(Rule::Unknown)),
    (
        b"fun f (x : int) : PURE int { let y = ",
        b"z in z }",
        Some(Rule::Unknown),
    ),
    (
        b"fun f (x : int) : PURE int { let y = ",
        b"y in y }",
        Some(Rule::Unknown),
    ),
    (
        b"fun f (x : int) : PURE int { let y = { let z = x in z } in ",
        b"z }",
        Some(Rule::Unknown),
    ),
    (b"fun f (x : int) : PURE int { let _ = x in x }", b"", None),
    (
        b"fun f (l : list int) : PURE int { match l with | h :: t -> h | [] -> ",
        b"h end }",
        Some(Rule::Unknown),
    ),
    (
        b"fun f (x : int) : PURE int requires x = ",
        b"y { x }",
        Some(Rule::Unknown),
    ),
    (
        b"fun f (x : int) : PURE int ensures (let y = x in y = x) && ",
        b"y = x { x }",
        Some(Rule::Unknown),
    ),
    (
        b"fun f (x : int) : PURE int { assert x = ",
        b"y; x }",
        Some(Rule::Unknown),
    ),
    (
        b"fun f (x : int) : PURE int decreases x, ",
        b"y { x }",
        Some(Rule::Unknown),
    ),
    (
        b"fun \xD0\xB6 (\xC3\xA9 : int) : PURE int { let e = \xC3\xA9 in ",
        b"\xD0\xB6 }",
        Some(Rule::Unknown),
    ),
    (
        b"fun f (\xC3\xA9 : int) : PURE int { ",
        b"e\xCC\x81 }",
        Some(Rule::Unknown),
    ),
    // A refinement sees the parameters up to its own.
    (
        b"fun f (x : int { x = ",
        b"y }) (y : int) : PURE int { x }",
        Some(Rule::Unknown),
    ),
    (
        b"fun f (x : int) (y : int { x = y }) : PURE int { x }",
        b"",
        None,
    ),
    // The words of clauses.
    (b"fun f : PURE int ensures result = 1 { 1 }", b"", None),
    (
        b"fun f : PURE int requires ",
        b"result = 1 { 1 }",
        Some(Rule::Unknown),
    ),
    (
        b"fun f : PURE int ensures ",
        b"input = 1 { 1 }",
        Some(Rule::Unknown),
    ),
    (
        b"fun f (x : int) : PURE int decreases ",
        b"result { 1 }",
        Some(Rule::Unknown),
    ),
    (
        b"fun f (x : int { ",
        b"result = x }) : PURE int { 1 }",
        Some(Rule::Unknown),
    ),
    (
        b"fun f : PURE int { assert ",
        b"result = 1; 1 }",
        Some(Rule::Unknown),
    ),
    // Functions.
    (b"fun f : PURE int { ", b"g() }", Some(Rule::Unknown)),
    (
        b"fun f (x : int) : PURE int { ",
        b"x() }",
        Some(Rule::Unknown),
    ),
    (
        b"fun f : PURE bool ensures ",
        b"g(1) { true }",
        Some(Rule::Unknown),
    ),
    (b"fun f : PURE int { ", b"f }", Some(Rule::Unknown)),
    // Effects.
    (b"fun f : ", b"E int { 1 }", Some(Rule::Unknown)),
    (
        b"fun E : PURE int { 1 } fun f : ",
        b"E int { 1 }",
        Some(Rule::Unknown),
    ),
    (
        b"fun f : PURE int { reify ",
        b"E int { 1 } (1) }",
        Some(Rule::Unknown),
    ),
    (
        b"fun f : PURE int { reflect ",
        b"E int (s) { 1 } }",
        Some(Rule::Unknown),
    ),
    (b"lift ", b"E to F by f s { f(s) }", Some(Rule::Unknown)),
    // Sorts.
    (b"fun f (x : ", b"a) : PURE int { 1 }", Some(Rule::Unknown)),
    (b"fun f : PURE list ", b"a { [] }", Some(Rule::Unknown)),
    (
        b"fun f : PURE int { let x : ",
        b"b = 1 in x }",
        Some(Rule::Unknown),
    ),
    (
        b"effect E : PURE input ",
        b"c result a return x s { x } bind f g s { f(s) }",
        Some(Rule::Unknown),
    ),
    // Headers.
    (
        b"effect E : PURE input int result a return x s { ",
        b"y } bind f g s { f(s) }",
        Some(Rule::Unknown),
    ),
    (
        b"effect E : PURE input int result a return x s { ",
        b"x(s) } bind f g s { f(s) }",
        Some(Rule::Unknown),
    ),
    (
        b"effect E : PURE input int result a return x s { x } bind f g s { ",
        b"f }",
        Some(Rule::Unknown),
    ),
    (
        b"effect E : PURE input int result a return x s { x } bind f g s { ",
        b"s(s) }",
        Some(Rule::Unknown),
    ),
    (
        b"fun h : PURE int { 1 } effect E : PURE input int result a return x s { x } bind f g s { ",
        b"h(s) }",
        Some(Rule::Unknown),
    ),
];

#[test]
fn names_that_are_unknown(rt: HostRuntime) -> Result<(), Fail> {
    assert_eq!(rt; first_wrong(rt.alloc(), &UNKNOWN)?, None);
    Ok(())
}

static TWICE: [Row; 21] = [
    (
        b"fun f : PURE unit { () } fun ",
        b"f : PURE unit { () }",
        Some(Rule::Twice),
    ),
    (
        b"fun f : PURE int { 1 } fun g : PURE int { 1 } fun ",
        b"f (x : int) : PURE int { g(1) }",
        Some(Rule::Twice),
    ),
    (
        b"fun E : PURE int { 1 } effect E : PURE input int result a return x s { x } bind f g s { f(s) }",
        b"",
        None,
    ),
    (
        b"effect E : PURE input int result a return x s { x } bind f g s { f(s) } effect ",
        b"E : PURE input int result a return x s { x } bind f g s { f(s) }",
        Some(Rule::Twice),
    ),
    // Parameters.
    (
        b"fun f (x : int) (",
        b"x : int) : PURE int { x }",
        Some(Rule::Twice),
    ),
    (
        b"fun f (x : int) (y : int) ghost (",
        b"x : bool) : PURE int { y }",
        Some(Rule::Twice),
    ),
    (b"fun f (_ : int) (_ : int) : PURE int { 1 }", b"", None),
    (b"fun f (f : int) : PURE int { f }", b"", None),
    (
        b"fun f (\xC3\xA9 : int) (e\xCC\x81 : int) (",
        b"\xC3\xA9 : int) : PURE int { 1 }",
        Some(Rule::Twice),
    ),
    (
        b"fun f (x : int) : PURE int { let x = x in let x = x in x }",
        b"",
        None,
    ),
    // Patterns.
    (
        b"fun f (l : list int) : PURE int { match l with | h :: ",
        b"h -> 1 end }",
        Some(Rule::Twice),
    ),
    (
        b"fun f (p : int * int) : PURE int { match p with | (x, ",
        b"x) -> x end }",
        Some(Rule::Twice),
    ),
    (
        b"fun f (l : list int) : PURE int { match l with | _ :: _ -> 1 end }",
        b"",
        None,
    ),
    // Arms.
    (
        b"fun f (l : list int) : PURE int { match l with | [] -> 1 | ",
        b"[] -> 2 end }",
        Some(Rule::Twice),
    ),
    (
        b"fun f (o : option int) : PURE int { match o with | some x -> 1 | none -> 0 | ",
        b"some y -> 2 end }",
        Some(Rule::Twice),
    ),
    (
        b"effect E : PURE input int result a return x s { match s with | true -> x | ",
        b"true -> x end } bind f g s { f(s) }",
        Some(Rule::Twice),
    ),
    // Headers.
    (
        b"effect E : PURE input int result a return x ",
        b"x { x } bind f g s { f(s) }",
        Some(Rule::Twice),
    ),
    (
        b"effect E : PURE input int result a return x s { x } bind f g ",
        b"f { 1 }",
        Some(Rule::Twice),
    ),
    (
        b"effect E : PURE input int result a return _ _ { 1 } bind _ _ _ { 1 }",
        b"",
        None,
    ),
    (
        b"effect E : PURE input int result a return x s { x } bind f g s { f(s) } lift E to E by f ",
        b"f { 1 }",
        Some(Rule::Twice),
    ),
    (
        b"effect E : PURE input int result a return x s { x } bind f g s { let f = f(s) in f }",
        b"",
        None,
    ),
];

#[test]
fn names_that_are_declared_twice(rt: HostRuntime) -> Result<(), Fail> {
    assert_eq!(rt; first_wrong(rt.alloc(), &TWICE)?, None);
    Ok(())
}
