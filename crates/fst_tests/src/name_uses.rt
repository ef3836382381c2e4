use crate::names::{Row, first_wrong, refusal};
use fst_base::Rule;
use std::alloc::{AllocError, Global};
use std::test::Fail;

static TOO_EARLY: [Row; 13] = [
    (
        b"fun f : PURE int { ",
        b"g() } fun g : PURE int { 1 }",
        Some(Rule::TooEarly),
    ),
    (
        b"fun f : PURE int { let x = { ",
        b"g() } in x } fun g : PURE int { 1 }",
        Some(Rule::TooEarly),
    ),
    (b"fun f : DIV int { f() }", b"", None),
    (
        b"fun g : PURE int { 1 } fun f : PURE int ensures result = g() { g() }",
        b"",
        None,
    ),
    // Formulas of the function's own declaration and body.
    (
        b"fun f (x : int) : PURE int ensures result = ",
        b"f(x) { x }",
        Some(Rule::TooEarly),
    ),
    (
        b"fun f (x : int) : PURE int decreases ",
        b"f(x) { x }",
        Some(Rule::TooEarly),
    ),
    (
        b"fun f (x : int { x = ",
        b"f(x) }) : PURE int { x }",
        Some(Rule::TooEarly),
    ),
    (
        b"fun f (x : int) : PURE int { assert x = ",
        b"f(x); x }",
        Some(Rule::TooEarly),
    ),
    (
        b"fun f (x : int) : PURE int requires x = ",
        b"g(x) { x } fun g (x : int) : PURE int { x }",
        Some(Rule::TooEarly),
    ),
    // Effects.
    (
        b"fun f : ",
        b"E int { 1 } effect E : PURE input int result a return x s { x } bind f g s { f(s) }",
        Some(Rule::TooEarly),
    ),
    (
        b"fun f : PURE int { reify ",
        b"E int { 1 } (1) } effect E : PURE input int result a return x s { x } bind f g s { f(s) }",
        Some(Rule::TooEarly),
    ),
    (
        b"effect E : PURE input int result a return x s { x } bind f g s { f(s) } lift E to ",
        b"F by f s { f(s) } effect F : PURE input int result a return x s { x } bind f g s { f(s) }",
        Some(Rule::TooEarly),
    ),
    (
        b"effect E : PURE input int result a return x s { x } bind f g s { f(s) } fun f : E int requires input = 1 ensures result = input { 1 }",
        b"",
        None,
    ),
];

#[test]
fn names_that_are_used_too_early(rt: HostRuntime) -> Result<(), Fail> {
    assert_eq!(rt; first_wrong(rt.alloc(), &TOO_EARLY)?, None);
    Ok(())
}

static ARITY: [Row; 10] = [
    (
        b"fun f (x : int) : PURE int { x } fun main : PURE int { ",
        b"f() }",
        Some(Rule::Arity),
    ),
    (
        b"fun f (x : int) : PURE int { x } fun main : PURE int { ",
        b"f(1, 2) }",
        Some(Rule::Arity),
    ),
    (
        b"fun f : PURE int { 1 } fun main : PURE int ensures ",
        b"f(1) = 1 { f() }",
        Some(Rule::Arity),
    ),
    (
        b"fun f (x : int) ghost (y : int) : PURE int { x } fun main : PURE int { f(1, 2) }",
        b"",
        None,
    ),
    // The arguments first.
    (
        b"fun f (x : int) : PURE int { x } fun main : PURE int { f(1, ",
        b"y) }",
        Some(Rule::Unknown),
    ),
    // The computations of a header.
    (
        b"effect E : PURE input int result a return x s { x } bind f g s { f(s) } fun h : PURE int { 1 }",
        b"",
        None,
    ),
    (
        b"effect E : PURE input int result a return x s { x } bind f g s { ",
        b"f(s, s) }",
        Some(Rule::Arity),
    ),
    (
        b"effect E : PURE input int result a return x s { x } bind f g s { let r = f(s) in ",
        b"g(r) }",
        Some(Rule::Arity),
    ),
    (
        b"effect E : PURE input int result a return x s { x } bind f g s { f(s) } lift E to E by f s { ",
        b"f(s, s) }",
        Some(Rule::Arity),
    ),
    (
        b"effect E : PURE input int result a return x s { x } bind f g s { let r = f(s) in g(r, s) }",
        b"",
        None,
    ),
];

#[test]
fn calls_with_a_wrong_number_of_arguments(rt: HostRuntime) -> Result<(), Fail> {
    assert_eq!(rt; first_wrong(rt.alloc(), &ARITY)?, None);
    Ok(())
}

static SEVERAL: [Row; 6] = [
    // The smallest place.
    (
        b"fun f : PURE int { ",
        b"x } fun f : PURE int { y }",
        Some(Rule::Unknown),
    ),
    (
        b"fun f (x : int) (",
        b"x : int) : PURE int { y }",
        Some(Rule::Twice),
    ),
    (
        b"fun f (x : int { ",
        b"z = 1 }) (x : int) : PURE int { y }",
        Some(Rule::Unknown),
    ),
    (
        b"fun f : PURE int { ",
        b"g() } fun g : PURE int { 1 } fun g : PURE int { y }",
        Some(Rule::TooEarly),
    ),
    // Two rules at one place.
    (
        b"fun f (x : int) : PURE int ensures result = ",
        b"f() { x }",
        Some(Rule::TooEarly),
    ),
    (
        b"fun f : PURE int { ",
        b"g(1) } fun g : PURE int { 1 }",
        Some(Rule::TooEarly),
    ),
];

#[test]
fn the_first_of_several(rt: HostRuntime) -> Result<(), Fail> {
    assert_eq!(rt; first_wrong(rt.alloc(), &SEVERAL)?, None);
    Ok(())
}

/// The last four digits of the number.
fn digits(number: usize) -> [u8; 4] {
    [
        b'0' + (number / 1000 % 10) as u8,
        b'0' + (number / 100 % 10) as u8,
        b'0' + (number / 10 % 10) as u8,
        b'0' + (number % 10) as u8,
    ]
}

/// So many declarations, each with these texts before and behind its name.
fn declarations(
    alloc: Global,
    count: usize,
    before: &[u8],
    behind: &[u8],
) -> Result<Vec<u8>, AllocError> {
    let mut text = Vec::new(alloc);
    for number in 0..count {
        text.extend_from_slice(before)?;
        text.extend_from_slice(&digits(number))?;
        text.extend_from_slice(behind)?;
    }
    Ok(text)
}

const FUN: &[u8] = b"fun f";

const BODY: &[u8] = b" : PURE unit { () } ";

const EFFECT: &[u8] = b"effect E";

const TEXTS: &[u8] = b" : PURE input int result a return x s { x } bind f g s { f(s) } ";

#[test]
fn at_most_a_thousand_functions(rt: HostRuntime) -> Result<(), Fail> {
    let mut text = declarations(rt.alloc(), 1000, FUN, BODY)?;
    assert_eq!(rt; refusal(rt.alloc(), text.as_slice()), None);
    let place = text.len() + 4;
    text.extend_from_slice(b"fun g : PURE unit { () } fun h : PURE unit { y }")?;
    assert_eq!(rt;
        refusal(rt.alloc(), text.as_slice()),
        Some((Rule::TooMany, place))
    );
    Ok(())
}

#[test]
fn at_most_32_effects(rt: HostRuntime) -> Result<(), Fail> {
    let mut text = declarations(rt.alloc(), 32, EFFECT, TEXTS)?;
    assert_eq!(rt; refusal(rt.alloc(), text.as_slice()), None);
    let place = text.len() + 7;
    text.extend_from_slice(b"effect E0007")?;
    text.extend_from_slice(TEXTS)?;
    // Declared before, and one too many: the smaller number answers.
    assert_eq!(rt;
        refusal(rt.alloc(), text.as_slice()),
        Some((Rule::Twice, place))
    );
    let text = declarations(rt.alloc(), 33, EFFECT, TEXTS)?;
    let wanted = 32 * (EFFECT.len() + 4 + TEXTS.len()) + 7;
    assert_eq!(rt;
        refusal(rt.alloc(), text.as_slice()),
        Some((Rule::TooMany, wanted))
    );
    Ok(())
}
