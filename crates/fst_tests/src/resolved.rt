use crate::uses::{Uses, uses_of};
use fst_base::Seq;
use fst_reader::{Decl, RawProgram, read};
use std::alloc::{AllocError, Global};
use std::test::Fail;

/// A text, and what its names stand for.
type Row = (&'static [u8], &'static [u8]);

/// What the names of the text stand for.
fn uses_in(alloc: Global, text: &[u8]) -> Result<Uses, AllocError> {
    match read(alloc, text) {
        Ok(program) => uses_of(alloc, &program),
        Err(_) => Vec::from_slice(alloc, b"unread"),
    }
}

static VARIABLES: [Row; 17] = [
    // Variables are counted from the last one.
    (b"fun f (x : int) (y : int) : PURE int { x + y }", b"L1L0"),
    (b"fun f (x : int) (_ : int) : PURE int { x }", b"L1"),
    // Lets, in bodies and in formulas.
    (b"fun f (x : int) : PURE int { let x = x in x }", b"L0L0"),
    (
        b"fun f (x : int) : PURE int { let y = x in let x = y in x + y }",
        b"L0L0L0L1",
    ),
    (
        b"fun f (x : int) : PURE int { let y = { let x = 1 in x } in x }",
        b"L0L1",
    ),
    (
        b"fun f (x : int) : PURE int { ghost let x = x in if x = 1 then x else 2 }",
        b"L0L0L0",
    ),
    (
        b"fun f (x : int) : PURE int ensures (let x = x in x = 1) && x = result { x }",
        b"L1L0L1L0L0",
    ),
    // Patterns.
    (
        b"fun f (x : int) (l : list int) : PURE int { match l with | x :: l -> len l + x | [] -> x end }",
        b"L0L0L1L1",
    ),
    (
        b"fun f (p : int * int) : PURE int { match p with | (p, q) -> p + q end }",
        b"L0L1L0",
    ),
    (
        b"fun f (o : option int) : PURE int { match o with | none -> 0 | some o -> o end }",
        b"L0L0",
    ),
    // Parameters: a refinement sees them up to its own.
    (
        b"fun f (x : int { x = 1 }) (y : int { x = y }) : PURE int { y }",
        b"L0L1L0L0",
    ),
    (
        b"fun f (x : int) : PURE int requires x = 1 ensures x = result decreases x, 1 { x }",
        b"L0L1L0L0L0",
    ),
    (
        b"fun f (x : int) : PURE int { assert (if x = 1 then true else x = 2); (if x = 1 then x else 2) }",
        b"L0L0L0L0",
    ),
    // Functions apart from variables.
    (b"fun f (f : int) : DIV int { f(f) }", b"F0L0"),
    (
        b"fun g : PURE int { 1 } fun f (x : int) : PURE int { let g = g() in f(g + x) }",
        b"F0F1L0L1",
    ),
    (
        b"fun g (x : int) : PURE int { x } fun f (y : int) : PURE int ensures result = g(y) { assert g(y) = y; g(y) }",
        b"L0L0F0L1F0L0L0F0L0",
    ),
    (b"fun f : PURE int { y }", b"refused"),
];

const E: &[u8] =
    b"effect E : PURE input int result a * int return x s { (x, s) } bind f g s { f(s) } ";

// The names of that effect.
const IN_E: &[u8] = b"A0L1L0f0L0";

static EFFECTS: [Row; 11] = [
    // Of a user effect: input stands behind the parameters, result behind input.
    (
        b"fun f (x : int) : E int requires input = x ensures result = input { x }",
        b"E0L0L1L0L1L0",
    ),
    (
        b"fun f (x : int) : E int ensures (let y = result in y = input) { x }",
        b"E0L0L0L2L0",
    ),
    (b"fun E : PURE int { 1 } fun f : E int { E() }", b"E0F0"),
    (
        b"fun f (x : int) : PURE int { reify E int { x } (x) }",
        b"E0L0L0",
    ),
    (
        b"fun f (s : int) (x : int) : E int { reflect E int (s) { s + x } }",
        b"E0E0L0L1",
    ),
    // Texts of definitions.
    (
        b"effect F : DIV input list b result option a return s x { let x : b = x in x } bind f g s { let r = f(s) in g(r, s) }",
        b"B0A0B0L0L0f0L0g0L0L1",
    ),
    (
        b"effect F : PURE input either a b result a return x s { s } bind f g s { let s = f(s) in let f = { s } in g(f, s) }",
        b"A0B0A0L0f0L0L0g0L0L1",
    ),
    (
        b"effect F : PURE input int result a return x s { match s with | (x, s) -> x end } bind f g s { if s then f(s) else g(1, s) }",
        b"A0L0L1L0f0L0g0L0",
    ),
    (
        b"effect F : PURE input int result a return x s { x } bind g f s { let r = g(s) in f(r, s) }",
        b"A0L1f0L0g0L0L1",
    ),
    // Lifts.
    (b"lift E to E by f s { let f = f(s) in f }", b"E0E0f0L0L0"),
    (
        b"effect F : PURE input int result a return x s { x } bind f g s { f(s) } lift F to E by s f { s(f) }",
        b"A0L1f0L0E1E0f0L0",
    ),
];

// A second function that belongs to the group of the first: a text calls both, a formula applies neither.
static GROUPS: [Row; 3] = [
    (
        b"fun f (x : int) : DIV int { g(x) } fun g (y : int) : DIV int { let z = f(y) in g(z) }",
        b"F1L0F0L0F1L0",
    ),
    (
        b"fun f (x : int) : DIV int { g(x) } fun g (y : int) : DIV int ensures result = f(y) { f(y) }",
        b"refused",
    ),
    (
        b"fun f (x : int) : DIV int { h(x) } fun g (y : int) : DIV int { y } fun h (y : int) : DIV int { y }",
        b"refused",
    ),
];

/// The number of the first row whose names stand for something else.
fn first_other(
    alloc: Global,
    before: &[u8],
    uses_before: &[u8],
    rows: &[Row],
) -> Result<Option<usize>, AllocError> {
    for index in 0..rows.len() {
        let (own, own_uses) = rows[index];
        let mut text = Vec::from_slice(alloc, before)?;
        text.extend_from_slice(own)?;
        let mut wanted = Vec::from_slice(alloc, uses_before)?;
        wanted.extend_from_slice(own_uses)?;
        if uses_in(alloc, text.as_slice())?.as_slice() != wanted.as_slice() {
            return Ok(Some(index));
        }
    }
    Ok(None)
}

#[test]
fn variables_are_counted_from_the_last(rt: HostRuntime) -> Result<(), Fail> {
    assert_eq!(rt; first_other(rt.alloc(), b"", b"", &VARIABLES)?, None);
    Ok(())
}

#[test]
fn effects_and_their_texts(rt: HostRuntime) -> Result<(), Fail> {
    assert_eq!(rt; first_other(rt.alloc(), E, IN_E, &EFFECTS)?, None);
    Ok(())
}

/// Joins the second function to the group of the first.
fn join_second(program: RawProgram) -> RawProgram {
    let mut decls = program.decls.into_vec();
    if let Some(Decl::Fun(fun)) = decls.get_mut(1) {
        fun.joined = true;
    }
    RawProgram {
        decls: Seq::from_vec(decls),
    }
}

/// What the names of the text stand for, whose second function belongs to the group of the first.
fn uses_in_group(alloc: Global, text: &[u8]) -> Result<Uses, AllocError> {
    match read(alloc, text) {
        Ok(program) => uses_of(alloc, &join_second(program)),
        Err(_) => Vec::from_slice(alloc, b"unread"),
    }
}

#[test]
fn functions_of_a_group(rt: HostRuntime) -> Result<(), Fail> {
    for (text, uses) in &GROUPS {
        assert_eq!(rt;
            uses_in_group(rt.alloc(), text)?.as_slice(),
            *uses,
            "in {text:?}"
        );
    }
    Ok(())
}
