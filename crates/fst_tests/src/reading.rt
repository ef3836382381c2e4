use fst_base::{Fault, Rule};
use fst_reader::read;
use std::alloc::{AllocError, Global};
use std::test::Fail;

/// The rule that the text breaks with the place, or nothing where it is a program. `NoMain` stands for want of memory.
fn refusal(alloc: Global, text: &[u8]) -> Option<(Rule, usize)> {
    match read(alloc, text) {
        Ok(_) => None,
        Err(Fault::Refused(rule, at)) => Some((rule, at.at as usize)),
        Err(Fault::NoMemory) => Some((Rule::NoMain, 0)),
    }
}

type Row = (&'static [u8], Option<(Rule, usize)>);

static ROWS: [Row; 61] = [
    (b"", None),
    (b"// nothing", None),
    (b"// a // b\nfun f : PURE int { 1 } // c // d", None),
    (
        b"fun flip (b : bool) : PURE bool ensures result = b { not b }",
        None,
    ),
    (b"fu", Some((Rule::Syntax, 0))),
    (b"fun flip", Some((Rule::Syntax, 8))),
    (b"fun main : PURE int { 1 + }", Some((Rule::Syntax, 26))),
    (b"fun main : PURE int { 1 ", Some((Rule::Syntax, 24))),
    (b"fun main : PURE int { 1 } x", Some((Rule::Syntax, 26))),
    (b"fun forall : PURE int { 1 }", Some((Rule::Syntax, 4))),
    // Names.
    (
        b"fun gr\xC3\xB6\xC3\x9Fe (\xD0\xB6 : int) : PURE int { \xD0\xB6 }",
        None,
    ),
    (
        b"fun main : PURE int { \xE2\x82\xAC }",
        Some((Rule::Syntax, 22)),
    ),
    (b"fun f (_ : int) : PURE int { let _ = 1 in 2 }", None),
    (b"fun f : PURE int { match l with | _ :: _ -> 1 end }", None),
    (b"fun f : PURE int { reflect E int (_) { 1 } }", None),
    (b"fun f : PURE int ensures (let _ = 1 in true) { 1 }", None),
    (b"lift A to B by _ _ { 1 }", None),
    (b"fun _ : PURE int { 1 }", Some((Rule::Syntax, 4))),
    (b"fun f : PURE int { _ }", Some((Rule::Syntax, 19))),
    (b"fun f : _ int { 1 }", Some((Rule::Syntax, 8))),
    (b"fun main : PURE int { result }", Some((Rule::Syntax, 22))),
    (b"fun f : PURE int requires input = 1 { 1 }", None),
    // Bytes that begin no token, comments.
    (b"fun main : PURE int { \xFF }", Some((Rule::Syntax, 22))),
    (b"fun main : PURE int { x // \xFF", Some((Rule::Syntax, 27))),
    (b"// \xC0\xAF", Some((Rule::Syntax, 3))),
    (
        b"fun main : PURE int { 1 + // } \xE2\x82",
        Some((Rule::Syntax, 31)),
    ),
    // Terms.
    (b"fun main : PURE int { fst - x }", Some((Rule::Syntax, 28))),
    (b"fun main : PURE int { fst - 1 }", None),
    (b"fun main : PURE int { - fst - 1 }", None),
    (
        b"fun main : PURE int { a = b = c }",
        Some((Rule::Syntax, 28)),
    ),
    (b"fun main : PURE int { not a = b }", None),
    (
        b"fun main : PURE int { 1 + f(x) }",
        Some((Rule::Syntax, 27)),
    ),
    (
        b"fun main : PURE int { f(x) + 1 }",
        Some((Rule::Syntax, 27)),
    ),
    (b"fun main : PURE int { (f(x)) }", Some((Rule::Syntax, 24))),
    (b"fun main : PURE int { [1, 2] }", Some((Rule::Syntax, 24))),
    (b"fun main : PURE int { (1; 2) }", Some((Rule::Syntax, 24))),
    (
        b"fun main : PURE int { (1, 2, 3) }",
        Some((Rule::Syntax, 27)),
    ),
    (
        b"fun main : PURE int { if a then b }",
        Some((Rule::Syntax, 34)),
    ),
    (
        b"fun main : PURE int { match l with end }",
        Some((Rule::Syntax, 35)),
    ),
    (b"lift A to B by f s { f() }", Some((Rule::Syntax, 23))),
    (
        b"lift A to B by f s { f(1, 2, 3) }",
        Some((Rule::Syntax, 27)),
    ),
    (
        b"lift A to B by f s { assert a; 1 }",
        Some((Rule::Syntax, 21)),
    ),
    (b"effect E : GHOST", Some((Rule::Syntax, 11))),
    // Measures and depths.
    (b"fun f : PURE int decreases 1, 2, 3, 4 { 1 }", None),
    (
        b"fun f : PURE int decreases 1, 2, 3, 4, 5 { 1 }",
        Some((Rule::Syntax, 37)),
    ),
    (b"fun f : PURE int unfold 4 { 1 }", None),
    (b"fun f : PURE int unfold 004 { 1 }", None),
    (b"fun f : PURE int unfold 5 { 1 }", Some((Rule::Syntax, 24))),
    (
        b"fun f : PURE int unfold 170141183460469231731687303715884105728 { 1 }",
        Some((Rule::Syntax, 24)),
    ),
    // Literals.
    (
        b"fun main : PURE int { 170141183460469231731687303715884105727 }",
        None,
    ),
    (
        b"fun main : PURE int { -170141183460469231731687303715884105728 }",
        None,
    ),
    (
        b"fun main : PURE int { 170141183460469231731687303715884105728 }",
        Some((Rule::NumberTooWide, 22)),
    ),
    (
        b"fun main : PURE int { x - 170141183460469231731687303715884105728 }",
        Some((Rule::NumberTooWide, 26)),
    ),
    (
        b"fun main : PURE int { (x) - 170141183460469231731687303715884105728 }",
        Some((Rule::NumberTooWide, 28)),
    ),
    (
        b"fun main : PURE int { x - - // \n 170141183460469231731687303715884105728 }",
        None,
    ),
    (
        b"fun main : PURE int { x * - // \n 170141183460469231731687303715884105729 }",
        Some((Rule::NumberTooWide, 26)),
    ),
    (
        b"fun main : PURE int { fst -170141183460469231731687303715884105729 }",
        Some((Rule::NumberTooWide, 26)),
    ),
    (
        b"fun main : PURE int 170141183460469231731687303715884105729",
        Some((Rule::Syntax, 20)),
    ),
    (
        b"fun main : PURE int { + 170141183460469231731687303715884105729",
        Some((Rule::Syntax, 22)),
    ),
    (
        b"fun main : PURE int { 170141183460469231731687303715884105728 +",
        Some((Rule::NumberTooWide, 22)),
    ),
    (
        b"fun main : PURE int { 00000170141183460469231731687303715884105728 }",
        Some((Rule::NumberTooWide, 22)),
    ),
];

#[test]
fn reads_or_refuses(rt: HostRuntime) -> Result<(), Fail> {
    for (text, refused) in &ROWS {
        assert_eq!(rt; refusal(rt.alloc(), text), *refused, "in {text:?}");
    }
    Ok(())
}

// Programs, in which a blank stands between each two tokens. In these each production stands.
static PROGRAMS: [&[u8]; 12] = [
    b"effect E : PURE input int result a * int return x s { let p : a = { x } in ( p , s ) } bind f g s { let r = f ( s ) in match r with | ( x , t ) -> if true then g ( x , t ) else { r } | none -> x + 1 end }",
    b"effect E : DIV input ( unit ) result a return x _ { - x } bind f g s { g ( 1 , f ) }",
    b"lift A to B by f s { f ( s ) }",
    b"fun f ghost ( n : int { 0 <= n } ) ( _ : unit ) : GHOST bool requires n = n ensures result decreases n , 1 unfold 2 { true }",
    b"fun f : DIV either unit ( option list bool * a ) { none }",
    b"fun f : E int { ghost let g : int = x in let _ = { 1 } in assert g = 1 ; if true then 1 else h ( ) }",
    b"fun f : PURE int { match l with | true -> 1 | false -> 2 | none -> 3 | some x -> 4 | [ ] -> 5 | x :: y -> 6 | inl x -> 7 | inr x -> 8 | ( x , y ) -> 9 end }",
    b"fun f : PURE int { let r = reify E int { g ( 1 , x , y ) } ( 1 ) in reflect E int ( s ) { ( r , s ) } }",
    b"fun f : PURE int { a ==> b || c && d = 1 + 2 - 3 * 4 / 5 % 6 :: [ ] ==> not - fst snd some inl inr len x }",
    b"fun f : PURE int { ( a != b ) && ( a <= b ) && ( a < b ) && ( a >= b ) && ( a > b ) }",
    b"fun f : PURE int { [ ( ) ; ( x ) ; ( true , false ) ; none ; ( if a then b else c ) ; - 1 ; - - 10 ; - not 1 ; fst - 1 ; len [ ] ; fst 10 ] }",
    b"fun f : PURE int ensures ( let x = f ( ) in g ( x , result ) = input ) { 1 }",
];

// The text with one more byte behind it.
fn followed(alloc: Global, text: &[u8], byte: u8) -> Result<Vec<u8>, AllocError> {
    let mut more = Vec::new(alloc);
    more.extend_from_slice(text)?;
    more.push(byte)?;
    Ok(more)
}

#[test]
fn refuses_each_token_in_turn(rt: HostRuntime) -> Result<(), Fail> {
    let alloc = rt.alloc();
    for program in &PROGRAMS {
        assert_eq!(rt; refusal(alloc, program), None, "in {program:?}");
        let mut before = b' ';
        for at in 0..program.len() {
            if before == b' ' {
                let wrong = followed(alloc, &program[..at], b'#')?;
                let refused = Some((Rule::Syntax, at));
                assert_eq!(rt; refusal(alloc, &wrong), refused, "at {at} in {program:?}");
            }
            before = program[at];
        }
    }
    Ok(())
}

static BANK: &[u8] = b"effect EX : PURE
  input int
  result either int a * int
  return x s { (inr x, s) }
  bind f g s {
    let r = f(s) in match r with | (e, t) ->
      match e with | inl n -> (inl n, t) | inr x -> g(x, t) end end }
fun raise (n : int) : EX int ensures result = (inl n, input)
{ reflect EX int (s) { (inl n, s) } }
fun get : EX int ensures result = (inr input, input)
{ reflect EX int (s) { (inr s, s) } }
fun put (n : int) : EX unit ensures result = (inr (), n)
{ reflect EX unit (s) { (inr (), n) } }
fun withdraw (n : int) : EX int
  requires 0 <= input && 0 <= n
  ensures 0 <= snd result
{ let b = get() in
  if n <= b then let u = put(b - n) in b - n else raise(n) }
fun main (n : int) : EX int
  requires 0 <= input && 0 <= n
  ensures 0 <= snd result
{ withdraw(n) }
";

#[test]
fn a_cut_program_is_one_or_breaks_the_grammar(rt: HostRuntime) {
    for size in 0..BANK.len() {
        match refusal(rt.alloc(), &BANK[..size]) {
            None => (),
            Some((rule, at)) => {
                assert_eq!(rt; rule, Rule::Syntax, "after {size} bytes");
                assert!(rt; at <= size, "after {size} bytes");
            }
        }
    }
    assert_eq!(rt; refusal(rt.alloc(), BANK), None);
}

// Some bytes, and how often they stand one after another.
type Piece = (&'static [u8], usize);

type Built = (&'static [Piece], Option<(Rule, usize)>);

const HEAD: Piece = (b"fun main : PURE int { ", 1);

const TOO_WIDE: Piece = (b" 170141183460469231731687303715884105729", 1);

static LIMITS: [Built; 18] = [
    (&[(b" ", 1_048_576)], None),
    (&[(b" ", 1_048_577)], Some((Rule::TooLong, 0))),
    (&[(b"#", 1_048_577)], Some((Rule::TooLong, 0))),
    // Brackets.
    (
        &[HEAD, (b"(", 255), (b"1", 1), (b")", 255), (b" }", 1)],
        None,
    ),
    (
        &[HEAD, (b"(", 256), (b"1", 1), (b")", 256), (b" }", 1)],
        Some((Rule::TooDeep, 277)),
    ),
    (&[HEAD, (b"[", 255), (b"]", 255), (b" }", 1)], None),
    (&[HEAD, (b"[", 256)], Some((Rule::TooDeep, 277))),
    (
        &[
            HEAD,
            (b"{", 60),
            (b"(", 95),
            (b"[", 100),
            (b"1", 1),
            (b"]", 100),
            (b")", 95),
            (b"}", 61),
        ],
        None,
    ),
    (
        &[HEAD, (b"{", 60), (b"(", 95), (b"[", 101)],
        Some((Rule::TooDeep, 277)),
    ),
    (&[HEAD, (b"(1) + ", 300), (b"1 }", 1)], None),
    (&[HEAD, (b"(", 255), (b"1 (", 1)], Some((Rule::Syntax, 279))),
    (&[HEAD, (b"(", 255), (b"+ (", 1)], Some((Rule::Syntax, 277))),
    // Tokens of a declaration.
    (
        &[
            HEAD,
            (b"1", 1),
            (b" + 1", 1020),
            (b" } fun f : PURE int { 1 }", 1),
        ],
        None,
    ),
    (
        &[HEAD, (b"- 1", 1), (b" + 1", 1020), (b" }", 1)],
        Some((Rule::TooDeep, 4106)),
    ),
    (
        &[HEAD, (b"1", 1), (b" + 1", 1020), (b" } }", 1)],
        Some((Rule::Syntax, 4106)),
    ),
    // Two limits.
    (
        &[HEAD, (b"1", 1), (b" + 1", 1020), (b" +", 1), TOO_WIDE],
        Some((Rule::TooDeep, 4106)),
    ),
    (
        &[HEAD, (b"- 1", 1), (b" + 1", 1019), (b" + -", 1), TOO_WIDE],
        Some((Rule::NumberTooWide, 4104)),
    ),
    (
        &[HEAD, (b"1", 1), (b" + 1", 1020), (b" + -", 1), TOO_WIDE],
        Some((Rule::TooDeep, 4106)),
    ),
];

fn built(alloc: Global, pieces: &[Piece]) -> Result<Vec<u8>, AllocError> {
    let mut text = Vec::new(alloc);
    for (piece, count) in pieces {
        for _ in 0..*count {
            text.extend_from_slice(piece)?;
        }
    }
    Ok(text)
}

#[test]
fn the_first_limit_or_fault_answers(rt: HostRuntime) -> Result<(), Fail> {
    let alloc = rt.alloc();
    for (row, (pieces, refused)) in LIMITS.iter().enumerate() {
        let text = built(alloc, pieces)?;
        assert_eq!(rt; refusal(alloc, &text), *refused, "in row {row}");
    }
    Ok(())
}
