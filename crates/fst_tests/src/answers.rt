use fst_base::{Name, OutOfMemory, Seq};
use fst_outside::{Fail, File, MemoryShelf, MemorySink, Shelf, Sink};
use fst_top::fstar;
use std::alloc::Global;
use std::process::Abort;
use std::test::Fail as Failure;

fn words_of(alloc: Global, words: &[&str]) -> Result<Seq<Name>, OutOfMemory> {
    let mut names = Seq::new(alloc);
    for word in words {
        names.push(Name::new(alloc, word)?)?;
    }
    Ok(names)
}

fn shelf_with(alloc: Global, text: &[u8], failing: &[u64]) -> Result<MemoryShelf, OutOfMemory> {
    let mut files = Seq::new(alloc);
    files.push(File {
        name: Name::new(alloc, "a.fst")?,
        bytes: Seq::from_slice(alloc, text)?,
    })?;
    Ok(MemoryShelf::new(alloc, files, Seq::from_slice(alloc, failing)?))
}

// The status of the words over a text, and what the sink holds then.
fn answered(alloc: Global, words: &[&str], text: &[u8]) -> Result<(u8, Seq<u8>), OutOfMemory> {
    let words = words_of(alloc, words)?;
    let mut shelf = shelf_with(alloc, text, &[])?;
    let mut sink = MemorySink::new(alloc, Seq::new(alloc));
    let status = fstar(alloc, &words, &mut shelf, &mut sink);
    Ok((status, Seq::from_slice(alloc, sink.written().as_slice())?))
}

type TextRow = (&'static [u8], u8, &'static [u8]);

fn texts(rt: &impl Abort, alloc: Global, words: &[&str], rows: &[TextRow]) -> Result<(), Failure> {
    for (text, status, printed) in rows {
        let (found, written) = answered(alloc, words, text)?;
        assert_eq!(rt; written.as_slice(), *printed);
        assert_eq!(rt; found, *status);
    }
    Ok(())
}

fn commands(rt: &impl Abort, alloc: Global, text: &[u8], rows: &[Row]) -> Result<(), Failure> {
    for (words, status, printed) in rows {
        let (found, written) = answered(alloc, words, text)?;
        assert_eq!(rt; written.as_slice(), *printed);
        assert_eq!(rt; found, *status);
    }
    Ok(())
}

// A text, the status of `check` and the printed text that are due.
static CHECKS: [TextRow; 40] = [
    (b"", 0, b"checked: 0 functions, 0 goals\n"),
    (b"// nothing", 0, b"checked: 0 functions, 0 goals\n"),
    (
        b"fun flip (b : bool) : PURE bool ensures result = b { not b }",
        1,
        b"not proved: ensures of flip at 1:5\npath\nbranch\n  b is true\n",
    ),
    (
        b"fun u : PURE unit ensures result = () { () }",
        0,
        b"checked: 1 functions, 1 goals\n",
    ),
    (
        b"fun main (b : bool) : PURE bool ensures result = b { if b then true else false }",
        0,
        b"checked: 1 functions, 2 goals\n",
    ),
    (b"fun main : PURE int { 1 }", 2, b"refused 0 NotBuilt\n"),
    // without ensures there is no goal
    (
        b"fun f (x : bool) : PURE bool requires x { x }",
        0,
        b"checked: 1 functions, 0 goals\n",
    ),
    // requires rules the branch out in which x is false
    (
        b"fun f (x : bool) : PURE bool requires x ensures result { x }",
        0,
        b"checked: 1 functions, 1 goals\n",
    ),
    (
        b"fun f (x : bool) (y : bool) : PURE bool requires x || y ensures result { x }",
        1,
        b"not proved: ensures of f at 1:5\npath\nbranch\n  x is false\n  y is true\n",
    ),
    // a let is put in; the inner x hides the outer one
    (
        b"fun f (x : bool) : PURE bool ensures result = not x { let x = not x in x }",
        0,
        b"checked: 1 functions, 1 goals\n",
    ),
    (
        b"fun f (x : bool) : PURE bool ensures result = x { let y = x in let x = true in x && y }",
        0,
        b"checked: 1 functions, 1 goals\n",
    ),
    // nested ifs: each path has its conditions
    (
        b"fun f (a : bool) (b : bool) : PURE bool ensures result = (a && b)\n{ if a then if b then true else false else false }",
        0,
        b"checked: 1 functions, 3 goals\n",
    ),
    (
        b"fun f (a : bool) (b : bool) : PURE bool ensures result = (a && b)\n{ if a then if b then true else true else false }",
        1,
        b"not proved: ensures of f at 1:5\npath then else\nbranch\n  a is true\n  b is false\n",
    ),
    // a literal condition takes its one way
    (
        b"fun f : PURE bool ensures result { if true then true else false }",
        0,
        b"checked: 1 functions, 1 goals\n",
    ),
    // connectives: ==> nests to the right, && and || to the left
    (
        b"fun f (a : bool) (b : bool) (c : bool) : PURE bool ensures result { a ==> b ==> a }",
        0,
        b"checked: 1 functions, 1 goals\n",
    ),
    (
        b"fun f (a : bool) (b : bool) (c : bool) : PURE bool ensures result { a || b && c }",
        1,
        b"not proved: ensures of f at 1:5\npath\nbranch\n  a is false\n  b is true\n  c is false\n",
    ),
    (
        b"fun f (a : bool) (b : bool) : PURE bool ensures result { not a = b ==> a != b }",
        0,
        b"checked: 1 functions, 1 goals\n",
    ),
    // both or neither; equations of units are true
    (
        b"fun f (u : unit) (v : unit) : PURE bool ensures result { u = v }",
        0,
        b"checked: 1 functions, 1 goals\n",
    ),
    (
        b"fun f (a : bool) (b : bool) : PURE bool requires a = b ensures result = b { (if a then b else a) }",
        0,
        b"checked: 1 functions, 1 goals\n",
    ),
    // two parameters that bind nothing
    (
        b"fun f (_ : bool) (_ : unit) : PURE unit { () }",
        0,
        b"checked: 1 functions, 0 goals\n",
    ),
    // the first no is told, and the goals before it are valid
    (
        b"fun f (a : bool) : PURE bool ensures result = a { a }\nfun g (a : bool) : PURE bool ensures result { a }\nfun h : PURE bool ensures result { false }",
        1,
        b"not proved: ensures of g at 2:5\npath\nbranch\n  a is false\n",
    ),
    // a branch without atoms
    (
        b"fun h : PURE bool ensures result { false }",
        1,
        b"not proved: ensures of h at 1:5\npath\nbranch\n",
    ),
    // a branch that the hypothesis leaves, the first one in the order of marks
    (
        b"fun f (a : bool) (b : bool) : PURE bool requires (if a then b else b) ensures (if a then b else b) { a }",
        0,
        b"checked: 1 functions, 1 goals\n",
    ),
    (
        b"fun f (a : bool) (b : bool) : PURE bool requires (if a then b else a) ensures (if b then a else b) { a }",
        0,
        b"checked: 1 functions, 1 goals\n",
    ),
    (
        b"fun f (a : bool) (b : bool) : PURE bool requires (if a then a else b) ensures (if a then b else a) { a }",
        1,
        b"not proved: ensures of f at 1:5\npath\nbranch\n  a is true\n  b is false\n",
    ),
    (
        b"fun f (a : bool) (b : bool) : PURE bool requires (if a then b else b) ensures (if b then a else b) { a }",
        1,
        b"not proved: ensures of f at 1:5\npath\nbranch\n  a is false\n  b is true\n",
    ),
    // not one of the first programs
    (
        b"fun f (x : bool) : PURE bool unfold 1 { x }",
        2,
        b"refused 0 NotBuilt\n",
    ),
    (
        b"fun f (x : bool) : PURE bool { y }",
        2,
        b"refused 0 NotBuilt\n",
    ),
    (
        b"fun f (x : bool) (x : bool) : PURE bool { x }",
        2,
        b"refused 0 NotBuilt\n",
    ),
    (
        b"fun f : PURE unit { () } fun f : PURE unit { () }",
        2,
        b"refused 0 NotBuilt\n",
    ),
    (b"fun f : PURE bool { () }", 2, b"refused 0 NotBuilt\n"),
    (
        b"fun f : PURE bool { () = true }",
        2,
        b"refused 0 NotBuilt\n",
    ),
    (b"fun f : PURE bool { f() }", 2, b"refused 0 NotBuilt\n"),
    (b"fun f : DIV bool { true }", 2, b"refused 0 NotBuilt\n"),
    (
        b"fun f : PURE bool ensures result = input { true }",
        2,
        b"refused 0 NotBuilt\n",
    ),
    // what doesn't read
    (
        b"fun main : PURE int { 1 + }",
        2,
        b"refused 1 Syntax at 1:27\n",
    ),
    (
        b"fun f : PURE bool { true ",
        2,
        b"refused 1 Syntax at 1:26\n",
    ),
    (
        b"fun main : PURE int {\n 170141183460469231731687303715884105728 }",
        2,
        b"refused 4 NumberTooWide at 2:2\n",
    ),
    (b"\xFF", 2, b"refused 1 Syntax at 1:1\n"),
    (
        b"fun f : PURE unit\n{ () } }",
        2,
        b"refused 1 Syntax at 2:8\n",
    ),
];

type Row = (&'static [&'static str], u8, &'static [u8]);

static SAME: &[u8] =
    b"fun main (b : bool) : PURE bool ensures result = b { if b then true else false }";

// Words, the status and the printed text that are due where `a.fst` holds the text above.
static ON_SAME: [Row; 22] = [
    (&["run", "a.fst", "2", "true"], 0, b"true\n"),
    (&["run", "a.fst", "2", " false "], 0, b"false\n"),
    (
        &["run", "a.fst", "2", "false // no"],
        3,
        b"refused 17 BadArgument 1\n",
    ),
    (&["run", "a.fst", "1", "true"], 4, b"out of fuel\n"),
    (&["run", "a.fst", "0", "true"], 4, b"out of fuel\n"),
    (&["run", "a.fst", "10000000", "true"], 0, b"true\n"),
    (
        &["run", "a.fst", "00000000000000000000000002", "true"],
        0,
        b"true\n",
    ),
    (
        &["run", "a.fst", "2", "maybe"],
        3,
        b"refused 17 BadArgument 1\n",
    ),
    (&["run", "a.fst", "2"], 3, b"refused 17 BadArgument 1\n"),
    (
        &["run", "a.fst", "2", "true", "true"],
        3,
        b"refused 17 BadArgument 2\n",
    ),
    // no fuel, even where the file isn't there
    (&["run", "a.fst", "x", "true"], 3, b"refused 18 BadFuel\n"),
    (&["run", "b.fst", "", "true"], 3, b"refused 18 BadFuel\n"),
    (&["run", "b.fst", "+2", "true"], 3, b"refused 18 BadFuel\n"),
    (&["run", "b.fst", "-2", "true"], 3, b"refused 18 BadFuel\n"),
    (&["run", "b.fst", "10000001"], 3, b"refused 18 BadFuel\n"),
    (
        &["run", "b.fst", "99999999999999999999999"],
        3,
        b"refused 18 BadFuel\n",
    ),
    (&["run", "b.fst", "2", "true"], 7, b"read fault\n"),
    // words that fit no command
    (&["run", "a.fst"], 3, b"refused 20 BadWords\n"),
    (&["check", "a.fst", "2"], 3, b"refused 20 BadWords\n"),
    (&["frob"], 3, b"refused 20 BadWords\n"),
    (&[], 3, b"refused 20 BadWords\n"),
    (
        &["--version"],
        0,
        b"fstar 0.1.0, proved with rattle-kit-13f logic dac8208d650f15bf\n",
    ),
];

static FLIP: &[u8] = b"fun main (b : bool) : PURE bool ensures result = b { not b }";

// Nothing runs before the proof, and the arguments are looked at before it.
static ON_FLIP: [Row; 3] = [
    (
        &["run", "a.fst", "1", "true"],
        1,
        b"not proved: ensures of main at 1:5\npath\nbranch\n  b is true\n",
    ),
    (
        &["run", "a.fst", "0", "false"],
        1,
        b"not proved: ensures of main at 1:5\npath\nbranch\n  b is true\n",
    ),
    (
        &["run", "a.fst", "1", "()"],
        3,
        b"refused 17 BadArgument 1\n",
    ),
];

static NEEDS: &[u8] =
    b"fun main (b : bool) : PURE bool requires b ensures result { let c = b in c }";

// Arguments that miss requires are run all the same.
static ON_NEEDS: [Row; 2] = [
    (&["run", "a.fst", "3", "false"], 0, b"false\n"),
    (&["run", "a.fst", "2", "true"], 4, b"out of fuel\n"),
];

static TWO: &[u8] = b"fun f : PURE unit { () }
fun main (a : bool) (u : unit) : PURE bool ensures result = not a { if a then let b = not a in b else true }";

// Arguments in their order, and the cost of each side.
static ON_TWO: [Row; 5] = [
    (&["run", "a.fst", "2", "false", "()"], 0, b"true\n"),
    (&["run", "a.fst", "3", "true", "( )"], 4, b"out of fuel\n"),
    (&["run", "a.fst", "4", "true", "()"], 0, b"false\n"),
    (
        &["run", "a.fst", "4", "()", "true"],
        3,
        b"refused 17 BadArgument 1\n",
    ),
    (
        &["run", "a.fst", "4", "true", "true"],
        3,
        b"refused 17 BadArgument 2\n",
    ),
];

// Texts, the status of `run a.fst 1` and the printed text that are due.
static RUNS: [TextRow; 4] = [
    (b"fun", 2, b"refused 1 Syntax at 1:4\n"),
    (b"fun main : PURE int { 1 }", 2, b"refused 0 NotBuilt\n"),
    (b"", 3, b"refused 16 NoMain\n"),
    (
        b"fun f : PURE bool ensures result { false }",
        3,
        b"refused 16 NoMain\n",
    ),
];

static HELP: &[u8] =
    b"fstar: a checker and runner for a first-order core of F* with user-defined effects

fstar check FILE                proves the functions of the file
fstar run FILE FUEL ARGUMENTS   proves them, then runs main with so many units of fuel
fstar --help                    prints this text
fstar --version                 prints the version and the kit
./fstar --prove                 in a checkout: proves and builds the program

exit statuses: 0 done, 1 not proved, 2 the file is refused, 3 the words are refused,
4 out of fuel, 7 the file can't be read, 8 the text can't be written, 10 no memory;
70 the script ./fstar itself failed

example: fstar check examples/same.fst
";

#[test]
fn checks(rt: HostRuntime) -> Result<(), Failure> {
    let alloc = rt.alloc();
    texts(&rt, alloc, &["check", "a.fst"], &CHECKS)
}

#[test]
fn runs(rt: HostRuntime) -> Result<(), Failure> {
    let alloc = rt.alloc();
    texts(&rt, alloc, &["run", "a.fst", "1"], &RUNS)?;
    commands(&rt, alloc, SAME, &ON_SAME)?;
    commands(&rt, alloc, FLIP, &ON_FLIP)?;
    commands(&rt, alloc, NEEDS, &ON_NEEDS)?;
    commands(&rt, alloc, TWO, &ON_TWO)?;
    commands(&rt, alloc, b"", &[(&["--help"], 0, HELP)])
}

#[test]
fn outside(rt: HostRuntime) -> Result<(), Failure> {
    let alloc = rt.alloc();
    let words = words_of(alloc, &["check", "a.fst"])?;
    let mut shelf = shelf_with(alloc, b"", &[0])?;
    let mut sink = MemorySink::new(alloc, Seq::new(alloc));
    assert_eq!(rt; fstar(alloc, &words, &mut shelf, &mut sink), 7);
    assert_eq!(rt; sink.written().as_slice(), b"read fault\n".as_slice());
    let mut sink = MemorySink::new(alloc, Seq::from_slice(alloc, &[Fail { call: 0, kept: 7 }])?);
    assert_eq!(rt; fstar(alloc, &words, &mut shelf, &mut sink), 8);
    assert_eq!(rt; sink.written().as_slice(), b"checked".as_slice());
    let mut sink = MemorySink::new(alloc, Seq::new(alloc));
    assert_eq!(rt;
        fstar(alloc, &words_of(alloc, &["frob"])?, &mut shelf, &mut sink),
        3
    );
    assert_eq!(rt;
        sink.written().as_slice(),
        b"refused 20 BadWords\n".as_slice()
    );
    Ok(())
}

#[test]
fn long_files(rt: HostRuntime) -> Result<(), Failure> {
    let alloc = rt.alloc();
    let mut spaces = Seq::new(alloc);
    for _ in 0..1 << 20 {
        spaces.push(b' ')?;
    }
    let (status, written) = answered(alloc, &["check", "a.fst"], spaces.as_slice())?;
    assert_eq!(rt; status, 0);
    assert_eq!(rt;
        written.as_slice(),
        b"checked: 0 functions, 0 goals\n".as_slice()
    );
    spaces.push(b' ')?;
    let (status, written) = answered(alloc, &["check", "a.fst"], spaces.as_slice())?;
    assert_eq!(rt; status, 2);
    assert_eq!(rt; written.as_slice(), b"refused 2 TooLong\n".as_slice());
    Ok(())
}
