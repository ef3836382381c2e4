use fst_base::{Box, Name, Op, OutOfMemory, Pos, Seq, Sort, boxed, one, pair, two};
use fst_flats::prepare;
use fst_terms::{Flat, Sequent, Term, Var};
use std::alloc::Global;
use std::test::Fail;

/// A sequent with its flat form. Terms are written behind their parts: `v0` is a variable, `f0` an application to one
/// int, `let` a let. A variable is of sort bool, int or list of int by its letter.
struct Worked {
    vars: &'static str,
    hyps: &'static [&'static str],
    goal: &'static str,
    /// The variables that are added, the goal of the flat form, and its facts.
    names: usize,
    flat_goal: &'static str,
    facts: &'static [&'static str],
    atoms: &'static [&'static str],
    terms: usize,
}

static WORKED: [Worked; 7] = [
    // x * y = y * x
    Worked {
        vars: "ii",
        hyps: &[],
        goal: "v1 v0 * v0 v1 * =",
        names: 0,
        flat_goal: "v1 v0 * v0 v1 * =",
        facts: &[],
        atoms: &["v1 v0 * v0 v1 * ="],
        terms: 8,
    },
    // not (2 * x = 1)
    Worked {
        vars: "i",
        hyps: &[],
        goal: "2 v0 * 1 = false true if",
        names: 0,
        flat_goal: "2 v0 * 1 = false true if",
        facts: &[],
        atoms: &["2 v0 * 1 ="],
        terms: 8,
    },
    // 0 < len l and l = [] give false
    Worked {
        vars: "l",
        hyps: &["0 v0 len <", "v0 nil ="],
        goal: "false",
        names: 0,
        flat_goal: "false",
        facts: &[
            "0 v0 len <=",
            "v0 len 0 <= v0 nil = true if",
            "nil len 0 =",
            "0 nil len <=",
            "nil len 0 <= nil nil = true if",
        ],
        atoms: &[
            "v0 len 0 <=",
            "v0 nil =",
            "0 v0 len <=",
            "nil len 0 =",
            "0 nil len <=",
            "nil len 0 <=",
        ],
        terms: 14,
    },
    // an `if` that stands as an argument gets a name
    Worked {
        vars: "bi",
        hyps: &[],
        goal: "v1 v0 1 if 3 <=",
        names: 1,
        flat_goal: "v0 3 <=",
        facts: &["v2 v0 v1 = v0 1 = if"],
        atoms: &["v0 3 <=", "v2", "v0 v1 =", "v0 1 ="],
        terms: 11,
    },
    // f x = f y: x and y are equal or not
    Worked {
        vars: "ii",
        hyps: &[],
        goal: "v1 f0 v0 f0 =",
        names: 0,
        flat_goal: "v1 f0 v0 f0 =",
        facts: &["v1 v0 = true v1 v0 = false true if if"],
        atoms: &["v1 f0 v0 f0 =", "v1 v0 ="],
        terms: 9,
    },
    // a remainder by 2
    Worked {
        vars: "i",
        hyps: &[],
        goal: "v0 2 % 1 <=",
        names: 0,
        flat_goal: "v0 2 % 1 <=",
        facts: &[
            "v0 2 % v0 2 v0 2 / * - =",
            "2 v0 2 / * v0 <=",
            "v0 2 v0 2 / * 2 + <",
        ],
        atoms: &[
            "v0 2 % 1 <=",
            "v0 2 % v0 2 v0 2 / * - =",
            "2 v0 2 / * v0 <=",
            "2 v0 2 / * 2 + v0 <=",
        ],
        terms: 15,
    },
    // let x = y + 1 in x <= y
    Worked {
        vars: "i",
        hyps: &[],
        goal: "v0 1 + v0 v1 <= let",
        names: 0,
        flat_goal: "v0 1 + v0 <=",
        facts: &[],
        atoms: &["v0 1 + v0 <="],
        terms: 7,
    },
];

/// The number that a word ends with.
fn number(word: &str) -> u32 {
    let mut value = 0u32;
    for byte in word.as_bytes() {
        if byte.is_ascii_digit() {
            value = value
                .saturating_mul(10)
                .saturating_add(u32::from(*byte - b'0'));
        }
    }
    value
}

fn taken(stack: &mut Seq<Term>) -> Term {
    match stack.pop() {
        Some(term) => term,
        None => Term::Unit,
    }
}

/// Where operators stand in the sequents, and in the flat forms.
const SOURCE: Pos = Pos { at: 7 };

const NOWHERE: Pos = Pos { at: 0 };

fn ints(alloc: Global) -> Result<Sort, OutOfMemory> {
    Ok(Sort::List(Box::new(alloc, Sort::Int)?))
}

/// The operator of two arguments that the word is, and whether it gives an int.
fn operator(word: &str) -> Option<(Op, bool)> {
    match word {
        "+" => Some((Op::Add, true)),
        "-" => Some((Op::Sub, true)),
        "*" => Some((Op::Mul, true)),
        "/" => Some((Op::Div, true)),
        "%" => Some((Op::Rem, true)),
        "<=" => Some((Op::Le, false)),
        "<" => Some((Op::Lt, false)),
        "=" => Some((Op::Eq, false)),
        _ => None,
    }
}

/// The term of the operator of two arguments, taken from the stack.
fn of_two(
    alloc: Global,
    op: Op,
    is_int: bool,
    at: Pos,
    stack: &mut Seq<Term>,
) -> Result<Term, OutOfMemory> {
    let right = taken(stack);
    let left = taken(stack);
    let sort = if is_int { Sort::Int } else { Sort::Bool };
    Ok(Term::Prim(op, sort, two(alloc, left, right)?, at))
}

fn an_if(alloc: Global, stack: &mut Seq<Term>) -> Result<Term, OutOfMemory> {
    let right = boxed(alloc, Ok(taken(stack)));
    let left = boxed(alloc, Ok(taken(stack)));
    let test = boxed(alloc, Ok(taken(stack)));
    let (test, (left, right)) = pair(test, pair(left, right))?;
    Ok(Term::If(test, left, right))
}

fn a_let(alloc: Global, stack: &mut Seq<Term>) -> Result<Term, OutOfMemory> {
    let rest = boxed(alloc, Ok(taken(stack)));
    let bound = boxed(alloc, Ok(taken(stack)));
    let (name, (bound, rest)) = pair(Name::new(alloc, "x"), pair(bound, rest))?;
    Ok(Term::Let(name, bound, rest))
}

/// The term of the word, whose parts are taken from the stack.
fn of_word(alloc: Global, word: &str, at: Pos, stack: &mut Seq<Term>) -> Result<Term, OutOfMemory> {
    if let Some((op, is_int)) = operator(word) {
        return of_two(alloc, op, is_int, at, stack);
    }
    match word {
        "true" => Ok(Term::Bool(true)),
        "false" => Ok(Term::Bool(false)),
        "nil" => Ok(Term::Prim(Op::Nil, ints(alloc)?, Seq::new(alloc), at)),
        "len" => Ok(Term::Prim(Op::Len, Sort::Int, one(alloc, taken(stack))?, at)),
        "if" => an_if(alloc, stack),
        "let" => a_let(alloc, stack),
        _ if word.as_bytes().starts_with(b"v") => Ok(Term::Var(number(word))),
        _ if word.as_bytes().starts_with(b"f") => {
            Ok(Term::App(number(word), Sort::Int, one(alloc, taken(stack))?))
        }
        _ => Ok(Term::Int(i128::from(number(word)))),
    }
}

/// The term of a text.
fn of_text(alloc: Global, text: &str, at: Pos) -> Result<Box<Term>, OutOfMemory> {
    let mut stack = Seq::new(alloc);
    for word in text.split(' ') {
        let made = of_word(alloc, word, at, &mut stack)?;
        stack.push(made)?;
    }
    Box::new(alloc, taken(&mut stack))
}

fn of_texts(alloc: Global, texts: &[&str], at: Pos) -> Result<Seq<Term>, OutOfMemory> {
    let mut terms = Seq::new(alloc);
    for text in texts {
        terms.push(of_text(alloc, text, at)?.into_inner())?;
    }
    Ok(terms)
}

fn variables(alloc: Global, letters: &str) -> Result<Seq<Var>, OutOfMemory> {
    let mut vars = Seq::new(alloc);
    for letter in letters.as_bytes() {
        let sort = match *letter {
            b'b' => Sort::Bool,
            b'l' => ints(alloc)?,
            _ => Sort::Int,
        };
        let (name, sort) = pair(Name::new(alloc, "x"), Ok(sort))?;
        vars.push(Var { name, sort })?;
    }
    Ok(vars)
}

fn are_same(left: &[Term], right: &[Term]) -> bool {
    left.len() == right.len() && left.iter().zip(right.iter()).all(|(a, b)| a.same(b))
}

/// Whether the flat form is the expected one.
fn is_expected(alloc: Global, flat: &Flat, worked: &Worked) -> Result<bool, OutOfMemory> {
    let goal = of_text(alloc, worked.flat_goal, NOWHERE)?;
    let atoms = of_texts(alloc, worked.atoms, NOWHERE)?;
    let hyps = of_texts(alloc, worked.hyps, NOWHERE)?;
    let mut formulas = hyps;
    formulas.append(of_texts(alloc, worked.facts, NOWHERE)?)?;
    Ok(
        flat.goal.same(goal.get())
            && flat.vars.len() == worked.vars.len().saturating_add(worked.names)
            && flat.hyps as usize == worked.hyps.len()
            && are_same(flat.formulas.as_slice(), formulas.as_slice())
            && are_same(flat.atoms.as_slice(), atoms.as_slice())
            && flat.terms.len() == worked.terms,
    )
}

fn flat_of(alloc: Global, worked: &Worked) -> Result<Box<Flat>, OutOfMemory> {
    let vars = variables(alloc, worked.vars)?;
    let hyps = of_texts(alloc, worked.hyps, SOURCE)?;
    let goal = of_text(alloc, worked.goal, SOURCE)?.into_inner();
    let sequent = Sequent { vars, hyps, goal };
    Box::new(alloc, prepare(alloc, &sequent, &Seq::new(alloc))?)
}

/// The number of the first worked sequent with another flat form.
fn first_other(alloc: Global) -> Result<Option<usize>, OutOfMemory> {
    for (number, worked) in WORKED.iter().enumerate() {
        let flat = flat_of(alloc, worked)?;
        if !is_expected(alloc, flat.get(), worked)? {
            return Ok(Some(number));
        }
    }
    Ok(None)
}

/// How many terms are numbered where the hypotheses are x + 1 <= 0, x + 2 <= 0 and so on.
fn many_terms(alloc: Global, count: u32) -> Result<usize, OutOfMemory> {
    let mut hyps = Seq::new(alloc);
    for at in 0..count {
        let sum = two(alloc, Term::Var(0), Term::Int(i128::from(at) + 1))?;
        let sum = Term::Prim(Op::Add, Sort::Int, sum, SOURCE);
        let sides = two(alloc, sum, Term::Int(0))?;
        hyps.push(Term::Prim(Op::Le, Sort::Bool, sides, SOURCE))?;
    }
    let sequent = Sequent {
        vars: variables(alloc, "i")?,
        hyps,
        goal: Term::Bool(false),
    };
    let flat = Box::new(alloc, prepare(alloc, &sequent, &Seq::new(alloc))?)?;
    Ok(flat.get().terms.len())
}

#[test]
fn flat_forms_are_the_worked_ones(rt: HostRuntime) -> Result<(), Fail> {
    let other = first_other(rt.alloc())?;
    assert!(&rt; other == None, "{other:?}");
    // each hypothesis has three terms of its own; besides there are x, 0, true, false and ()
    let terms = many_terms(rt.alloc(), 700)?;
    assert!(&rt; terms == 2105, "{terms}");
    Ok(())
}
