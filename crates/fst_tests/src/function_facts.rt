use fst_base::{Box, Name, Op, OutOfMemory, Pos, Seq, Sort, boxed, one, pair, two};
use fst_logicfun::postconditions;
use fst_program::{Comp, Effect, Fun, Param, Program};
use fst_terms::{Formula, Sequent, Term, Var};
use std::alloc::Global;
use std::test::Fail;

/// Where operators stand in clauses, and in facts.
const SOURCE: Pos = Pos { at: 7 };

const NOWHERE: Pos = Pos { at: 0 };

/// A formula with its facts. Terms are written behind their parts: `v0` is a variable, `f0` an application to one
/// argument, `g0` one to two.
struct Worked {
    formula: &'static str,
    facts: &'static [&'static str],
}

/// Of function 0 the argument is at least 0 by its refinement, and at most 100 by its requires, and its result is at
/// most the argument; function 1 has a user effect, and its input is at most the argument; the result of function 2 is
/// that of function 0; function 3 says nothing.
static WORKED: [Worked; 6] = [
    // the ensures stands under the refinement and the requires
    Worked {
        formula: "v0 f0 3 <=",
        facts: &["0 v0 <= v0 100 <= false if v0 f0 v0 <= true if"],
    },
    // the last argument is the input
    Worked {
        formula: "v1 v0 g1 3 <=",
        facts: &["true v0 v1 <= true if"],
    },
    // an application in a postcondition has one too
    Worked {
        formula: "v1 f2 3 <=",
        facts: &[
            "true v1 f2 v1 f0 = true if",
            "0 v1 <= v1 100 <= false if v1 f0 v1 <= true if",
        ],
    },
    // an outer application comes before its argument, and each once
    Worked {
        formula: "v0 f0 f0 v0 f0 <=",
        facts: &[
            "0 v0 f0 <= v0 f0 100 <= false if v0 f0 f0 v0 f0 <= true if",
            "0 v0 <= v0 100 <= false if v0 f0 v0 <= true if",
        ],
    },
    // no ensures
    Worked {
        formula: "v0 f3 3 <=",
        facts: &[],
    },
    // no function of the program
    Worked {
        formula: "v0 f7 3 <=",
        facts: &[],
    },
];

/// The number that a word ends with.
fn number(word: &str) -> u32 {
    let mut value = 0u32;
    for byte in word.as_bytes() {
        if byte.is_ascii_digit() {
            value = value
                .saturating_mul(10)
                .saturating_add(u32::from(*byte - b'0'));
        }
    }
    value
}

fn taken(stack: &mut Seq<Term>) -> Term {
    match stack.pop() {
        Some(term) => term,
        None => Term::Unit,
    }
}

/// The last two terms of the stack.
fn taken_two(alloc: Global, stack: &mut Seq<Term>) -> Result<Seq<Term>, OutOfMemory> {
    let right = taken(stack);
    let left = taken(stack);
    two(alloc, left, right)
}

fn an_if(alloc: Global, stack: &mut Seq<Term>) -> Result<Term, OutOfMemory> {
    let right = boxed(alloc, Ok(taken(stack)));
    let left = boxed(alloc, Ok(taken(stack)));
    let test = boxed(alloc, Ok(taken(stack)));
    let (test, (left, right)) = pair(test, pair(left, right))?;
    Ok(Term::If(test, left, right))
}

/// The term of the word, whose parts are taken from the stack.
fn of_word(alloc: Global, word: &str, at: Pos, stack: &mut Seq<Term>) -> Result<Term, OutOfMemory> {
    match word {
        "true" => Ok(Term::Bool(true)),
        "false" => Ok(Term::Bool(false)),
        "<=" => Ok(Term::Prim(Op::Le, Sort::Bool, taken_two(alloc, stack)?, at)),
        "=" => Ok(Term::Prim(Op::Eq, Sort::Bool, taken_two(alloc, stack)?, at)),
        "if" => an_if(alloc, stack),
        _ if word.as_bytes().starts_with(b"v") => Ok(Term::Var(number(word))),
        _ if word.as_bytes().starts_with(b"f") => {
            Ok(Term::App(number(word), Sort::Int, one(alloc, taken(stack))?))
        }
        _ if word.as_bytes().starts_with(b"g") => {
            Ok(Term::App(number(word), Sort::Int, taken_two(alloc, stack)?))
        }
        _ => Ok(Term::Int(i128::from(number(word)))),
    }
}

/// The term of a text.
fn of_text(alloc: Global, text: &str, at: Pos) -> Result<Box<Term>, OutOfMemory> {
    let mut stack = Seq::new(alloc);
    for word in text.split(' ') {
        let made = of_word(alloc, word, at, &mut stack)?;
        stack.push(made)?;
    }
    Box::new(alloc, taken(&mut stack))
}

fn of_texts(alloc: Global, texts: &[&str]) -> Result<Seq<Term>, OutOfMemory> {
    let mut terms = Seq::new(alloc);
    for text in texts {
        terms.push(of_text(alloc, text, NOWHERE)?.into_inner())?;
    }
    Ok(terms)
}

/// The clause of a text, where there is one.
fn clause(alloc: Global, text: &str) -> Result<Option<Formula>, OutOfMemory> {
    if text.len() == 0 {
        return Ok(None);
    }
    Ok(Some(of_text(alloc, text, SOURCE)?.into_inner()))
}

/// A function of one int with these clauses.
fn fun(
    alloc: Global,
    effect: Effect,
    refine: &str,
    needs: &str,
    gives: &str,
) -> Result<Fun, OutOfMemory> {
    let clauses = pair(clause(alloc, needs), clause(alloc, gives));
    let names = pair(Name::new(alloc, "f"), Name::new(alloc, "x"));
    let ((needs, gives), ((name, x), refine)) = pair(clauses, pair(names, clause(alloc, refine)))?;
    let param = Param {
        name: x,
        sort: Sort::Int,
        hidden: false,
        refine,
    };
    let params = one(alloc, param)?;
    Ok(Fun {
        name,
        at: SOURCE,
        params,
        effect,
        sort: Sort::Int,
        needs,
        gives,
        measures: Seq::new(alloc),
        unfold: 1,
        body: Comp::Ret(Term::Var(0)),
        group: 0,
    })
}

fn functions(alloc: Global) -> Result<Seq<Fun>, OutOfMemory> {
    let first = pair(
        fun(alloc, Effect::Pure, "0 v0 <=", "v0 100 <=", "v0 v1 <="),
        fun(alloc, Effect::User(0), "", "", "v1 v2 <="),
    );
    let second = pair(
        fun(alloc, Effect::Pure, "", "", "v0 v1 f0 ="),
        fun(alloc, Effect::Pure, "", "", ""),
    );
    let ((a, b), (c, d)) = pair(first, second)?;
    let mut funs = two(alloc, a, b)?;
    funs.append(two(alloc, c, d)?)?;
    Ok(funs)
}

fn variables(alloc: Global) -> Result<Seq<Var>, OutOfMemory> {
    let (x, y) = pair(Name::new(alloc, "x"), Name::new(alloc, "y"))?;
    let x = Var {
        name: x,
        sort: Sort::Int,
    };
    two(
        alloc,
        x,
        Var {
            name: y,
            sort: Sort::Int,
        },
    )
}

fn are_same(left: &[Term], right: &[Term]) -> bool {
    left.len() == right.len() && left.iter().zip(right.iter()).all(|(a, b)| a.same(b))
}

fn is_expected(alloc: Global, program: &Program, worked: &Worked) -> Result<bool, OutOfMemory> {
    let sequent = Sequent {
        vars: variables(alloc)?,
        hyps: Seq::new(alloc),
        goal: Term::Bool(false),
    };
    let formulas = one(alloc, of_text(alloc, worked.formula, NOWHERE)?.into_inner())?;
    let facts = postconditions(alloc, program, &sequent, &formulas)?;
    let wanted = of_texts(alloc, worked.facts)?;
    Ok(are_same(facts.as_slice(), wanted.as_slice()))
}

/// The number of the first formula with other facts.
fn first_other(alloc: Global) -> Result<Option<usize>, OutOfMemory> {
    let program = Program {
        effects: Seq::new(alloc),
        lifts: Seq::new(alloc),
        funs: functions(alloc)?,
    };
    for (number, worked) in WORKED.iter().enumerate() {
        if !is_expected(alloc, &program, worked)? {
            return Ok(Some(number));
        }
    }
    Ok(None)
}

#[test]
fn postconditions_are_the_worked_ones(rt: HostRuntime) -> Result<(), Fail> {
    let other = first_other(rt.alloc())?;
    assert!(&rt; other == None, "{other:?}");
    Ok(())
}
