use fst_base::{OutOfMemory, Seq};
use fst_cert::Line;
use fst_congruence::{Closure, Equation, Node, are_equations, close_table, is_table};
use std::alloc::Global;
use std::test::Fail;

/// A term's kind, its constructor and its arguments.
type Plain = (u32, u32, &'static [u32]);

/// The line that gives an equation.
#[derive(Clone, Copy, PartialEq, Eq)]
enum By {
    Given(u32),
    Eta(u32),
    Unit(u32),
}

type Given = (u32, u32, By);

/// Terms from place 1 and equations of them, with pairs that are joined and pairs that aren't.
type Case = (
    &'static [Plain],
    &'static [Given],
    &'static [(u32, u32)],
    &'static [(u32, u32)],
);

const NONE: Plain = (0, 0, &[]);

static CASES: [Case; 11] = [
    // x = y, y = z, w = z, w = v, u = v: transitivity through five equations
    (
        &[
            NONE,
            (1, 0, &[]),
            (2, 0, &[]),
            (3, 0, &[]),
            (4, 0, &[]),
            (5, 0, &[]),
            (6, 0, &[]),
            (7, 0, &[]),
        ],
        &[
            (1, 2, By::Given(1)),
            (2, 3, By::Given(2)),
            (4, 3, By::Given(3)),
            (4, 5, By::Given(4)),
            (6, 5, By::Given(5)),
        ],
        &[(1, 6), (6, 1), (2, 5), (5, 2), (3, 3)],
        &[(1, 7)],
    ),
    // a = b: f(f(f(a))) = f(f(f(b)))
    (
        &[
            NONE,
            (1, 0, &[2]),
            (1, 0, &[3]),
            (1, 0, &[4]),
            (4, 0, &[]),
            (1, 0, &[6]),
            (1, 0, &[7]),
            (1, 0, &[8]),
            (8, 0, &[]),
        ],
        &[(4, 8, By::Given(1))],
        &[(1, 5), (5, 1), (2, 6), (7, 3), (1, 1)],
        &[(1, 2), (3, 4)],
    ),
    // the sides of g(a, b) and g(b, a) are compared in order
    (
        &[
            NONE,
            (1, 0, &[3, 4]),
            (1, 0, &[4, 3]),
            (3, 0, &[]),
            (4, 0, &[]),
        ],
        &[],
        &[],
        &[(1, 2), (3, 4)],
    ),
    // (a, b) = (c, d) gives the parts
    (
        &[
            NONE,
            (1, 3, &[3, 4]),
            (1, 3, &[5, 6]),
            (3, 0, &[]),
            (4, 0, &[]),
            (5, 0, &[]),
            (6, 0, &[]),
        ],
        &[(1, 2, By::Given(1))],
        &[(3, 5), (6, 4)],
        &[(3, 4), (3, 6)],
    ),
    // and the parts give the pairs
    (
        &[
            NONE,
            (1, 3, &[3, 4]),
            (1, 3, &[5, 6]),
            (3, 0, &[]),
            (4, 0, &[]),
            (5, 0, &[]),
            (6, 0, &[]),
        ],
        &[(5, 3, By::Given(1)), (4, 6, By::Given(2))],
        &[(1, 2), (2, 1)],
        &[(3, 4)],
    ),
    // x :: r = y :: s gives the parts; [] = [] is one term
    (
        &[
            NONE,
            (1, 7, &[3, 5]),
            (1, 7, &[4, 6]),
            (3, 0, &[]),
            (4, 0, &[]),
            (5, 6, &[]),
            (6, 0, &[]),
        ],
        &[(1, 2, By::Given(1))],
        &[(3, 4), (5, 6)],
        &[(3, 5)],
    ),
    // some a = some b, and inl, and inr, with the other direction for c = d
    (
        &[
            NONE,
            (1, 5, &[7]),
            (1, 5, &[8]),
            (3, 8, &[8]),
            (3, 8, &[9]),
            (5, 9, &[9]),
            (5, 9, &[10]),
            (7, 0, &[]),
            (8, 0, &[]),
            (9, 0, &[]),
            (10, 0, &[]),
            (11, 5, &[12]),
            (12, 0, &[]),
        ],
        &[
            (1, 2, By::Given(1)),
            (3, 4, By::Given(2)),
            (5, 6, By::Given(3)),
        ],
        &[(7, 8), (8, 9), (9, 10), (7, 10), (10, 7)],
        &[(1, 3), (7, 12), (1, 11)],
    ),
    // some (inl true) = some (inl false): a clash of true and false through two constructors
    (
        &[
            NONE,
            (1, 5, &[3]),
            (1, 5, &[4]),
            (3, 8, &[5]),
            (3, 8, &[6]),
            (5, 1, &[]),
            (6, 2, &[]),
        ],
        &[(1, 2, By::Given(4))],
        &[(5, 6), (6, 5)],
        &[(1, 3)],
    ),
    // p = (fst p, snd p), and p = (c, d): fst p = c
    (
        &[
            NONE,
            (1, 0, &[]),
            (2, 3, &[3, 4]),
            (3, 0, &[1]),
            (4, 0, &[1]),
            (2, 3, &[6, 7]),
            (6, 0, &[]),
            (7, 0, &[]),
        ],
        &[(1, 2, By::Eta(1)), (1, 5, By::Given(2))],
        &[(3, 6), (7, 4), (2, 5)],
        &[(3, 4)],
    ),
    // terms of sort unit
    (
        &[
            NONE,
            (1, 0, &[]),
            (2, 0, &[]),
            (3, 0, &[]),
            (4, 0, &[1]),
            (4, 0, &[2]),
        ],
        &[(1, 3, By::Unit(1)), (2, 3, By::Unit(2))],
        &[(1, 2), (4, 5), (5, 4)],
        &[(1, 4)],
    ),
    // the constructors none and some, and nil and cons, are never joined by themselves
    (
        &[NONE, (1, 4, &[]), (2, 5, &[3]), (3, 0, &[])],
        &[(1, 3, By::Given(1))],
        &[(1, 3)],
        &[(1, 2)],
    ),
];

fn node(alloc: Global, plain: &Plain) -> Result<Node, OutOfMemory> {
    Ok(Node {
        kind: plain.0,
        constructor: plain.1,
        args: Seq::from_slice(alloc, plain.2)?,
    })
}

fn line(by: By) -> Line {
    match by {
        By::Given(atom) => Line::Given(atom),
        By::Eta(term) => Line::Eta(term),
        By::Unit(term) => Line::Unit(term),
    }
}

fn closed(
    alloc: Global,
    nodes: Seq<Node>,
    equations: &[Equation],
) -> Result<Option<Closure>, OutOfMemory> {
    let count = nodes.len();
    let is_small = u32::try_from(count).is_ok();
    if !is_small || !is_table(nodes.as_slice()) || !are_equations(equations, count) {
        return Ok(None);
    }
    Ok(Some(close_table(alloc, nodes, equations)?))
}

fn closure_of(alloc: Global, case: &Case) -> Result<Option<Closure>, OutOfMemory> {
    let mut nodes = Seq::new(alloc);
    for plain in case.0 {
        nodes.push(node(alloc, plain)?)?;
    }
    let mut equations = Seq::new(alloc);
    for (left, right, by) in case.1 {
        equations.push(Equation {
            left: *left,
            right: *right,
            by: line(*by),
        })?;
    }
    closed(alloc, nodes, equations.as_slice())
}

/// The equation of this number.
fn at(log: &[(u32, u32)], number: u32) -> Option<(u32, u32)> {
    let before = number.checked_sub(1)?;
    log.get(before as usize).copied()
}

/// The equation that stands by itself.
fn alone(equations: &[Given], by: By) -> Option<(u32, u32)> {
    for (left, right, other) in equations {
        if *other == by {
            return Some((*left, *right));
        }
    }
    None
}

/// Whether the two terms have one kind, and each number is that of an equation of their arguments, 0 where these are one.
fn are_same(
    nodes: &[Plain],
    log: &[(u32, u32)],
    left: u32,
    right: u32,
    numbers: &[u32],
) -> Option<bool> {
    let first = nodes.get(left as usize)?;
    let second = nodes.get(right as usize)?;
    if first.0 == 0 || first.0 != second.0 || first.2.len() != numbers.len() {
        return Some(false);
    }
    for (place, number) in numbers.iter().enumerate() {
        let pair = (*first.2.get(place)?, *second.2.get(place)?);
        let holds = if *number == 0 {
            pair.0 == pair.1
        } else {
            at(log, *number) == Some(pair)
        };
        if !holds {
            return Some(false);
        }
    }
    Some(true)
}

/// The part of two terms with one constructor.
fn part(nodes: &[Plain], sides: (u32, u32), place: u32) -> Option<(u32, u32)> {
    let first = nodes.get(sides.0 as usize)?;
    let second = nodes.get(sides.1 as usize)?;
    let before = place.checked_sub(1)?;
    if first.1 == 0 || first.1 != second.1 {
        return None;
    }
    Some((
        *first.2.get(before as usize)?,
        *second.2.get(before as usize)?,
    ))
}

/// What the line gives after these equations.
fn gives(case: &Case, log: &[(u32, u32)], line: &Line) -> Option<(u32, u32)> {
    match line {
        Line::Given(atom) => alone(case.1, By::Given(*atom)),
        Line::Eta(term) => alone(case.1, By::Eta(*term)),
        Line::Unit(term) => alone(case.1, By::Unit(*term)),
        Line::Flip(number) => {
            let (left, right) = at(log, *number)?;
            Some((right, left))
        }
        Line::Chain(first, second) => {
            let (left, middle) = at(log, *first)?;
            let (same, right) = at(log, *second)?;
            (middle == same).then_some((left, right))
        }
        Line::Same(left, right, numbers) => {
            let same = are_same(case.0, log, *left, *right, numbers.as_slice())?;
            same.then_some((*left, *right))
        }
        Line::Part(number, place) => part(case.0, at(log, *number)?, *place),
        _ => None,
    }
}

/// What the last line gives, where all of them hold.
fn last_of(alloc: Global, case: &Case, lines: &[Line]) -> Result<Option<(u32, u32)>, OutOfMemory> {
    let mut log: Vec<(u32, u32)> = Vec::new(alloc);
    for line in lines {
        match gives(case, log.as_slice(), line) {
            Some(pair) => log.push(pair)?,
            None => return Ok(None),
        }
    }
    Ok(log.last().copied())
}

fn are_joined(closure: &Closure, left: u32, right: u32) -> bool {
    closure.numbers(left) && closure.numbers(right) && closure.label(left) == closure.label(right)
}

/// Lines that give left = right, where the two are joined.
fn lines_of(
    alloc: Global,
    closure: &Closure,
    left: u32,
    right: u32,
) -> Result<Option<Seq<Line>>, OutOfMemory> {
    if !closure.numbers(left) || !closure.numbers(right) {
        return Ok(None);
    }
    if closure.label(left) != closure.label(right) {
        return Ok(None);
    }
    Ok(Some(closure.explain(alloc, left, right)?))
}

fn is_explained(
    alloc: Global,
    case: &Case,
    closure: &Closure,
    pair: (u32, u32),
) -> Result<bool, OutOfMemory> {
    match lines_of(alloc, closure, pair.0, pair.1)? {
        Some(lines) => Ok(last_of(alloc, case, lines.as_slice())? == Some(pair)),
        None => Ok(false),
    }
}

/// The number of the first case with another answer.
fn first_other(alloc: Global) -> Result<Option<usize>, OutOfMemory> {
    for (number, case) in CASES.iter().enumerate() {
        let Some(closure) = closure_of(alloc, case)? else {
            return Ok(Some(number));
        };
        for pair in case.2 {
            if !is_explained(alloc, case, &closure, *pair)? {
                return Ok(Some(number));
            }
        }
        for (left, right) in case.3 {
            if are_joined(&closure, *left, *right) {
                return Ok(Some(number));
            }
        }
    }
    Ok(None)
}

#[test]
fn terms_are_joined_and_explained(rt: HostRuntime) -> Result<(), Fail> {
    let other = first_other(rt.alloc())?;
    assert!(&rt; other == None, "{other:?}");
    Ok(())
}

/// How many lines say that the first of 200 terms equals the last one, where each equals the next one; `turned` turns the equations.
fn chain(alloc: Global, turned: bool, from: u32, to: u32) -> Result<usize, OutOfMemory> {
    let mut nodes = Seq::new(alloc);
    for kind in 0..201 {
        nodes.push(node(alloc, &(kind, 0, &[]))?)?;
    }
    let mut equations = Seq::new(alloc);
    for term in 1..200 {
        let (left, right) = if turned {
            (term + 1, term)
        } else {
            (term, term + 1)
        };
        equations.push(Equation {
            left,
            right,
            by: Line::Given(term),
        })?;
    }
    let Some(closure) = closed(alloc, nodes, equations.as_slice())? else {
        return Ok(0);
    };
    match lines_of(alloc, &closure, from, to)? {
        Some(lines) => Ok(lines.len()),
        None => Ok(0),
    }
}

#[test]
fn a_chain_is_explained_in_two_lines_a_term(rt: HostRuntime) -> Result<(), Fail> {
    for turned in [false, true] {
        for (from, to) in [(1, 200), (200, 1)] {
            let count = chain(rt.alloc(), turned, from, to)?;
            assert!(&rt; 397 <= count && count <= 400, "{count}");
        }
    }
    Ok(())
}
