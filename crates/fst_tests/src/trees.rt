use fst_base::Op;
use fst_reader::{BodyTree, Decl, Form, FormNode, PartNode, RawProgram, Word, read};
use std::alloc::{AllocError, Global};
use std::test::Fail;

/// A node of a term: its place, counted from the term's first byte, and its primitive, if it is one.
type Node = (u32, Option<Op>);

const HEAD: &[u8] = b"fun f : PURE int { ";

// Terms with their nodes, each before its parts.
static TREES: [(&'static [u8], &'static [Node]); 19] = [
    (
        b"1 - 2 - 3",
        &[
            (6, Some(Op::Sub)),
            (2, Some(Op::Sub)),
            (0, None),
            (4, None),
            (8, None),
        ],
    ),
    (
        b"6 / 2 * 3",
        &[
            (6, Some(Op::Mul)),
            (2, Some(Op::Div)),
            (0, None),
            (4, None),
            (8, None),
        ],
    ),
    (
        b"1 - 2 * 3",
        &[
            (2, Some(Op::Sub)),
            (0, None),
            (6, Some(Op::Mul)),
            (4, None),
            (8, None),
        ],
    ),
    // a ==> (if b then c else true), in full (if a then (if b then c else true) else true)
    (
        b"a ==> b ==> c",
        &[
            (2, None),
            (0, None),
            (8, None),
            (6, None),
            (12, None),
            (8, None),
            (2, None),
        ],
    ),
    // (if (if a then b else false) then c else false)
    (
        b"a && b && c",
        &[
            (7, None),
            (2, None),
            (0, None),
            (5, None),
            (2, None),
            (10, None),
            (7, None),
        ],
    ),
    // (if (if a then true else b) then true else c)
    (
        b"a || b || c",
        &[
            (7, None),
            (2, None),
            (0, None),
            (2, None),
            (5, None),
            (7, None),
            (10, None),
        ],
    ),
    // (if a then true else (if b then c else false))
    (
        b"a || b && c",
        &[
            (2, None),
            (0, None),
            (2, None),
            (7, None),
            (5, None),
            (10, None),
            (7, None),
        ],
    ),
    // (if (if a then true else b) then c else true)
    (
        b"a || b ==> c",
        &[
            (7, None),
            (2, None),
            (0, None),
            (2, None),
            (5, None),
            (11, None),
            (7, None),
        ],
    ),
    // (if a then false else true) = b
    (
        b"not a = b",
        &[
            (6, Some(Op::Eq)),
            (0, None),
            (4, None),
            (0, None),
            (0, None),
            (8, None),
        ],
    ),
    (
        b"a :: b :: c",
        &[
            (2, Some(Op::Cons)),
            (0, None),
            (7, Some(Op::Cons)),
            (5, None),
            (10, None),
        ],
    ),
    (
        b"a + b = c :: d",
        &[
            (6, Some(Op::Eq)),
            (2, Some(Op::Add)),
            (0, None),
            (4, None),
            (10, Some(Op::Cons)),
            (8, None),
            (13, None),
        ],
    ),
    (b"p >= q", &[(2, Some(Op::Le)), (5, None), (0, None)]),
    (b"p > q", &[(2, Some(Op::Lt)), (4, None), (0, None)]),
    (b"p <= q", &[(2, Some(Op::Le)), (0, None), (5, None)]),
    (
        b"p != q",
        &[
            (2, None),
            (2, Some(Op::Eq)),
            (0, None),
            (5, None),
            (2, None),
            (2, None),
        ],
    ),
    (
        b"- x * - 2",
        &[(4, Some(Op::Mul)), (0, Some(Op::Neg)), (2, None), (6, None)],
    ),
    (
        b"fst snd x - 1",
        &[
            (10, Some(Op::Sub)),
            (0, Some(Op::Fst)),
            (4, Some(Op::Snd)),
            (8, None),
            (12, None),
        ],
    ),
    (
        b"[1; ((2), 3)]",
        &[
            (0, Some(Op::Cons)),
            (1, None),
            (0, Some(Op::Cons)),
            (4, Some(Op::Pair)),
            (6, None),
            (10, None),
            (0, Some(Op::Nil)),
        ],
    ),
    (
        b"(if a then b else c)",
        &[(1, None), (4, None), (11, None), (18, None)],
    ),
];

// The term that the body of the first function is.
fn term(program: &RawProgram) -> Option<&Form<Word>> {
    match program.decls.get(0) {
        Some(Decl::Fun(fun)) => match &fun.body {
            BodyTree::Part(part) => match &part.node {
                PartNode::Term(term) => Some(term),
                _ => None,
            },
            _ => None,
        },
        _ => None,
    }
}

// Puts the parts of the node in front, the first one last.
fn push_parts<'a>(left: &mut Vec<&'a Form<Word>>, form: &'a Form<Word>) -> Result<(), AllocError> {
    match &form.node {
        FormNode::Prim(_, parts) => {
            for part in parts.as_slice().iter().rev() {
                left.push(part)?;
            }
        }
        FormNode::If(condition, yes, no) => {
            left.push(no.get())?;
            left.push(yes.get())?;
            left.push(condition.get())?;
        }
        _ => (),
    }
    Ok(())
}

// The nodes of the term, of which there are less than 100.
fn nodes(alloc: Global, term: &Form<Word>) -> Result<Vec<Node>, AllocError> {
    let mut nodes = Vec::new(alloc);
    let mut left = Vec::new(alloc);
    left.push(term)?;
    for _ in 0..100 {
        let Some(form) = left.pop() else {
            return Ok(nodes);
        };
        let op = match &form.node {
            FormNode::Prim(op, _) => Some(*op),
            _ => None,
        };
        nodes.push((form.at.at.saturating_sub(HEAD.len() as u32), op))?;
        push_parts(&mut left, form)?;
    }
    Ok(nodes)
}

#[test]
fn operators_nest_and_shorts_are_written_out(rt: HostRuntime) -> Result<(), Fail> {
    let alloc = rt.alloc();
    for (text, tree) in &TREES {
        let mut body = Vec::new(alloc);
        body.extend_from_slice(HEAD)?;
        body.extend_from_slice(text)?;
        body.extend_from_slice(b" }")?;
        let found = match read(alloc, &body) {
            Ok(program) => match term(&program) {
                Some(term) => nodes(alloc, term)?,
                None => Vec::new(alloc),
            },
            Err(_) => Vec::new(alloc),
        };
        assert_eq!(rt; found.as_slice(), *tree, "in {text:?}");
    }
    Ok(())
}
