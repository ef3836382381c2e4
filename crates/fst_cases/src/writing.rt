//! The lines of a refutation.

ghost use Rattle.std.specs.Prelude.{◌≡◌, ◌++◌, ◌∷◌, [], List, OnOk, IfOk};
ghost use Rattle.fst_cases.specs.Arenas.{Writes};
ghost use Rattle.fst_cert.specs.declared.line.Line.{Line};

use crate::arena::{Refutation, Rule, rule_of};
use fst_base::{OutOfMemory, Seq};
use fst_cert::Line;
use std::alloc::Global;

/// Appends copies of the lines.
fn append(alloc: Global, lines: &[Line], written: &mut Seq<Line>) -> Result<(), OutOfMemory>
    ensures { OnOk result (written.new ≡ written.old ++ lines.now) }
{
    for line in lines {
        written.push(line.copy(alloc)?)?;
    }
    Ok(())
}

/// Appends the line, and puts the two that follow it on the stack, the first one last.
fn branch(
    line: Line,
    first: usize,
    second: usize,
    todo: &mut Seq<usize>,
    written: &mut Seq<Line>,
) -> Result<(), OutOfMemory>
    ensures { OnOk result ((written.new ≡ written.old ++ line ∷ []) × (todo.new ≡ (todo.old ++ second ∷ []) ++ first ∷ [])) }
{
    written.push(line)?;
    todo.push(second)?;
    todo.push(first)?;
    Ok(())
}

/// The lines that the refutation of this number stands for.
pub fn write(alloc: Global, arena: &[Refutation], root: usize) -> Result<Seq<Line>, OutOfMemory>
    requires { (lines : List Line) × Writes arena.now root lines }
    ensures { IfOk result (λ lines. Writes arena.now root lines) }
{
    let mut written = Seq::new(alloc);
    let mut todo = Seq::new(alloc);
    todo.push(root)?;
    while let Some(at) = todo.pop() {
        match rule_of(arena, at) {
            Rule::Ends(lines) => append(alloc, lines.as_slice(), &mut written)?,
            Rule::Split(atom, first, second) => {
                branch(Line::Split(*atom), *first, *second, &mut todo, &mut written)?
            }
            Rule::Order(atom, first, second) => {
                branch(Line::Order(*atom), *first, *second, &mut todo, &mut written)?
            }
        }
    }
    Ok(written)
}
