ghost use Rattle.std.specs.Prelude.{◌≡◌, ◌+◌, ◌++◌, ◌∷◌, [], IfOk, length};
ghost use Rattle.fst_congruence.specs.Lines.{At, Because, Extends, Reason};

use crate::equation::Equation;
use crate::why::Why;
use fst_base::{OutOfMemory, Seq};
use fst_cert::Line;

/// Appends an equation with its line, and gives the line's number.
pub fn note(log: &mut Seq<Equation>, equation: Equation) -> Result<u32, OutOfMemory>
    ensures { IfOk result (λ number. (log.new ≡ log.old ++ equation ∷ []) × (number ≡ length log.new)) }
{
    log.push(equation)?;
    match u32::try_from(log.len()) {
        Ok(number) => Ok(number),
        Err(_) => Err(OutOfMemory),
    }
}

/// The number of a line that gives left = right in this order; 0 where they are one term.
pub fn straight(
    log: &mut Seq<Equation>,
    why: Why,
    left: u32,
    right: u32,
) -> Result<u32, OutOfMemory>
    requires { Because log.old why left right }
    ensures { IfOk result (λ line. Reason log.new line left right × Extends log.old log.new × (line ≡ 0 → why.line ≡ 0)) }
{
    if why.line == 0 || !why.turned {
        return Ok(why.line);
    }
    let by = Line::Flip(why.line);
    note(log, Equation { left, right, by })
}

/// Why left = right, where left = middle and middle = right. Two equations that are both turned round are chained as they stand.
pub fn chain(
    log: &mut Seq<Equation>,
    first: Why,
    second: Why,
    left: u32,
    middle: u32,
    right: u32,
) -> Result<Why, OutOfMemory>
    requires first { Because log.old first left middle }
    requires second { Because log.old second middle right }
    ensures { IfOk result (λ whole. Because log.new whole left right × Extends log.old log.new) }
{
    if first.line == 0 {
        return Ok(second);
    }
    if second.line == 0 {
        return Ok(first);
    }
    if first.turned && second.turned {
        return chain_turned(log, first.line, second.line, left, middle, right);
    }
    let front = straight(log, first, left, middle)?;
    let back = straight(log, second, middle, right)?;
    let by = Line::Chain(front, back);
    let line = note(log, Equation { left, right, by })?;
    let turned = false;
    Ok(Why { line, turned })
}

/// Why left = right, where one line gives middle = left and another one right = middle.
fn chain_turned(
    log: &mut Seq<Equation>,
    first: u32,
    second: u32,
    left: u32,
    middle: u32,
    right: u32,
) -> Result<Why, OutOfMemory>
    requires first { At log.old first middle left }
    requires second { At log.old second right middle }
    ensures { IfOk result (λ whole. Because log.new whole left right × Extends log.old log.new) }
{
    let by = Line::Chain(second, first);
    let whole = Equation {
        left: right,
        right: left,
        by,
    };
    let line = note(log, whole)?;
    let turned = true;
    Ok(Why { line, turned })
}

/// The number of a place, from 1.
pub fn place(at: usize) -> Result<u32, OutOfMemory>
    ensures { IfOk result (λ place. place ≡ at + 1) }
{
    match u32::try_from(at) {
        Ok(at) if at < u32::MAX => Ok(at + 1),
        _ => Err(OutOfMemory),
    }
}
