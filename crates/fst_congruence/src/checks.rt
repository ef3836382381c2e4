ghost use Rattle.std.specs.Prelude.{◌<◌, ◌↔◌, ℕ, length, get_or, IsTrue};
ghost use Rattle.fst_congruence.specs.Closures.{IsGivenLine, GivenLines};
ghost use Rattle.fst_congruence.specs.Joined.{node_at};
ghost use Rattle.fst_congruence.specs.Steps.{IsTable, NodeFits, SidesWithin};

use crate::equation::Equation;
use crate::node::Node;
use fst_cert::Line;

/// Whether a term has as many arguments as its constructor asks for, if it has one, and these are terms of a table of so many.
fn is_node(node: &Node, count: usize) -> bool
    ensures { IsTrue result ↔ NodeFits node.now count }
{
    let wanted = match node.constructor {
        3 => 2,
        5 => 1,
        7 => 2,
        8 => 1,
        9 => 1,
        _ => 0,
    };
    let args = node.args.as_slice();
    (node.constructor == 0 || args.len() == wanted) && all_below(args, count)
}

fn all_below(numbers: &[u32], count: usize) -> bool
    ensures { IsTrue result ↔ ((k : ℕ) → k < length numbers.now → get_or numbers.now k 0 < count) }
{
    for at in 0..numbers.len() {
        if numbers[at] as usize >= count {
            return false;
        }
    }
    true
}

/// Whether these are a table of terms: arguments are terms of it, and constructors have their arities.
pub fn is_table(nodes: &[Node]) -> bool
    ensures table { IsTrue result → IsTable nodes.now }
    ensures exact { IsTrue result ↔ ((i : ℕ) → i < length nodes.now → NodeFits (node_at nodes.now i) (length nodes.now)) }
{
    for at in 0..nodes.len() {
        if !is_node(&nodes[at], nodes.len()) {
            return false;
        }
    }
    true
}

/// Whether the line gives an equation by itself.
fn is_given(line: &Line) -> bool
    ensures { IsTrue result ↔ IsGivenLine line.now }
{
    match line {
        Line::Given(_) => true,
        Line::Eta(_) => true,
        Line::Unit(_) => true,
        _ => false,
    }
}

fn is_equation(equation: &Equation, count: usize) -> bool
    ensures { IsTrue result ↔ ((equation.now.left < count) × (equation.now.right < count) × IsGivenLine equation.now.by) }
{
    (equation.left as usize) < count && (equation.right as usize) < count && is_given(&equation.by)
}

/// Whether these are equations of terms of a table of so many, by lines that give them by themselves.
pub fn are_equations(equations: &[Equation], count: usize) -> bool
    ensures sides { IsTrue result → SidesWithin equations.now count }
    ensures given { IsTrue result → GivenLines equations.now }
    ensures exact { SidesWithin equations.now count → GivenLines equations.now → IsTrue result }
{
    for at in 0..equations.len() {
        if !is_equation(&equations[at], count) {
            return false;
        }
    }
    true
}
