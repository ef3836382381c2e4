//! Refutations by number: each stands on earlier ones.

ghost use Rattle.std.specs.Prelude.{◌≡◌, ◌<◌, ◌++◌, ◌∷◌, [], length, IfOk};
ghost use Rattle.fst_cases.specs.Arenas.{branched, core_at, rule_at};
ghost use Rattle.fst_cases.specs.Knowing.{joined, without};
ghost use Rattle.fst_cases.specs.declared.arena.Rule.TheVariants as by;

use crate::known::Known;
use crate::merging::{joined, without};
use fst_base::{OutOfMemory, Seq};
use fst_cert::Line;
use std::alloc::Global;

/// How a branch is ended.
#[derive(Debug, Drop)]
pub enum Rule {
    /// By these lines.
    Ends(Seq<Line>),
    /// By the refutations with the atom true and false.
    Split(u32, usize, usize),
    /// By the refutations with the atom, an equation of numbers, less and greater.
    Order(u32, usize, usize),
}

/// The marks that a refutation uses, by falling atoms, and how it ends every branch that has them.
#[derive(Debug, Drop)]
pub struct Refutation {
    pub core: Seq<Known>,
    pub rule: Rule,
}

/// Puts one more refutation there, and gives its number.
pub fn add(arena: &mut Seq<Refutation>, core: Seq<Known>, rule: Rule) -> Result<usize, OutOfMemory>
    ensures { IfOk result (λ at. (arena.new ≡ arena.old ++ (record { core = core; rule = rule }) ∷ []) × (at ≡ length arena.old)) }
{
    let at = arena.len();
    arena.push(Refutation { core, rule })?;
    Ok(at)
}

/// The marks that a refutation uses.
pub fn core(arena: &[Refutation], at: usize) -> &[Known]
    requires { at < length arena.now }
    ensures { result.now ≡ core_at arena.now at }
{
    arena[at].core.as_slice()
}

/// How a refutation ends a branch.
pub fn rule_of(arena: &[Refutation], at: usize) -> &Rule
    requires { at < length arena.now }
    ensures { result.now ≡ rule_at arena.now at }
{
    &arena[at].rule
}

/// The marks that two refutations use, but those of this atom.
fn joined_cores(
    alloc: Global,
    arena: &[Refutation],
    atom: u32,
    first: usize,
    second: usize,
) -> Result<Seq<Known>, OutOfMemory>
    requires first { first < length arena.now }
    requires second { second < length arena.now }
    ensures { IfOk result (λ all. all ≡ joined (without (core_at arena.now first) atom) (without (core_at arena.now second) atom)) }
{
    let left = without(core(arena, first), atom);
    let right = without(core(arena, second), atom);
    joined(alloc, left, right)
}

/// The refutation from those with the atom true and false.
pub fn split(
    alloc: Global,
    arena: &mut Seq<Refutation>,
    atom: u32,
    on_true: usize,
    on_false: usize,
) -> Result<usize, OutOfMemory>
    requires first { on_true < length arena.old }
    requires second { on_false < length arena.old }
    ensures { IfOk result (λ at. (arena.new ≡ arena.old ++ branched arena.old by.Split atom on_true on_false ∷ []) × (at ≡ length arena.old)) }
{
    let core = joined_cores(alloc, arena.as_slice(), atom, on_true, on_false)?;
    add(arena, core, Rule::Split(atom, on_true, on_false))
}

/// The refutation from those with the atom less and greater.
pub fn order(
    alloc: Global,
    arena: &mut Seq<Refutation>,
    atom: u32,
    on_less: usize,
    on_greater: usize,
) -> Result<usize, OutOfMemory>
    requires first { on_less < length arena.old }
    requires second { on_greater < length arena.old }
    ensures { IfOk result (λ at. (arena.new ≡ arena.old ++ branched arena.old by.Order atom on_less on_greater ∷ []) × (at ≡ length arena.old)) }
{
    let core = joined_cores(alloc, arena.as_slice(), atom, on_less, on_greater)?;
    add(arena, core, Rule::Order(atom, on_less, on_greater))
}
