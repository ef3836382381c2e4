//! The search for the first branch that isn't refuted.

ghost use Rattle.std.specs.Prelude.{◌≡◌, IfOk, OnOk};
ghost use Rattle.fst_cases.specs.Sides.{NoLets};
ghost use Rattle.fst_cases.specs.Trails.{Advanced, Filled, Trail, marks_in};
ghost use Rattle.fst_cases.specs.Verdicts.{Decided, IsOf};
ghost use Rattle.fst_terms.specs.Branches.{AllFit};
ghost use Rattle.fst_terms.specs.Flats.{plain_flat};
ghost use Rattle.fst_terms.specs.Marks.{var_sorts};

use crate::arena::{Refutation, Rule, add};
use crate::known::Known;
use crate::trail::{Step, advance, marks_of};
use crate::verdict::{Leaf, Verdict};
use crate::writing::write;
use fst_base::{OutOfMemory, Seq};
use fst_cert::{Line, Proof};
use fst_terms::{Branch, Flat, Mark};
use std::alloc::Global;

/// What looks at the branches of a flat form in which every atom is marked.
pub trait Leaves {
    ghost use Rattle.fst_terms.specs.Flats.{Flt};

    ghost flat: { Self → Flt };

    /// What is known of such a branch.
    fn look(&self, alloc: Global, marks: &[Mark]) -> Result<Leaf, OutOfMemory>
        requires { AllFit (var_sorts (flat self.now)) (flat self.now).atoms marks.now }
        ensures { IfOk result (λ leaf. IsOf (flat self.now) marks.now leaf) };
}

/// Marks each atom without a mark true.
fn fill(flat: &Flat, arena: &[Refutation], trail: &mut Seq<Step>) -> Result<(), OutOfMemory>
    requires { Trail (plain_flat flat.now) arena.now trail.old }
    ensures { OnOk result (Filled (plain_flat flat.now) arena.now trail.old trail.new) }
{
    while trail.len() < flat.atoms.len() {
        trail.push(Step {
            mark: Mark::True,
            on_true: 0,
            on_less: 0,
        })?;
    }
    Ok(())
}

/// Goes on from a refutation of all marks to the next ones; where there are none, the refutation of the branch without marks.
fn refute(
    alloc: Global,
    flat: &Flat,
    arena: &mut Seq<Refutation>,
    trail: &mut Seq<Step>,
    core: Seq<Known>,
    lines: Seq<Line>,
) -> Result<Option<usize>, OutOfMemory>
    requires plain { NoLets (plain_flat flat.now).atoms }
    requires trail { Trail (plain_flat flat.now) arena.old trail.old }
    requires refuted { IsOf (plain_flat flat.now) (marks_in trail.old) (Leaf.Refuted core lines) }
    ensures { IfOk result (λ o. Advanced (plain_flat flat.now) arena.old arena.new trail.old trail.new o) }
{
    let node = add(arena, core, Rule::Ends(lines))?;
    advance(alloc, flat, arena, trail, node)
}

/// The verdict of a search that looks at leaves in this way.
pub fn search<L: Leaves>(alloc: Global, flat: &Flat, leaves: &L) -> Result<Verdict, OutOfMemory>
    requires plain { NoLets (plain_flat flat.now).atoms }
    requires same { L.flat leaves.now ≡ plain_flat flat.now }
    ensures { IfOk result (λ verdict. Decided (plain_flat flat.now) verdict) }
{
    let mut arena = Seq::new(alloc);
    let mut trail = Seq::new(alloc);
    loop {
        fill(flat, arena.as_slice(), &mut trail)?;
        let marks = marks_of(alloc, trail.as_slice())?;
        match leaves.look(alloc, marks.as_slice())? {
            Leaf::Open => return Ok(Verdict::Open(Branch { marks })),
            Leaf::TooWide => return Ok(Verdict::TooWide(Branch { marks })),
            Leaf::Refuted(core, lines) => {
                let all = refute(alloc, flat, &mut arena, &mut trail, core, lines)?;
                if let Some(root) = all {
                    let lines = write(alloc, arena.as_slice(), root)?;
                    return Ok(Verdict::Proved(Proof { first: 1, lines }));
                }
            }
        }
    }
}
