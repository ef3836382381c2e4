//! What is known where a body stands.

ghost use Rattle.std.specs.Prelude.{◌≡◌, ◌||◌, option_map};
ghost use Rattle.fst_effects.specs.TextSorts.{bound_place};

use fst_base::Seq;
use fst_effects::{Callee, Place};
use fst_program::{Effect, EffectDef};

/// The paths of lifts between effects, the first lift first: a row for each effect, with an entry for each.
pub type Paths = Seq<Seq<Option<Seq<u32>>>>;

/// What is known where a body stands: the functions as texts call them and as formulas apply them, the effects, and the paths between
/// them.
#[derive(Clone, Copy)]
pub struct Known<'a> {
    pub called: &'a [Callee],
    pub applied: &'a [Callee],
    pub effects: &'a [EffectDef],
    pub paths: &'a Paths,
}

/// Where a text or a part stands: at a place of an effect, and whether ghost variables may stand there.
#[derive(Clone, Copy)]
pub struct Site {
    pub effect: Effect,
    pub is_ghost: bool,
}

impl Site {
    /// Where what a let binds stands: what a ghost let binds is GHOST.
    pub fn bound(self, hidden: bool) -> Site
        ensures effect { result.effect ≡ bound_place hidden self.effect }
        ensures is_ghost { result.is_ghost ≡ (self.is_ghost || hidden) }
    {
        if hidden {
            Site {
                effect: Effect::Ghost,
                is_ghost: true,
            }
        } else {
            self
        }
    }

    /// Where a text of this effect stands that is a part here.
    pub fn inside(self, effect: Effect) -> Site
        ensures effect { result.effect ≡ effect }
        ensures is_ghost { result.is_ghost ≡ self.is_ghost }
    {
        Site {
            effect,
            is_ghost: self.is_ghost,
        }
    }
}
