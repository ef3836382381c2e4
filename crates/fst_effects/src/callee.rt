//! Functions as formulas apply them and texts call them.

ghost use Rattle.std.specs.Prelude.{◌≡◌, slice_get, option_map};
ghost use Rattle.fst_effects.specs.Scopes.{applied_in, callee_at};

use crate::scope::Entry;
use fst_base::{Box, Seq, Sort};
use fst_names::Ref;
use fst_program::Effect;

/// What is known of a function: its parameters, the sort of its value or of its results, and its effect.
#[derive(Drop)]
pub struct Callee {
    pub args: Seq<Entry>,
    pub sort: Box<Sort>,
    pub effect: Effect,
}

/// Where a term stands: the functions that it may apply, and whether ghost variables may stand there.
#[derive(Clone, Copy)]
pub struct Place<'a> {
    pub callees: &'a [Callee],
    pub is_ghost: bool,
}

/// The function that a name stands for.
pub fn callee_of(callees: &[Callee], name: Ref) -> Option<&Callee>
    ensures { callee_at result ≡ applied_in callees.now name }
{
    callees.get(name.index as usize)
}
