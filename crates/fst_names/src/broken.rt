ghost use Rattle.std.specs.Prelude.{◌≡◌, Some, Option};
ghost use Rattle.fst_names.specs.Broken.{first_broken, inner, is_before, least, breaks};
ghost use Rattle.fst_names.specs.Names.{unless};

use fst_base::{Pos, Rule};

/// A rule that is broken at a place.
#[derive(Clone, Copy, Debug)]
pub struct Broken {
    pub at: Pos,
    pub rule: Rule,
}

/// Whether the first stands at the smaller place, and there has the smaller number.
fn is_before(first: Broken, second: Broken) -> bool
    ensures { result ≡ is_before first second }
{
    first.at.at < second.at.at
        || (first.at.at == second.at.at && first.rule as u8 <= second.rule as u8)
}

/// The one of the two that answers.
pub fn least(first: Option<Broken>, second: Option<Broken>) -> Option<Broken>
    ensures { result ≡ least first second }
{
    match (first, second) {
        (None, _) => second,
        (Some(_), None) => first,
        (Some(b), Some(c)) => { if is_before(b, c) { first } else { second } }
    }
}

/// What the parts break, else what the whole breaks by itself.
pub fn inner(parts: Option<Broken>, own: Option<Broken>) -> Option<Broken>
    ensures { result ≡ inner parts own }
{
    match parts {
        None => own,
        Some(_) => parts,
    }
}

/// The rule, broken at the place unless the test is true.
pub fn unless(test: bool, rule: Rule, at: Pos) -> Option<Broken>
    ensures { result ≡ first_broken (unless test (breaks rule at.at)) }
{
    if test {
        None
    } else {
        Some(Broken { at, rule })
    }
}
