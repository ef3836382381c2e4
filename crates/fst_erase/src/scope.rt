//! Variables once the ghost ones are gone.

ghost use Rattle.std.specs.Prelude.{◌≡◌, ◌+◌, ◌<◌, ◌^◌, if◌then◌else◌, reverse};
ghost use Rattle.fst_program.specs.Erasure.{kept};

/// The index of a variable among those that aren't ghost ones. Of the last variable the mark stands last.
pub(crate) fn kept(scope: &[bool], index: u32) -> u32
    ensures { result ≡ kept (reverse scope.now) index }
{
    let mut at = scope.len();
    let mut left = index;
    let mut shown = 0;
    'variables: while left > 0 {
        if at == 0 {
            return shown + left;
        }
        at -= 1;
        left -= 1;
        shown = one_more(shown, scope[at]);
    }
    shown
}

fn one_more(shown: u32, hidden: bool) -> u32
    requires { shown + 1 < 2 ^ 32 }
    ensures { result ≡ (if hidden then shown else shown + 1) }
{
    if hidden { shown } else { shown + 1 }
}
