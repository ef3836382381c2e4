ghost use Rattle.std.specs.Prelude.{◌≡◌};
ghost use Rattle.std.specs.Int.{int_signum};

use fst_base::Seq;

/// A number times an unknown.
#[derive(Clone, Copy, Debug)]
pub struct Coef {
    pub unknown: u32,
    pub by: i128,
}

/// The row `0 <= constant + sum of coefs`.
#[derive(Debug, Drop)]
pub struct Row {
    pub constant: i128,
    pub coefs: Seq<Coef>,
}

impl Row {
    /// -1, 0 or 1 where the constant is negative, 0 or positive.
    pub fn sign(&self) -> i8
        ensures { result ≡ int_signum self.now.constant }
    {
        if self.constant < 0 {
            -1
        } else if self.constant == 0 {
            0
        } else {
            1
        }
    }
}
