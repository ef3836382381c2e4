ghost use Rattle.std.specs.Prelude.{◌≡◌, not};

/// Why two terms are equal: the number of a line, which gives the equation, or gives it turned round; 0 where they are one term.
#[derive(Clone, Copy, Debug)]
pub struct Why {
    pub line: u32,
    pub turned: bool,
}

impl Why {
    /// Why the two are equal in the other order.
    pub fn back(self) -> Why
        ensures { result ≡ record { line = self.line; turned = not self.turned } }
    {
        Why {
            line: self.line,
            turned: !self.turned,
        }
    }
}
