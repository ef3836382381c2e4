ghost use Rattle.std.specs.Prelude.{◌≡◌, IfOk};

use fst_base::OutOfMemory;
use fst_cert::Line;
use std::alloc::Global;

/// An equation of two numbered terms, and the line that gives it.
#[derive(Debug, Drop)]
pub struct Equation {
    pub left: u32,
    pub right: u32,
    pub by: Line,
}

impl Equation {
    /// An equal equation.
    pub fn copy(&self, alloc: Global) -> Result<Equation, OutOfMemory>
        ensures { IfOk result (λ equation. equation ≡ self.now) }
    {
        Ok(Equation {
            left: self.left,
            right: self.right,
            by: self.by.copy(alloc)?,
        })
    }
}
