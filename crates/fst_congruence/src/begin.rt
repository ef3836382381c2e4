ghost use Rattle.std.specs.Prelude.{◌≡◌, ◌<◌, ◌^◌, ℕ, false, length, get_or, IfOk};
ghost use Rattle.fst_congruence.specs.Classes.{why_at};

use crate::why::Why;
use fst_base::{OutOfMemory, Seq};
use std::alloc::Global;

/// The numbers from 0: each term is its own label.
pub fn labels_of_their_own(alloc: Global, count: usize) -> Result<Seq<u32>, OutOfMemory>
    requires { count < 2 ^ 32 }
    ensures { IfOk result (λ labels. (length labels ≡ count) × ((i : ℕ) → i < count → get_or labels i 0 ≡ i)) }
{
    let mut labels = Seq::new(alloc);
    for at in 0..count {
        labels.push(at as u32)?;
    }
    Ok(labels)
}

/// For so many terms the reason why each equals itself.
pub fn no_reasons(alloc: Global, count: usize) -> Result<Seq<Why>, OutOfMemory>
    ensures { IfOk result (λ whys. (length whys ≡ count) × ((i : ℕ) → (why_at whys i).line ≡ 0)) }
{
    let mut whys = Seq::new(alloc);
    for _at in 0..count {
        let (line, turned) = (0, false);
        whys.push(Why { line, turned })?;
    }
    Ok(whys)
}

/// As many zeros.
pub fn zeros(alloc: Global, count: usize) -> Result<Seq<u32>, OutOfMemory>
    ensures { IfOk result (λ zeros. (length zeros ≡ count) × ((i : ℕ) → get_or zeros i 0 ≡ 0)) }
{
    let mut zeros = Seq::new(alloc);
    for _at in 0..count {
        zeros.push(0)?;
    }
    Ok(zeros)
}
