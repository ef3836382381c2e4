//! Equations of two bools, which are read through.

ghost use Rattle.std.specs.Prelude.{◌≡◌, IfOk};
ghost use Rattle.fst_base.specs.declared.op.Op.TheVariants as op;
ghost use Rattle.fst_shapes.specs.Preparing.{sorts_in};
ghost use Rattle.fst_shapes.specs.Relations.{is_same};
ghost use Rattle.fst_terms.specs.Terms.{plain_terms};

use crate::sorting::is_data_term;
use fst_base::{Op, OutOfMemory, Sort};
use fst_terms::Term;
use std::alloc::Global;

/// Whether a term of this operator is an equation of two bools, which is read through.
pub fn is_same(alloc: Global, op: Op, args: &[Term], sorts: &[Sort]) -> Result<bool, OutOfMemory>
    ensures { IfOk result (λ b. b ≡ is_same (sorts_in sorts.now) op (plain_terms args.now)) }
{
    match op {
        Op::Eq => are_bools(alloc, args, sorts),
        _ => Ok(false),
    }
}

/// Whether these are two bools, by the sort of the first.
fn are_bools(alloc: Global, args: &[Term], sorts: &[Sort]) -> Result<bool, OutOfMemory>
    ensures { IfOk result (λ b. b ≡ is_same (sorts_in sorts.now) op.Eq (plain_terms args.now)) }
{
    if args.len() != 2 {
        return Ok(false);
    }
    Ok(!is_data_term(alloc, sorts, &args[0])?)
}
