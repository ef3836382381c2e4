// The rows of arithmetic.

ghost use Rattle.std.specs.Prelude.{◌≡◌, ◌+ℤ◌, ◌-ℤ◌, ◌*ℤ◌, neg_ℤ, pos, false, IfSome, None, Ok, Err};
ghost use Rattle.std.specs.Ordering.{int_eq};
ghost use Rattle.std.specs.Int.{int_div_euclid};
ghost use Rattle.fst_base.specs.Primitives.{quotient, remainder};
ghost use Rattle.fst_cells.specs.Made.{NumberIs};

use fst_prims::PrimFault;

/// The number, or past range where there is none.
fn within(answer: Option<i128>) -> Result<i128, PrimFault>
    ensures some { IfSome answer (λ n. result ≡ Ok n) }
    ensures none { answer ≡ None → result ≡ Err PrimFault.PastRange }
{
    match answer {
        Some(number) => Ok(number),
        None => Err(PrimFault::PastRange),
    }
}

pub(crate) fn add(a: i128, b: i128) -> Result<i128, PrimFault>
    ensures { NumberIs (a +ℤ b) false result }
{
    within(a.checked_add(b))
}

pub(crate) fn sub(a: i128, b: i128) -> Result<i128, PrimFault>
    ensures { NumberIs (a -ℤ b) false result }
{
    within(a.checked_sub(b))
}

pub(crate) fn mul(a: i128, b: i128) -> Result<i128, PrimFault>
    ensures { NumberIs (a *ℤ b) false result }
{
    within(a.checked_mul(b))
}

/// The number, which is one of 128 bits.
pub(crate) fn exact(number: i128) -> Result<i128, PrimFault>
    ensures { NumberIs number false result }
{
    Ok(number)
}

pub(crate) fn div(a: i128, b: i128) -> Result<i128, PrimFault>
    ensures { NumberIs (quotient a b) (int_eq b (pos 0)) result }
{
    if b == 0 {
        return Err(PrimFault::ZeroDivisor);
    }
    div_euclid(a, b)
}

fn div_euclid(a: i128, b: i128) -> Result<i128, PrimFault>
    requires { b ≡ pos 0 → ⊥ }
    ensures { NumberIs (int_div_euclid a b) false result }
{
    within(a.checked_div_euclid(b))
}

pub(crate) fn rem(a: i128, b: i128) -> Result<i128, PrimFault>
    ensures { NumberIs (remainder a b) (int_eq b (pos 0)) result }
{
    if b == 0 {
        return Err(PrimFault::ZeroDivisor);
    }
    // The quotient of the least number by -1 is past 128 bits, and its remainder is not.
    if b == -1 {
        return Ok(0);
    }
    Ok(a.rem_euclid(b))
}

pub(crate) fn neg(a: i128) -> Result<i128, PrimFault>
    ensures { NumberIs (neg_ℤ a) false result }
{
    within(a.checked_neg())
}
