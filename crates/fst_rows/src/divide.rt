// Greatest common divisors.

ghost use Rattle.std.specs.Prelude.{◌≡◌, ◌<◌, ◌^◌, length};
ghost use Rattle.std.specs.Int.{IsGcd};
ghost use Rattle.fst_terms.specs.Rows.{divisor};
ghost use Rattle.fst_rows.specs.Plain.{coefficients};

use crate::row::Coef;

/// The greatest common divisor, 0 of two zeros.
pub fn gcd(mut a: u128, mut b: u128) -> u128
    ensures { IsGcd a b result }
{
    while b != 0 {
        let rest = a % b;
        a = b;
        b = rest;
    }
    a
}

/// The greatest common divisor of the coefficients, 0 where there is none.
pub fn divisor(coefs: &[Coef]) -> u128
    ensures { result ≡ divisor (coefficients coefs.now) }
{
    let mut so_far = 0;
    let mut at = coefs.len();
    while at > 0 {
        at -= 1;
        so_far = gcd(coefs[at].by.unsigned_abs(), so_far);
    }
    so_far
}
