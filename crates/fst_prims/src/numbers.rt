// The rows of arithmetic and order.

ghost use Rattle.std.specs.Prelude.{◌≡◌, map, IfSome, None, Ok, Err};
ghost use Rattle.fst_base.specs.Sorts.{plain_sort};
ghost use Rattle.fst_base.specs.Values.{plain_value};
ghost use Rattle.fst_base.specs.declared.op.Op.TheVariants as row;
ghost use Rattle.fst_base.specs.declared.value.Value.TheVariants.{Int};
ghost use Rattle.fst_prims.specs.Answers.{Answers};
ghost use Rattle.fst_prims.specs.Opened.{AreTwoInts, IsOneInt};

use crate::arguments::{one_int, two_ints};
use crate::fault::PrimFault;
use fst_base::{Sort, Value};

/// The number, or past range where there is none.
fn number(answer: Option<i128>) -> Result<Value, PrimFault>
    ensures some { IfSome answer (λ n. result ≡ Ok (Int n)) }
    ensures none { answer ≡ None → result ≡ Err PrimFault.PastRange }
{
    match answer {
        Some(number) => Ok(Value::Int(number)),
        None => Err(PrimFault::PastRange),
    }
}

pub fn add(args: &[Value], sort: &Sort) -> Result<Value, PrimFault>
    requires { AreTwoInts args.now }
    ensures { Answers row.Add (plain_sort sort.now) (map plain_value args.now) result }
{
    let (a, b) = two_ints(args);
    number(a.checked_add(b))
}

pub fn sub(args: &[Value], sort: &Sort) -> Result<Value, PrimFault>
    requires { AreTwoInts args.now }
    ensures { Answers row.Sub (plain_sort sort.now) (map plain_value args.now) result }
{
    let (a, b) = two_ints(args);
    number(a.checked_sub(b))
}

pub fn mul(args: &[Value], sort: &Sort) -> Result<Value, PrimFault>
    requires { AreTwoInts args.now }
    ensures { Answers row.Mul (plain_sort sort.now) (map plain_value args.now) result }
{
    let (a, b) = two_ints(args);
    number(a.checked_mul(b))
}

pub fn div(args: &[Value], sort: &Sort) -> Result<Value, PrimFault>
    requires { AreTwoInts args.now }
    ensures { Answers row.Div (plain_sort sort.now) (map plain_value args.now) result }
{
    let (a, b) = two_ints(args);
    if b == 0 {
        return Err(PrimFault::ZeroDivisor);
    }
    number(a.checked_div_euclid(b))
}

pub fn rem(args: &[Value], sort: &Sort) -> Result<Value, PrimFault>
    requires { AreTwoInts args.now }
    ensures { Answers row.Rem (plain_sort sort.now) (map plain_value args.now) result }
{
    let (a, b) = two_ints(args);
    if b == 0 {
        return Err(PrimFault::ZeroDivisor);
    }
    // The quotient of the least number by -1 is past 128 bits, and its remainder is not.
    if b == -1 {
        return Ok(Value::Int(0));
    }
    Ok(Value::Int(a.rem_euclid(b)))
}

pub fn neg(args: &[Value], sort: &Sort) -> Result<Value, PrimFault>
    requires { IsOneInt args.now }
    ensures { Answers row.Neg (plain_sort sort.now) (map plain_value args.now) result }
{
    number(one_int(args).checked_neg())
}

pub fn le(args: &[Value], sort: &Sort) -> Result<Value, PrimFault>
    requires { AreTwoInts args.now }
    ensures { Answers row.Le (plain_sort sort.now) (map plain_value args.now) result }
{
    let (a, b) = two_ints(args);
    Ok(Value::Bool(a <= b))
}

pub fn lt(args: &[Value], sort: &Sort) -> Result<Value, PrimFault>
    requires { AreTwoInts args.now }
    ensures { Answers row.Lt (plain_sort sort.now) (map plain_value args.now) result }
{
    let (a, b) = two_ints(args);
    Ok(Value::Bool(a < b))
}
