// Arguments of a known form, opened.

ghost use Rattle.std.specs.Prelude.{◌≡◌, [], ◌∷◌, map};
ghost use Rattle.fst_base.specs.Values.{plain_value, chain, v_int, v_pair};
ghost use Rattle.fst_prims.specs.Opened.{AreTwoInts, IsOneInt, AreTwo, IsOne, IsOnePair, IsOneList, IsOneAndList};

use fst_base::Value;

pub fn two_ints(args: &[Value]) -> (i128, i128)
    requires { AreTwoInts args.now }
    ensures { map plain_value args.now ≡ v_int result.0 ∷ v_int result.1 ∷ [] }
{
    match args {
        [Value::Int(a), Value::Int(b)] => (*a, *b),
        _ => unreachable!(),
    }
}

pub fn one_int(args: &[Value]) -> i128
    requires { IsOneInt args.now }
    ensures { map plain_value args.now ≡ v_int result ∷ [] }
{
    match args {
        [Value::Int(a)] => *a,
        _ => unreachable!(),
    }
}

pub fn two(args: &[Value]) -> (&Value, &Value)
    requires { AreTwo args.now }
    ensures { map plain_value args.now ≡ plain_value result.0.now ∷ plain_value result.1.now ∷ [] }
{
    match args {
        [a, b] => (a, b),
        _ => unreachable!(),
    }
}

pub fn one(args: &[Value]) -> &Value
    requires { IsOne args.now }
    ensures { map plain_value args.now ≡ plain_value result.now ∷ [] }
{
    match args {
        [a] => a,
        _ => unreachable!(),
    }
}

pub fn one_pair(args: &[Value]) -> (&Value, &Value)
    requires { IsOnePair args.now }
    ensures { map plain_value args.now
        ≡ v_pair (plain_value result.0.now) (plain_value result.1.now) ∷ [] }
{
    match args {
        [Value::Pair(a, b)] => (a.get(), b.get()),
        _ => unreachable!(),
    }
}

pub fn one_list(args: &[Value]) -> &[Value]
    requires { IsOneList args.now }
    ensures { map plain_value args.now ≡ chain (map plain_value result.now) ∷ [] }
{
    match args {
        [Value::List(items)] => items.as_slice(),
        _ => unreachable!(),
    }
}

pub fn one_and_list(args: &[Value]) -> (&Value, &[Value])
    requires { IsOneAndList args.now }
    ensures { map plain_value args.now
        ≡ plain_value result.0.now ∷ chain (map plain_value result.1.now) ∷ [] }
{
    match args {
        [first, Value::List(items)] => (first, items.as_slice()),
        _ => unreachable!(),
    }
}
