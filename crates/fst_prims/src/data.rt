// Equality, and the rows that make data.

ghost use Rattle.std.specs.Prelude.{map};
ghost use Rattle.fst_base.specs.Sorts.{plain_sort};
ghost use Rattle.fst_base.specs.Values.{plain_value};
ghost use Rattle.fst_base.specs.declared.op.Op.TheVariants as row;
ghost use Rattle.fst_prims.specs.Answers.{Answers};
ghost use Rattle.fst_prims.specs.Opened.{AreNone, IsOne, AreTwo, IsOneAndList};

use crate::arguments::{one, one_and_list, two};
use crate::copies::append_copies;
use crate::fault::PrimFault;
use fst_base::{Box, Seq, Sort, Value};
use std::alloc::Global;

pub fn eq(args: &[Value], sort: &Sort) -> Result<Value, PrimFault>
    requires { AreTwo args.now }
    ensures { Answers row.Eq (plain_sort sort.now) (map plain_value args.now) result }
{
    let (a, b) = two(args);
    Ok(Value::Bool(a.same(b)))
}

pub fn pair(alloc: Global, args: &[Value], sort: &Sort) -> Result<Value, PrimFault>
    requires { AreTwo args.now }
    ensures { Answers row.Pair (plain_sort sort.now) (map plain_value args.now) result }
{
    let (first, second) = two(args);
    let first = Box::new(alloc, first.copy(alloc)?)?;
    Ok(Value::Pair(first, Box::new(alloc, second.copy(alloc)?)?))
}

pub fn nothing(args: &[Value], sort: &Sort) -> Result<Value, PrimFault>
    requires { AreNone args.now }
    ensures { Answers row.Nothing (plain_sort sort.now) (map plain_value args.now) result }
{
    Ok(Value::Nothing)
}

pub fn just(alloc: Global, args: &[Value], sort: &Sort) -> Result<Value, PrimFault>
    requires { IsOne args.now }
    ensures { Answers row.Just (plain_sort sort.now) (map plain_value args.now) result }
{
    Ok(Value::Just(Box::new(alloc, one(args).copy(alloc)?)?))
}

pub fn nil(alloc: Global, args: &[Value], sort: &Sort) -> Result<Value, PrimFault>
    requires { AreNone args.now }
    ensures { Answers row.Nil (plain_sort sort.now) (map plain_value args.now) result }
{
    Ok(Value::List(Seq::new(alloc)))
}

pub fn cons(alloc: Global, args: &[Value], sort: &Sort) -> Result<Value, PrimFault>
    requires { IsOneAndList args.now }
    ensures { Answers row.Cons (plain_sort sort.now) (map plain_value args.now) result }
{
    let (first, rest) = one_and_list(args);
    let mut items = Seq::new(alloc);
    items.push(first.copy(alloc)?)?;
    append_copies(alloc, &mut items, rest)?;
    Ok(Value::List(items))
}

pub fn inl(alloc: Global, args: &[Value], sort: &Sort) -> Result<Value, PrimFault>
    requires { IsOne args.now }
    ensures { Answers row.Inl (plain_sort sort.now) (map plain_value args.now) result }
{
    Ok(Value::Left(Box::new(alloc, one(args).copy(alloc)?)?))
}

pub fn inr(alloc: Global, args: &[Value], sort: &Sort) -> Result<Value, PrimFault>
    requires { IsOne args.now }
    ensures { Answers row.Inr (plain_sort sort.now) (map plain_value args.now) result }
{
    Ok(Value::Right(Box::new(alloc, one(args).copy(alloc)?)?))
}
