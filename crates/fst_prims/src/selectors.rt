// The rows that take data apart. On another constructor a selector gives the default of its result sort.

ghost use Rattle.std.specs.Prelude.{map};
ghost use Rattle.fst_base.specs.Sorts.{plain_sort};
ghost use Rattle.fst_base.specs.Values.{plain_value};
ghost use Rattle.fst_base.specs.declared.op.Op.TheVariants as row;
ghost use Rattle.fst_prims.specs.Answers.{Answers};
ghost use Rattle.fst_prims.specs.Opened.{IsOnePair, IsOneList, IsOneOption, IsOneEither};

use crate::arguments::{one_list, one_pair};
use crate::copies::{append_copies, copied, default_value};
use crate::fault::PrimFault;
use fst_base::{Seq, Sort, Value};
use std::alloc::Global;

pub fn fst(alloc: Global, args: &[Value], sort: &Sort) -> Result<Value, PrimFault>
    requires { IsOnePair args.now }
    ensures { Answers row.Fst (plain_sort sort.now) (map plain_value args.now) result }
{
    let (first, _) = one_pair(args);
    Ok(copied(alloc, first)?)
}

pub fn snd(alloc: Global, args: &[Value], sort: &Sort) -> Result<Value, PrimFault>
    requires { IsOnePair args.now }
    ensures { Answers row.Snd (plain_sort sort.now) (map plain_value args.now) result }
{
    let (_, second) = one_pair(args);
    Ok(copied(alloc, second)?)
}

pub fn len(args: &[Value], sort: &Sort) -> Result<Value, PrimFault>
    requires { IsOneList args.now }
    ensures { Answers row.Len (plain_sort sort.now) (map plain_value args.now) result }
{
    Ok(Value::Int(one_list(args).len() as i128))
}

pub fn hd(alloc: Global, args: &[Value], sort: &Sort) -> Result<Value, PrimFault>
    requires { IsOneList args.now }
    ensures { Answers row.Hd (plain_sort sort.now) (map plain_value args.now) result }
{
    match one_list(args) {
        [first, ..] => Ok(copied(alloc, first)?),
        [] => Ok(default_value(alloc, sort)?),
    }
}

pub fn tl(alloc: Global, args: &[Value], sort: &Sort) -> Result<Value, PrimFault>
    requires { IsOneList args.now }
    ensures { Answers row.Tl (plain_sort sort.now) (map plain_value args.now) result }
{
    match one_list(args) {
        [_, rest @ ..] => {
            let mut items = Seq::new(alloc);
            append_copies(alloc, &mut items, rest)?;
            Ok(Value::List(items))
        }
        [] => Ok(default_value(alloc, sort)?),
    }
}

pub fn the(alloc: Global, args: &[Value], sort: &Sort) -> Result<Value, PrimFault>
    requires { IsOneOption args.now }
    ensures { Answers row.The (plain_sort sort.now) (map plain_value args.now) result }
{
    match args {
        [Value::Just(part)] => Ok(copied(alloc, part.get())?),
        [Value::Nothing] => Ok(default_value(alloc, sort)?),
        _ => unreachable!(),
    }
}

pub fn outl(alloc: Global, args: &[Value], sort: &Sort) -> Result<Value, PrimFault>
    requires { IsOneEither args.now }
    ensures { Answers row.Outl (plain_sort sort.now) (map plain_value args.now) result }
{
    match args {
        [Value::Left(part)] => Ok(copied(alloc, part.get())?),
        [Value::Right(_)] => Ok(default_value(alloc, sort)?),
        _ => unreachable!(),
    }
}

pub fn outr(alloc: Global, args: &[Value], sort: &Sort) -> Result<Value, PrimFault>
    requires { IsOneEither args.now }
    ensures { Answers row.Outr (plain_sort sort.now) (map plain_value args.now) result }
{
    match args {
        [Value::Right(part)] => Ok(copied(alloc, part.get())?),
        [Value::Left(_)] => Ok(default_value(alloc, sort)?),
        _ => unreachable!(),
    }
}
