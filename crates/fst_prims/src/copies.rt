ghost use Rattle.std.specs.Prelude.{◌≡◌, ◌++◌, false, IfOk, OnOk};
ghost use Rattle.fst_base.specs.Primitives.{is_wide};
ghost use Rattle.fst_base.specs.Sorts.{plain_sort};
ghost use Rattle.fst_base.specs.Values.{default_of, plain_value};

use fst_base::{OutOfMemory, Seq, Sort, Value};
use std::alloc::Global;

/// An equal value. It is no number outside 128 bits.
pub fn copied(alloc: Global, part: &Value) -> Result<Value, OutOfMemory>
    ensures value { IfOk result (λ v. v ≡ part.now) }
    ensures narrow { is_wide (plain_value part.now) ≡ false }
{
    match part {
        Value::Int(number) => Ok(Value::Int(*number)),
        part => part.copy(alloc),
    }
}

/// The default value of a sort. It is no number outside 128 bits.
pub fn default_value(alloc: Global, sort: &Sort) -> Result<Value, OutOfMemory>
    ensures value { IfOk result (λ v. plain_value v ≡ default_of (plain_sort sort.now)) }
    ensures narrow { is_wide (default_of (plain_sort sort.now)) ≡ false }
{
    Value::default_of(alloc, sort)
}

/// Puts copies of the items at the end of the list.
pub fn append_copies(
    alloc: Global,
    list: &mut Seq<Value>,
    items: &[Value],
) -> Result<(), OutOfMemory>
    ensures { OnOk result (list.new ≡ list.old ++ items.now) }
{
    for item in items {
        list.push(item.copy(alloc)?)?;
    }
    Ok(())
}
