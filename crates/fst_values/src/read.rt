ghost use Rattle.std.specs.Prelude.{◌≡◌, Err, IfOk};
ghost use Rattle.fst_base.specs.Primitives.{InRange};
ghost use Rattle.fst_base.specs.Sorts.{plain_sort};
ghost use Rattle.fst_base.specs.Values.{Val, Has, plain_value};
ghost use Rattle.fst_values.specs.Texts.{IsText};

use crate::fault::ValueFault;
use crate::reader::Reader;
use crate::values::value;
use fst_base::{Sort, Value};
use std::alloc::Global;

/// The value whose texts at the sort hold the bytes. A sort that holds a variable has no texts.
///
/// `NumberTooWide` where a number of that value is past 128 bits, `NotAValue` where there is no
/// such value.
pub fn read_value(alloc: Global, bytes: &[u8], sort: &Sort) -> Result<Value, ValueFault>
    ensures value { IfOk result (λ v. IsText (plain_sort sort.now) (plain_value v) bytes.now) }
    ensures only { IfOk result (λ v.
        (w : Val) → IsText (plain_sort sort.now) w bytes.now → w ≡ plain_value v) }
    ensures sort { IfOk result (λ v. Has (plain_sort sort.now) (plain_value v)) }
    ensures in_range { IfOk result (λ v. InRange (plain_value v)) }
    ensures too_wide { result ≡ Err ValueFault.NumberTooWide
        → (w : Val) × (IsText (plain_sort sort.now) w bytes.now × ¬ InRange w) }
    ensures no_value { result ≡ Err ValueFault.NotAValue
        → (w : Val) → ¬ IsText (plain_sort sort.now) w bytes.now }
{
    let mut reader = Reader::new(bytes);
    let part = value(alloc, &mut reader, sort)?;
    if !reader.is_at_end() {
        return Err(ValueFault::NotAValue);
    }
    match part {
        Some(value) => Ok(value),
        None => Err(ValueFault::NumberTooWide),
    }
}
