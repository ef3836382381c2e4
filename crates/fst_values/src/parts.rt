// Parts of a value: none where a number in them is past 128 bits.

ghost use Rattle.std.specs.Prelude.{List, ◌++◌, ◌∷◌, [], IfOk};
ghost use Rattle.fst_base.specs.Values.{Val, chain, v_pair, v_some, v_inl, v_inr};
ghost use Rattle.fst_values.specs.Reading.{Part, Parts};

use fst_base::{Box, OutOfMemory, Seq, Value};
use std::alloc::Global;

pub fn pair(
    alloc: Global,
    first: Option<Value>,
    second: Option<Value>,
) -> Result<Option<Value>, OutOfMemory>
    ensures { IfOk result (λ r. (v w : Val) → Part v first → Part w second → Part (v_pair v w) r) }
{
    match (first, second) {
        (Some(first), Some(second)) => {
            let first = Box::new(alloc, first)?;
            Ok(Some(Value::Pair(first, Box::new(alloc, second)?)))
        }
        _ => Ok(None),
    }
}

pub fn just(alloc: Global, part: Option<Value>) -> Result<Option<Value>, OutOfMemory>
    ensures { IfOk result (λ r. (w : Val) → Part w part → Part (v_some w) r) }
{
    match part {
        Some(part) => Ok(Some(Value::Just(Box::new(alloc, part)?))),
        None => Ok(None),
    }
}

pub fn left(alloc: Global, part: Option<Value>) -> Result<Option<Value>, OutOfMemory>
    ensures { IfOk result (λ r. (w : Val) → Part w part → Part (v_inl w) r) }
{
    match part {
        Some(part) => Ok(Some(Value::Left(Box::new(alloc, part)?))),
        None => Ok(None),
    }
}

pub fn right(alloc: Global, part: Option<Value>) -> Result<Option<Value>, OutOfMemory>
    ensures { IfOk result (λ r. (w : Val) → Part w part → Part (v_inr w) r) }
{
    match part {
        Some(part) => Ok(Some(Value::Right(Box::new(alloc, part)?))),
        None => Ok(None),
    }
}

/// The items with one more at their end.
pub fn with_item(
    items: Option<Seq<Value>>,
    part: Option<Value>,
) -> Result<Option<Seq<Value>>, OutOfMemory>
    ensures { IfOk result (λ r. (ws : List Val) (w : Val) → Parts ws items → Part w part → Parts (ws ++ w ∷ []) r) }
{
    match (items, part) {
        (Some(mut items), Some(part)) => {
            items.push(part)?;
            Ok(Some(items))
        }
        (Some(_), None) => Ok(None),
        (None, _) => Ok(None),
    }
}

pub fn list(items: Option<Seq<Value>>) -> Option<Value>
    ensures { (ws : List Val) → Parts ws items → Part (chain ws) result }
{
    match items {
        Some(items) => Some(Value::List(items)),
        None => None,
    }
}
