//! The sort of a value in the place of a result's.

ghost use Rattle.std.specs.Prelude.{◌≡◌, IfOk};
ghost use Rattle.fst_base.specs.Sorts.{plain_sort, put_sorts, s_b};

use fst_base::{Box, OutOfMemory, Sort, boxed, pair};
use std::alloc::Global;

/// The sort with this one in place of `a`, on the heap.
#[cycle(put_value)]
pub fn put_value(alloc: Global, sort: &Sort, value: &Sort) -> Result<Box<Sort>, OutOfMemory>
    ensures { IfOk result (λ made. plain_sort made ≡ put_sorts (plain_sort value.now) s_b (plain_sort sort.now)) }
{
    boxed(alloc, put(alloc, sort, value))
}

/// The sort with this one in place of `a`.
#[cycle(put_value)]
#[tactic(auto, using(crate::proofs::WrittenLemmas::plain_sorts))]
fn put(alloc: Global, sort: &Sort, value: &Sort) -> Result<Sort, OutOfMemory>
    ensures { IfOk result (λ made. plain_sort made ≡ put_sorts (plain_sort value.now) s_b (plain_sort sort.now)) }
{
    match sort {
        Sort::VarA => value.copy(alloc),
        Sort::VarB => Ok(Sort::VarB),
        Sort::Unit => Ok(Sort::Unit),
        Sort::Bool => Ok(Sort::Bool),
        Sort::Int => Ok(Sort::Int),
        Sort::Pair(left, right) => {
            let left = put_value(alloc, left.get(), value);
            let (left, right) = pair(left, put_value(alloc, right.get(), value))?;
            Ok(Sort::Pair(left, right))
        }
        Sort::Opt(item) => Ok(Sort::Opt(put_value(alloc, item.get(), value)?)),
        Sort::List(item) => Ok(Sort::List(put_value(alloc, item.get(), value)?)),
        Sort::Either(left, right) => {
            let left = put_value(alloc, left.get(), value);
            let (left, right) = pair(left, put_value(alloc, right.get(), value))?;
            Ok(Sort::Either(left, right))
        }
    }
}
