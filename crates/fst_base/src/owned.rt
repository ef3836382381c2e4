//! Owned values, put together where a step may be refused. What was made is let go here, so that a caller owns nothing at the
//! exit of its `?`: the release of a tree stands once, in these calls, and not at each exit of each caller.

ghost use Rattle.std.specs.Prelude.{◌≡◌, ◌⊎◌, [], ◌∷◌, Ok, Err, IfOk, IfErr};

use crate::heap::Box;
use crate::memory::OutOfMemory;
use crate::seq::Seq;
use std::alloc::Global;

/// The first with what the second gives, or the second's fault.
pub fn both<A: Drop, B, E>(first: A, second: Result<B, E>) -> Result<(A, B), E>
    ensures ok { IfOk result (λ pair. (pair.0 ≡ first) × (second ≡ Ok pair.1)) }
    ensures err { IfErr result (λ fault. second ≡ Err fault) }
{
    match second {
        Ok(second) => Ok((first, second)),
        Err(fault) => Err(fault),
    }
}

/// What both give, or the fault of one: the first's, where both have one.
pub fn pair<A: Drop, B: Drop, E: Drop>(
    first: Result<A, E>,
    second: Result<B, E>,
) -> Result<(A, B), E>
    ensures ok { IfOk result (λ pair. (first ≡ Ok pair.0) × (second ≡ Ok pair.1)) }
    ensures err { IfErr result (λ fault. (first ≡ Err fault) ⊎ (second ≡ Err fault)) }
{
    match first {
        Ok(first) => both(first, second),
        Err(fault) => Err(fault),
    }
}

/// Lets what is owned go, and gives the fault.
pub fn refuse<A: Drop, B, E>(_owned: A, fault: E) -> Result<B, E>
    ensures { result ≡ Err fault }
{
    Err(fault)
}

/// The value on the heap, where there is one.
pub fn boxed<A: Drop>(alloc: Global, value: Result<A, OutOfMemory>) -> Result<Box<A>, OutOfMemory>
    ensures { IfOk result (λ made. value ≡ Ok made) }
{
    match value {
        Ok(value) => Box::new(alloc, value),
        Err(fault) => Err(fault),
    }
}

/// Two values on the heap.
pub fn boxes<A: Drop, B: Drop>(
    alloc: Global,
    first: A,
    second: B,
) -> Result<(Box<A>, Box<B>), OutOfMemory>
    ensures { IfOk result (λ pair. (pair.0 ≡ first) × (pair.1 ≡ second)) }
{
    let first = Box::new(alloc, first)?;
    let second = Box::new(alloc, second)?;
    Ok((first, second))
}

/// The list of one item.
pub fn one<A: Drop>(alloc: Global, item: A) -> Result<Seq<A>, OutOfMemory>
    ensures { IfOk result (λ items. items ≡ item ∷ []) }
{
    let mut items = Vec::with_capacity(alloc, 1)?;
    items.push_reserved(item);
    Ok(Seq::from_vec(items))
}

/// The list of two items.
pub fn two<A: Drop>(alloc: Global, first: A, second: A) -> Result<Seq<A>, OutOfMemory>
    ensures { IfOk result (λ items. items ≡ first ∷ second ∷ []) }
{
    let mut items = Vec::with_capacity(alloc, 2)?;
    items.push_reserved(first);
    items.push_reserved(second);
    Ok(Seq::from_vec(items))
}

/// The list of three items.
pub fn three<A: Drop>(alloc: Global, first: A, second: A, third: A) -> Result<Seq<A>, OutOfMemory>
    ensures { IfOk result (λ items. items ≡ first ∷ second ∷ third ∷ []) }
{
    let mut items = Vec::with_capacity(alloc, 3)?;
    items.push_reserved(first);
    items.push_reserved(second);
    items.push_reserved(third);
    Ok(Seq::from_vec(items))
}
