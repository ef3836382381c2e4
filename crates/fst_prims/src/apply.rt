ghost use Rattle.std.specs.Prelude.{◌≡◌, ◌↔◌, map, IsTrue, IfOk};
ghost use Rattle.fst_base.specs.Primitives.{prim, is_wide, divides_by_zero};
ghost use Rattle.fst_base.specs.Sorts.{plain_sort};
ghost use Rattle.fst_base.specs.Values.{plain_value};

use crate::fault::PrimFault;
use crate::table::Prims;
use crate::{data, numbers, selectors};
use fst_base::{Op, Sort, Value};
use std::alloc::Global;

// The match over the rows of the table.
macro_rules! by_row {
    ($op:expr; $($row:ident => $answer:expr),+ $(,)?) => {
        match $op { $(Op::$row => $answer,)+ }
    };
}

impl Prims<24> {
    ghost use Rattle.fst_prims.specs.Arguments.{AreArguments};

    /// What a primitive gives on these arguments, where `sort` is the sort of its result.
    ///
    /// `PastRange` where that is a number outside 128 bits, `ZeroDivisor` at a division or a
    /// remainder by 0.
    pub fn apply(
        &self,
        alloc: Global,
        op: Op,
        args: &[Value],
        sort: &Sort,
    ) -> Result<Value, PrimFault>
        requires { AreArguments op (map plain_value args.now) (plain_sort sort.now) }
        ensures value { IfOk result (λ v.
            plain_value v ≡ prim op (plain_sort sort.now) (map plain_value args.now)) }
        ensures past_range { (result ≡ Err PrimFault.PastRange)
            ↔ IsTrue (is_wide (prim op (plain_sort sort.now) (map plain_value args.now))) }
        ensures zero_divisor { (result ≡ Err PrimFault.ZeroDivisor)
            ↔ IsTrue (divides_by_zero op (map plain_value args.now)) }
    {
        by_row!(op;
            Add => numbers::add(args, sort),
            Sub => numbers::sub(args, sort),
            Mul => numbers::mul(args, sort),
            Div => numbers::div(args, sort),
            Rem => numbers::rem(args, sort),
            Neg => numbers::neg(args, sort),
            Le => numbers::le(args, sort),
            Lt => numbers::lt(args, sort),
            Eq => data::eq(args, sort),
            Pair => data::pair(alloc, args, sort),
            Fst => selectors::fst(alloc, args, sort),
            Snd => selectors::snd(alloc, args, sort),
            Nothing => data::nothing(args, sort),
            Just => data::just(alloc, args, sort),
            Nil => data::nil(alloc, args, sort),
            Cons => data::cons(alloc, args, sort),
            Inl => data::inl(alloc, args, sort),
            Inr => data::inr(alloc, args, sort),
            Len => selectors::len(args, sort),
            Hd => selectors::hd(alloc, args, sort),
            Tl => selectors::tl(alloc, args, sort),
            The => selectors::the(alloc, args, sort),
            Outl => selectors::outl(alloc, args, sort),
            Outr => selectors::outr(alloc, args, sort),
        )
    }
}
