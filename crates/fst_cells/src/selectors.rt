//! The parts that selectors find.

ghost use Rattle.std.specs.Prelude.{◌≡◌, Some};
ghost use Rattle.fst_base.specs.Sorts.{Srt};
ghost use Rattle.fst_base.specs.declared.op.Op.TheVariants as row;
ghost use Rattle.fst_base.specs.Values.{Val};
ghost use Rattle.fst_base.specs.Primitives.{fst_of, snd_of, hd_of, tl_of, the_of, outl_of, outr_of};
ghost use Rattle.fst_cells.specs.Made.{PartIs, lacks};
ghost use Rattle.fst_cells.specs.Trees.{NodeIs};
ghost use Rattle.fst_cells.specs.declared.cell.Cell.{Cell as C};
ghost use Rattle.fst_cells.specs.declared.cell.Node.TheVariants as node;
ghost use Rattle.fst_cells.specs.declared.store.Store.{Store as M};

use crate::cell::{Cell, Node};

impl Node {
    pub(crate) fn fst(self) -> Option<Cell>
        ensures part { (m : M) (v : Val) (S : Srt) → NodeIs m self v → PartIs m result S (fst_of S v) (lacks row.Fst v) }
        ensures found { (x y : C) → self ≡ node.Pair x y → result ≡ Some x }
    {
        match self {
            Node::Pair(part, _) => Some(part),
            _ => None,
        }
    }

    pub(crate) fn snd(self) -> Option<Cell>
        ensures part { (m : M) (v : Val) (S : Srt) → NodeIs m self v → PartIs m result S (snd_of S v) (lacks row.Snd v) }
        ensures found { (x y : C) → self ≡ node.Pair x y → result ≡ Some y }
    {
        match self {
            Node::Pair(_, part) => Some(part),
            _ => None,
        }
    }

    pub(crate) fn hd(self) -> Option<Cell>
        ensures part { (m : M) (v : Val) (S : Srt) → NodeIs m self v → PartIs m result S (hd_of S v) (lacks row.Hd v) }
        ensures found { (x y : C) → self ≡ node.Cons x y → result ≡ Some x }
    {
        match self {
            Node::Cons(part, _) => Some(part),
            _ => None,
        }
    }

    pub(crate) fn tl(self) -> Option<Cell>
        ensures part { (m : M) (v : Val) (S : Srt) → NodeIs m self v → PartIs m result S (tl_of S v) (lacks row.Tl v) }
        ensures found { (x y : C) → self ≡ node.Cons x y → result ≡ Some y }
    {
        match self {
            Node::Cons(_, part) => Some(part),
            _ => None,
        }
    }

    pub(crate) fn the(self) -> Option<Cell>
        ensures part { (m : M) (v : Val) (S : Srt) → NodeIs m self v → PartIs m result S (the_of S v) (lacks row.The v) }
        ensures found { (x : C) → self ≡ node.Just x → result ≡ Some x }
    {
        match self {
            Node::Just(part) => Some(part),
            _ => None,
        }
    }

    pub(crate) fn outl(self) -> Option<Cell>
        ensures part { (m : M) (v : Val) (S : Srt) → NodeIs m self v → PartIs m result S (outl_of S v) (lacks row.Outl v) }
        ensures found { (x : C) → self ≡ node.Left x → result ≡ Some x }
    {
        match self {
            Node::Left(part) => Some(part),
            _ => None,
        }
    }

    pub(crate) fn outr(self) -> Option<Cell>
        ensures part { (m : M) (v : Val) (S : Srt) → NodeIs m self v → PartIs m result S (outr_of S v) (lacks row.Outr v) }
        ensures found { (x : C) → self ≡ node.Right x → result ≡ Some x }
    {
        match self {
            Node::Right(part) => Some(part),
            _ => None,
        }
    }
}
