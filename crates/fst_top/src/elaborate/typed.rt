use fst_base::{Name, Sort};
use fst_program::Comp;
use fst_terms::Term;

/// A sort that is built.
#[derive(Clone, Copy, Debug, PartialEq, Eq)]
pub enum BuiltSort {
    Bool,
    Unit,
}

impl BuiltSort {
    ghost use Rattle.std.specs.Prelude.{◌≡◌};
    ghost use Rattle.fst_base.specs.Sorts.{plain_sort};
    ghost use Rattle.fst_top.specs.Elaborating.{srt_of};

    /// The same as a sort.
    pub fn sort(self) -> Sort
        ensures { plain_sort result ≡ srt_of self }
    {
        match self {
            BuiltSort::Bool => Sort::Bool,
            BuiltSort::Unit => Sort::Unit,
        }
    }
}

/// A term and its sort.
#[derive(Drop)]
pub struct TypedTerm {
    pub term: Term,
    pub sort: BuiltSort,
}

/// Core text and the sort of its value.
#[derive(Drop)]
pub struct TypedText {
    pub text: Comp,
    pub sort: BuiltSort,
}

/// A variable in scope.
#[derive(Clone, Copy)]
pub struct Binding<'a> {
    pub name: &'a Name,
    pub sort: BuiltSort,
}
