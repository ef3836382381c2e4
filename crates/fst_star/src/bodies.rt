use crate::wp::Wp;
use fst_base::{Box, Sort};

/// The computations of a header: the sorts of their results, and their transformers. The first has its input as the last
/// variable, the second its input as the last and its value as the one before.
#[derive(Drop)]
pub struct Bodies {
    pub first_sort: Sort,
    pub second_sort: Sort,
    pub first: Box<Wp>,
    pub second: Box<Wp>,
}
