use fst_terms::Mark;

/// A mark that a refutation uses, of an atom by its number from 1. False stands also for less and greater, where their falsity alone is
/// used.
#[derive(Clone, Copy, Debug)]
pub struct Known {
    pub atom: u32,
    pub mark: Mark,
}
