//! Flat forms: a sequent with facts, made ready for the provers.
#![tactic(auto)]

mod arguments;
mod arrangements;
mod atoms;
mod building;
mod clearing;
mod data_facts;
mod division_facts;
mod equations;
mod forms;
mod formulas;
mod gathering;
mod keyed;
mod keys;
mod lengths;
mod list_facts;
mod making;
mod name_facts;
mod naming;
mod numbering;
mod pairs;
mod preparing;
mod renaming;
mod sorting;
mod subterms;

pub use preparing::prepare;
