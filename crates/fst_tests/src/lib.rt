//! Tests of the public calls of all crates: a crate with tests of its own is proved twice.
#![tactic(auto)]

#[cfg(test)]
mod answers;
#[cfg(test)]
mod code;
#[cfg(test)]
mod congruence;
#[cfg(test)]
mod flats;
#[cfg(test)]
mod function_facts;
#[cfg(test)]
mod lattices;
#[cfg(test)]
mod machine;
#[cfg(test)]
mod name_uses;
#[cfg(test)]
mod names;
#[cfg(test)]
mod outside;
#[cfg(test)]
mod primitives;
#[cfg(test)]
mod programs;
#[cfg(test)]
mod reading;
#[cfg(test)]
mod resolved;
#[cfg(test)]
mod rows;
#[cfg(test)]
mod terms;
#[cfg(test)]
mod tokens;
#[cfg(test)]
mod trees;
#[cfg(test)]
mod uses;
#[cfg(test)]
mod values;
