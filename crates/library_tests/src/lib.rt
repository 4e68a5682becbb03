//! Tests of the libraries: each public call once where it answers, at concrete types, and values that
//! come from outside. What a clause says is proved, and is not tested here. `run_in_memory` is an
//! example of use.
#![tactic(auto)]

#[cfg(test)]
mod arithmetic;
#[cfg(test)]
mod averages;
#[cfg(test)]
mod bases;
#[cfg(test)]
mod groups;
#[cfg(test)]
mod linear_algebra;
#[cfg(test)]
mod outside;
#[cfg(test)]
mod prime_fields;
mod runs;
#[cfg(test)]
mod scripts;
#[cfg(test)]
mod terms;
#[cfg(test)]
mod texts;
#[cfg(test)]
mod vectors;

pub use runs::run_in_memory;
