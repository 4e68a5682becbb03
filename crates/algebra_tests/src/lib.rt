//! Tests of Gröbner bases, of evidence of finiteness and of generators: each public call once where it
//! answers, and values that come from outside. The conditions of the calls are tested where their
//! arguments are made; these tests are for other callers too.
#![tactic(auto)]

mod conditions;
mod forms;
#[cfg(test)]
mod generators;
#[cfg(test)]
mod groebner;

pub use conditions::{are_homogeneous, are_nonzero, is_positive};
pub use forms::{
    Summand, are_positive_forms, are_small_forms, do_not_fall, has_constants, is_small_form,
    polynomial, polynomials,
};
