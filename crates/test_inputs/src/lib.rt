//! What the tests of the libraries are given: fields, spaces, polynomials, vectors and matrices, made
//! of short tables, with the conditions that the calls ask of them tested where they are made.
#![tactic(auto)]

mod matrices;
mod polynomials;
mod prime_fields;
mod vectors;

pub use matrices::{generators, matrix, values};
pub use polynomials::{
    are_three, has_places, has_polynomials, is_small, is_small_monomial, names, read, shown, space,
    space_by,
};
pub use prime_fields::field;
pub use vectors::{Entry, has_small_degrees, term, vector};
