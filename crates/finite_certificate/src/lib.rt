//! Ideals, standard monomials, and powers of the variables that make the polynomials a finite module.
#![tactic(auto)]

mod laws;
mod power;
mod spreading;
mod verification;

pub use laws::{coordinates_exist, finite_modules, relation_leads, standard_monomials};
pub use power::Power;
pub use spreading::spread;
pub use verification::verify;
