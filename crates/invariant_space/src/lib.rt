//! The echelon basis of the invariants of one degree.
#![tactic(auto)]

mod count;
mod equations;
mod fault;
mod images;
mod invariants;
mod laws;
mod monomials;
mod polynomials;
mod quotients;

pub use fault::SpaceFault;
pub use invariants::basis;
pub use laws::echelon_bases;
