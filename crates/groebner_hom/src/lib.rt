//! Ideals of homogeneous polynomials: their bases, membership, nonzerodivisors and lifts.
#![tactic(auto)]

mod by_basis;
mod colon;
mod exponents;
mod ideal;
mod laws;
mod least_powers;
mod lifts;
mod nonzerodivisor;

pub use by_basis::is_nonzerodivisor_by_basis;
pub use exponents::least_exponents;
pub use ideal::{ideal_basis, member};
pub use laws::{colon_modules, ideals_with_marks, regular_forms};
pub use least_powers::powers;
pub use lifts::{lifted_basis, relations};
pub use nonzerodivisor::is_nonzerodivisor;
