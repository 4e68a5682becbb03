//! The action of matrices on polynomials, invariance under it, and the group that matrices generate.
#![tactic(auto)]

mod action;
mod enumeration;
mod fault;
mod group;
mod invariance;
mod laws;

pub use action::{act, row_form};
pub use enumeration::enumerate;
pub use fault::GroupFault;
pub use group::Group;
pub use invariance::is_invariant;
pub use laws::{actions, invariants, orders};
