//! The Reynolds operator of a finite group of matrices whose order is not 0 in the field.
#![tactic(auto)]

mod laws;
mod reynolds;

pub use laws::{averages, generated_averages};
pub use reynolds::Reynolds;
