//! The prime fields GF(p) for the characteristics 2, 3, 5, 7, 11, 257 and 32003.
#![tactic(auto)]

mod gfp;
mod inverse;
mod product;

pub use gfp::{NotListed, PrimeField};
