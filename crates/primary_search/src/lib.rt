//! The search for the first primary invariants: the candidates of each degree, and the walk along them.
#![tactic(auto)]

mod candidates;
mod ended;
mod fault;
mod laws;
mod primaries;
mod taken;
mod walk;

pub use fault::SearchFault;
pub use laws::{first_primaries, search_ends};
pub use primaries::search;
