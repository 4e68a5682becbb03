//! Secondary invariants: a list over which, with primary invariants, every invariant is a combination,
//! and none of which is superfluous; and the one combination that is printed for an invariant.
#![tactic(auto)]

mod choice;
pub mod columns;
mod combination;
pub mod combinations;
pub mod degrees;
pub mod elimination;
mod keeping;
mod laws;
mod products;
pub mod redundance;

pub use choice::choose;
pub use combinations::{combine, combine_all};
pub use laws::{kept_lists, printed_combinations, secondary_invariants};
pub use redundance::first_redundant;
