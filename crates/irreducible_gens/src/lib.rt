//! Irreducible generators: secondary invariants of positive degree that generate, with the primary
//! invariants, all invariants as an algebra, none of them superfluous; and the one word that is
//! printed for an invariant.
#![tactic(auto)]

mod algebra;
mod choice;
mod laws;
mod printing;
mod reducible;

pub use choice::choose;
pub use laws::{algebras, chosen_places, printed_words};
pub use printing::{word, words};
pub use reducible::first_reducible;
