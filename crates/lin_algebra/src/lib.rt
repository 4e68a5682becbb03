//! Matrices over a field: products, reduced row echelon form, kernels, linear systems and inverses.
#![tactic(auto)]

mod elimination;
mod forms;
mod inverses;
mod laws;
mod matrix;
mod products;
mod rows;
mod systems;

pub use forms::{echelon, kernel};
pub use inverses::{identity, inverse};
pub use laws::{echelon_is_unique, solution_is_greedy, solution_is_unique};
pub use matrix::{Echelon, Matrix};
pub use products::multiply;
pub use systems::solve;
