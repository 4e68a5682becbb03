//! The polynomials as a free module over the algebra of the primary invariants: standard monomials and
//! coordinates.
#![tactic(auto)]

mod coordinates;
mod differences;
mod fault;
mod laws;
mod marks;
mod module;
mod positions;
mod standard;

pub use fault::RankFault;
pub use laws::{coordinate_laws, difference_laws, free_modules};
pub use marks::all_with_marks;
pub use module::PrimaryModule;
pub use positions::{position_degrees, position_translations, standard_positions};
