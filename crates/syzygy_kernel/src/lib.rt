//! Kernel evidence: which polynomials some matrices fix, as members of a module over the polynomials in
//! their primary invariants, in every characteristic.
#![tactic(auto)]

mod evidence;
mod generators;
mod graph_space;
mod last_parts;
mod laws;
mod list_test;
mod member;
mod places;

pub use evidence::kernel;
pub use laws::{fixed_members, graph_bases, graph_elements, kernel_lists};
pub use list_test::is_kernel_list;
pub use member::Member;
