//! Vectors and polynomials over a field and an order of terms: finite maps with sum, product and
//! substitution.
#![tactic(auto)]

mod constructors;
mod copies;
mod degrees;
mod greatest;
mod laws;
mod lookups;
mod merge;
mod module_laws;
mod multiple;
mod product;
mod signs;
mod substitution;
mod vector;
mod whole;

pub use constructors::{monomial, one, variable};
pub use copies::copy;
pub use degrees::{degree, is_homogeneous};
pub use greatest::lead;
pub use laws::{
    combinations, combinations_in_degree, echelon_lists, form_degrees, greedy_choices,
    independent_lists, mark_values, module_elements, reduced_bases, selections, substitutions,
    vector_degrees, vector_leads, vector_products,
};
pub use lookups::{are_equal, coefficient};
pub use merge::{add, sub};
pub use module_laws::{mark_translations, reduced_variables, relation_ideals, second_blocks};
pub use multiple::{mul_term, scale};
pub use product::mul;
pub use substitution::substitute;
pub use vector::{Comb, Poly, Vector};
pub use whole::{make, single};
