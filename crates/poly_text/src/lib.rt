//! Polynomial texts: one text for each polynomial, read exactly, and each fault the first one.
#![tactic(auto)]

mod combination_texts;
mod combinations;
mod digits;
mod factors;
mod fault;
mod grammar;
mod laws;
mod monomials;
mod names;
mod output;
mod print;
mod read;
mod scan;
mod syntax;
mod values;

pub use combination_texts::read_comb;
pub use combinations::{print_comb, put_comb};
pub use digits::Digits;
pub use fault::TextFault;
pub use grammar::{is_monomial_text, is_polynomial_text};
pub use laws::{printed_texts, trees_of_texts};
pub use monomials::read_monomial;
pub use names::Names;
pub use output::Output;
pub use print::{print_poly, put_monomial, put_number, put_poly, put_residue};
pub use read::read_poly;
pub use syntax::Mark;
