use alg_core::Mono;
use poly_module::{Comb, Poly};

/// Why every invariant is a combination of the secondary invariants.
#[derive(Drop)]
pub enum Evidence<E> {
    /// The averages of the standard monomials are, and every invariant is a combination of these.
    Reynolds(Vec<Image<E>>),
    /// The values of the fixed members of the kernel are, and every invariant is a combination of these.
    Kernel(Vec<Line<E>>),
}

/// A standard monomial, and its average as a combination of the secondary invariants.
#[derive(Drop)]
pub struct Image<E> {
    pub mono: Mono,
    pub comb: Comb<E>,
}

/// A member of the kernel, in the variables and the marks `@`: it is moved where it has no combination,
/// else it is fixed, and its value is this combination of the secondary invariants.
#[derive(Drop)]
pub struct Line<E> {
    pub u: Poly<E>,
    pub comb: Option<Comb<E>>,
}
