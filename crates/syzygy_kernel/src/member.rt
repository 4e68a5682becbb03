use poly_module::Poly;

/// A member of kernel evidence: a polynomial in the variables and the marks, and whether each matrix
/// fixes its value.
#[derive(Drop)]
pub struct Member<E> {
    pub u: Poly<E>,
    pub is_fixed: bool,
}
