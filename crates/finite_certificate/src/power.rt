use poly_module::Poly;

/// A power of a variable, by its exponent, and a polynomial in variables and marks that has it as value.
#[derive(Drop)]
pub struct Power<E> {
    pub exponent: u32,
    pub form: Poly<E>,
}
