//! The prime fields.

use prime_field::PrimeField;
use std::test::Fail;

/// GF(p), where p is one of the listed characteristics.
pub fn field(p: u32) -> Result<PrimeField, Fail> {
    match PrimeField::new(p) {
        Ok(field) => Ok(field),
        Err(_) => Err(Fail::new("not listed")),
    }
}
