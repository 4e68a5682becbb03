ghost use Rattle.std.specs.Prelude.{◌≡◌, true};
ghost use Rattle.prime_field.specs.ListedPrimes.{is_listed};
ghost use Rattle.prime_field.specs.PrimeFields.{IsPrimeField};

use alg_core::Field;
use prime_field::PrimeField;

/// The prime field of a characteristic.
pub(crate) fn field_of(characteristic: u32) -> PrimeField
    requires listed { is_listed characteristic ≡ true }
    ensures is { IsPrimeField characteristic (⟦<PrimeField as Field>⟧.field result) }
{
    PrimeField::new(characteristic).unwrap()
}
