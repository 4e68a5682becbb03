ghost use Rattle.std.specs.Prelude.{◌≡◌, ◌↔◌, true, false, IsErr, IfOk};
ghost use Rattle.prime_field.specs.ListedPrimes.{is_listed};
ghost use Rattle.prime_field.specs.PrimeFields.{IsPrimeField};

use crate::inverse::inverse;
use crate::product::product;
use alg_core::Field;

/// The characteristic is none of 2, 3, 5, 7, 11, 257, 32003.
#[derive(Clone, Copy, Debug, PartialEq, Eq)]
pub struct NotListed;

/// The field GF(p): its elements are the numbers 0 to p - 1, and each is its own number.
#[derive(Clone, Copy, Debug, PartialEq, Eq)]
pub struct PrimeField {
    p: u16,
    ghost listed: { is_listed p ≡ true },
}

impl PrimeField {
    /// The field of characteristic `p`.
    pub fn new(p: u32) -> Result<PrimeField, NotListed>
        ensures not_listed { IsErr result ↔ (is_listed p ≡ false) }
        ensures field { IfOk result (λ f. IsPrimeField p (⟦<PrimeField as Field>⟧.field f)) }
    {
        match p {
            2 | 3 | 5 | 7 | 11 | 257 | 32003 => Ok(PrimeField { p: p as u16 }),
            _ => Err(NotListed),
        }
    }
}

impl Field for PrimeField {
    ghost use Rattle.prime_field.specs.PrimeFields.{gfp, exact_numbers};

    type Elem = u16;

    ghost field = { λ f. gfp f.p f.listed };

    ghost exact = { exact_numbers };

    fn has(&self, a: u16) -> bool {
        a < self.p
    }

    fn zero(&self) -> u16 {
        0
    }

    fn one(&self) -> u16 {
        1
    }

    #[inline(always)]
    fn add(&self, a: u16, b: u16) -> u16 {
        let gap = self.p - b;
        if a < gap { a + b } else { a - gap }
    }

    fn neg(&self, a: u16) -> u16 {
        (self.p - a) % self.p
    }

    #[inline(always)]
    fn mul(&self, a: u16, b: u16) -> u16 {
        product(self.p, a, b)
    }

    fn inv(&self, a: u16) -> Option<u16> {
        if a == 0 {
            return None;
        }
        Some(inverse(self.p, a))
    }

    fn size(&self) -> u32 {
        u32::from(self.p)
    }

    fn characteristic(&self) -> u32 {
        u32::from(self.p)
    }

    fn number(&self, a: u16) -> u32 {
        a.into()
    }

    fn of_number(&self, k: u32) -> u16 {
        k as u16
    }
}
