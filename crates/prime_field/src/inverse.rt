ghost use Rattle.std.specs.Prelude.{◌≡◌, ◌<◌};
ghost use Rattle.prime_field.specs.ListedPrimes.{NoDivisor};
ghost use Rattle.prime_field.specs.Residues.{mul_mod};

/// The number whose product with `a` is 1 modulo the prime `p`.
///
/// `left` is what `a * factor` leaves modulo `p`. A step takes `left` to `p % left`, since
/// `-(p / left) * left` leaves just that.
pub(crate) fn inverse(p: u16, a: u16) -> u16
    requires prime { NoDivisor p }
    requires positive { 0 < a }
    requires below { a < p }
    ensures below { result < p }
    ensures inverse { mul_mod p a result ≡ 1 }
{
    let modulus = p as u32;
    let mut left = a as u32;
    let mut factor = 1;
    while left > 1 {
        factor = (modulus - modulus / left) * factor % modulus;
        left = modulus % left;
    }
    factor as u16
}
