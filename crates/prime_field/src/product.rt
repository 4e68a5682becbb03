ghost use Rattle.std.specs.Prelude.{◌≡◌, ◌<◌, ◌≤◌, ◌*◌, true};
ghost use Rattle.prime_field.specs.ListedPrimes.{is_listed};
ghost use Rattle.prime_field.specs.Residues.{mul_mod};

/// The product modulo the prime `p`. No division is left where `p` is the same all along a row: a loop
/// takes several entries at a time.
#[inline(always)]
pub(crate) fn product(p: u16, a: u16, b: u16) -> u16
    requires listed { is_listed p ≡ true }
    requires left { a < p }
    requires right { b < p }
    ensures is { result ≡ mul_mod p a b }
{
    match p {
        257 => (wide(a, b) % 257) as u16,
        32003 => (wide(a, b) % 32003) as u16,
        _ => narrow(p, a, b),
    }
}

#[inline(always)]
fn wide(a: u16, b: u16) -> u32
    ensures is { result ≡ a * b }
{
    u32::from(a) * u32::from(b)
}

/// The product modulo a prime up to 11. The quotient is a product with 65536 / p, rounded up.
#[inline(always)]
fn narrow(p: u16, a: u16, b: u16) -> u16
    requires listed { is_listed p ≡ true }
    requires few { p ≤ 11 }
    requires left { a < p }
    requires right { b < p }
    ensures is { result ≡ mul_mod p a b }
{
    let product = a * b;
    let reciprocal = 65536 / u32::from(p) + 1;
    let quotient = (u32::from(product) * reciprocal / 65536) as u16;
    product - quotient * p
}
