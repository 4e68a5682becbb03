ghost use Rattle.std.specs.Prelude.{◌≡◌, ◌≤◌, IfOk, All, drop, length};
ghost use Rattle.alg_core.specs.MonomialParts.{variable_part};
ghost use Rattle.alg_core.specs.Monomials.{mono as monomial_of};
ghost use Rattle.primary_module.specs.Positions.{AreDifferent, place_of};
ghost use Rattle.syzygy_kernel.specs.Fronts.{is_front};

use alg_core::{Memory, Mono, Monomial};
use std::alloc::Global;

/// Whether the other monomial begins with the exponents of this one.
fn is_part(a: &Mono, b: &Mono) -> bool
    requires long { length a.now ≤ length b.now }
    ensures exact { result ≡ is_front a.now b.now }
{
    for i in 0..a.len() {
        if a.exp(i) != b.exp(i) {
            return false;
        }
    }
    true
}

/// The place of the part in n variables of the monomial, from 0; past the end where it is not there.
fn place_in(n: u32, monomials: &[Mono], mono: &Mono) -> usize
    requires wide { All (λ a. length a ≡ n) monomials.now }
    requires long { n ≤ length mono.now }
    ensures is { result ≡ place_of monomials.now (variable_part n (monomial_of mono.now)) }
{
    for i in 0..monomials.len() {
        if is_part(&monomials[i], mono) {
            return i;
        }
    }
    monomials.len()
}

/// The place of the part in n variables of the monomial, from 0; past the end where it is not there. It
/// is looked for downwards from the place `near`, and then everywhere: so the places of parts that fall,
/// where the monomials rise, are found on one way down.
pub(crate) fn place_near(n: u32, monomials: &[Mono], mono: &Mono, near: usize) -> usize
    requires wide { All (λ a. length a ≡ n) monomials.now }
    requires different { AreDifferent monomials.now }
    requires long { n ≤ length mono.now }
    ensures is { result ≡ place_of monomials.now (variable_part n (monomial_of mono.now)) }
{
    let mut i = if near < monomials.len() {
        near + 1
    } else {
        monomials.len()
    };
    while i > 0 {
        i -= 1;
        if is_part(&monomials[i], mono) {
            return i;
        }
    }
    place_in(n, monomials, mono)
}

/// The marks of the monomial, as variables.
pub(crate) fn marks_of(alloc: Global, n: u32, mono: &Mono) -> Result<Mono, Memory>
    requires long { n ≤ length mono.now }
    ensures is { IfOk result (λ m. m ≡ drop n mono.now) }
{
    let mut marks = Vec::new(alloc);
    for i in n as usize..mono.len() {
        marks.push(mono.exp(i))?;
    }
    let mono = Mono::from_exps(alloc, marks.as_slice())?;
    Ok(mono)
}
