//! Lines of text that answers have.

ghost use Rattle.std.specs.Prelude.{◌≡◌, IfOk, length, map};
ghost use Rattle.alg_core.specs.Spaces.{over, entries};
ghost use Rattle.poly_module.specs.SpaceVectors.{ArePolys};
ghost use Rattle.poly_text.specs.Texts.{place_count};
ghost use Rattle.invring_app.specs.Lines.{polynomial_lines, power_line, power_lines};

use alg_core::{Dp, Field, Memory, Name, Space, TermOrder};
use poly_module::Poly;
use poly_text::{Digits, Names, print_poly};
use prime_field::PrimeField;
use std::alloc::Global;

/// The title, the printed text and a newline for each polynomial.
pub(crate) fn polynomial_lines(
    alloc: Global,
    space: &Space<PrimeField, Dp>,
    names: &Names,
    title: &[u8],
    polynomials: &[Poly<u16>],
) -> Result<Vec<u8>, Memory>
    requires polynomials { ArePolys (over (⟦<PrimeField as Field>⟧.field) (⟦<Dp as TermOrder>⟧.order) space.now) (λ m. m) polynomials.now }
    requires places { length space.now.grading.weights.items ≡ place_count names.now }
    ensures text { let S = over (⟦<PrimeField as Field>⟧.field) (⟦<Dp as TermOrder>⟧.order) space.now in
        IfOk result (λ t. t.items ≡ polynomial_lines title.now S names.now (map (entries (λ m. m)) polynomials.now)) }
{
    let mut text = Vec::new(alloc);
    for i in 0..polynomials.len() {
        let polynomial = &polynomials[i];
        let line = print_poly(alloc, space, names, polynomial)?;
        text.extend_from_slice(title)?;
        text.extend_from_slice(&line)?;
        text.push(b'\n')?;
    }
    Ok(text)
}

/// The line of the power of a variable.
fn power_line(alloc: Global, name: &Name, exponent: u32) -> Result<Vec<u8>, Memory>
    ensures text { IfOk result (λ t. t.items ≡ power_line name.now exponent) }
{
    let mut line = Vec::from_slice(alloc, b"power ")?;
    line.extend_from_slice(name.bytes())?;
    line.push(b' ')?;
    let digits = Digits::of(u128::from(exponent));
    line.extend_from_slice(digits.as_slice())?;
    line.push(b'\n')?;
    Ok(line)
}

/// A line for each variable and the exponent of its power.
pub(crate) fn power_lines(
    alloc: Global,
    variables: &[Name],
    exponents: &[u32],
) -> Result<Vec<u8>, Memory>
    requires each { length exponents.now ≡ length variables.now }
    ensures text { IfOk result (λ t. t.items ≡ power_lines variables.now exponents.now) }
{
    let mut text = Vec::new(alloc);
    for i in 0..variables.len() {
        let name = &variables[i];
        let line = power_line(alloc, name, exponents[i])?;
        text.extend_from_slice(&line)?;
    }
    Ok(text)
}
