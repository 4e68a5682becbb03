//! The values of the variables and the marks.

ghost use Rattle.std.specs.Prelude.{◌≡◌, ◌++◌, IfOk, length};
ghost use Rattle.alg_core.specs.Spaces.{over as space_over};
ghost use Rattle.poly_module.specs.SpaceVectors.{ArePolys, HasPolynomials, vectors_of};
ghost use Rattle.poly_module.specs.Variables.{variables};

use alg_core::{Dp, Field, Memory, Space, TermOrder};
use poly_module::{Poly, copy, variable};
use prime_field::PrimeField;
use std::alloc::Global;

/// The variables and the polynomials theta: the values of the variables and the marks.
pub(crate) fn images(
    alloc: Global,
    space: &Space<PrimeField, Dp>,
    theta: &[Poly<u16>],
) -> Result<Vec<Poly<u16>>, Memory>
    requires polynomials { HasPolynomials (space_over (⟦<PrimeField as Field>⟧.field) (⟦<Dp as TermOrder>⟧.order) space.now) }
    requires theta { ArePolys (space_over (⟦<PrimeField as Field>⟧.field) (⟦<Dp as TermOrder>⟧.order) space.now) (λ m. m) theta.now }
    ensures polys { let S = space_over (⟦<PrimeField as Field>⟧.field) (⟦<Dp as TermOrder>⟧.order) space.now in
        IfOk result (λ ps. ArePolys S (λ m. m) ps.items) }
    ensures are { let S = space_over (⟦<PrimeField as Field>⟧.field) (⟦<Dp as TermOrder>⟧.order) space.now in
        IfOk result (λ ps. vectors_of S (λ m. m) ps.items ≡ variables S.field (length S.weights) ++ vectors_of S (λ m. m) theta.now) }
{
    let mut images = Vec::new(alloc);
    for i in 0..space.grading.weights.len() {
        images.push(variable(alloc, space, i)?)?;
    }
    for i in 0..theta.len() {
        let member = &theta[i];
        images.push(copy(alloc, member)?)?;
    }
    Ok(images)
}
