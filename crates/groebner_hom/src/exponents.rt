ghost use Rattle.std.specs.Prelude.{◌≤◌, ◌<◌, IfOk, length};
ghost use Rattle.alg_core.specs.Spaces.{over};
ghost use Rattle.poly_module.specs.SpaceVectors.{IsPositive, HasPolynomials, IsPolyOf, vectors_of};
ghost use Rattle.module_groebner.specs.HomogeneousLists.{degree_limit};
ghost use Rattle.finite_certificate.specs.Ideals.{Ended, variable_power};
ghost use Rattle.groebner_hom.specs.IdealBases.{AreHomogeneousPolys, NoIdealAbove};
ghost use Rattle.groebner_hom.specs.Exponents.{exponent_cap, AreLeastExponents, HasUnitDegrees, IsEndedBasis, IsLeastExponent};

use crate::ideal::ideal_basis;
use alg_core::{Field, Memory, Space, TermOrder};
use module_groebner::{BasisFault, divide};
use poly_module::{Poly, monomial};
use std::alloc::Global;

/// The power of variable i, from 0, with this exponent.
pub(crate) fn variable_power<F: Field, O: TermOrder>(
    alloc: Global,
    space: &Space<F, O>,
    i: usize,
    exponent: u32,
) -> Result<Poly<F::Elem>, Memory>
    requires polynomials { HasPolynomials (over F.field O.order space.now) }
    requires within { i < length space.now.grading.weights.items }
    ensures power { let S = over F.field O.order space.now in
        IfOk result (IsPolyOf S (λ m. m) (variable_power S.field i exponent)) }
{
    let mut exponents = vec![in alloc; 0; space.grading.weights.len()]?;
    exponents[i] = exponent;
    let power = monomial(alloc, space, space.field.one(), exponents.as_slice())?;
    Ok(power)
}

/// The least exponent with which variable i, from 0, has a power in the ideal of the basis.
fn least_exponent<F: Field, O: TermOrder>(
    alloc: Global,
    space: &Space<F, O>,
    basis: &[Poly<F::Elem>],
    i: usize,
) -> Result<u32, Memory>
    requires positive { IsPositive (over F.field O.order space.now) }
    requires polynomials { HasPolynomials (over F.field O.order space.now) }
    requires degrees { HasUnitDegrees (over F.field O.order space.now) }
    requires few { length space.now.grading.weights.items ≤ 12 }
    requires basis { IsEndedBasis (over F.field O.order space.now) basis.now }
    requires within { i < length space.now.grading.weights.items }
    ensures least { let S = over F.field O.order space.now in
        IfOk result (IsLeastExponent S.field (vectors_of S (λ m. m) basis.now) i) }
{
    let mut exponent = 0;
    loop {
        let power = variable_power(alloc, space, i, exponent)?;
        let remainder = divide(alloc, space, &power, basis)?;
        if remainder.terms().is_empty() {
            return Ok(exponent);
        }
        exponent += 1;
    }
}

/// The least exponent of each variable, in their order, with which it has a power in the ideal of theta.
/// Each variable has the degree 1 and some power in that ideal, whose reduced basis has no member of a
/// degree over the cap. (Derksen and Kemper, Computational Invariant Theory, section 2.4.)
pub fn least_exponents<F: Field, O: TermOrder>(
    alloc: Global,
    space: &Space<F, O>,
    theta: &[Poly<F::Elem>],
    cap: u32,
) -> Result<Vec<u32>, Memory>
    requires positive { IsPositive (over F.field O.order space.now) }
    requires polynomials { HasPolynomials (over F.field O.order space.now) }
    requires degrees { HasUnitDegrees (over F.field O.order space.now) }
    requires few { length space.now.grading.weights.items ≤ 12 }
    requires cap { cap ≤ exponent_cap }
    requires theta { AreHomogeneousPolys (over F.field O.order space.now) degree_limit theta.now }
    requires within { let S = over F.field O.order space.now in NoIdealAbove S (vectors_of S (λ m. m) theta.now) cap }
    requires ended { let S = over F.field O.order space.now in Ended S.field (length S.weights) (vectors_of S (λ m. m) theta.now) }
    ensures least { let S = over F.field O.order space.now in IfOk result (λ es.
        AreLeastExponents S.field (length S.weights) (vectors_of S (λ m. m) theta.now) es.items) }
{
    let basis = match ideal_basis(alloc, space, theta, cap) {
        Ok(basis) => basis,
        Err(BasisFault::Memory) => return Err(Memory),
        Err(BasisFault::Above(_)) => unreachable!(),
    };
    let mut exponents = Vec::new(alloc);
    for i in 0..space.grading.weights.len() {
        exponents.push(least_exponent(alloc, space, basis.as_slice(), i)?)?;
    }
    Ok(exponents)
}
