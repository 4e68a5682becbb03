ghost use Rattle.std.specs.Prelude.{◌≡◌, ◌<◌, ◌≤◌, ℕ, All, Err, IfOk, length};
ghost use Rattle.alg_core.specs.Binomials.{monomials_of_degree};
ghost use Rattle.alg_core.specs.Spaces.{over};
ghost use Rattle.poly_module.specs.SpaceVectors.{vectors_of, ArePolys, HasPolynomials};
ghost use Rattle.matrix_group.specs.Actions.{IsSquare};
ghost use Rattle.invariant_space.specs.InvariantSpaces.{IsEchelonBasis};

use crate::count::monomial_count;
use crate::equations::equations;
use crate::fault::SpaceFault;
use crate::images::level_of_degree;
use crate::polynomials::polynomials;
use alg_core::{Field, Memory, Space, TermOrder};
use lin_algebra::{Matrix, kernel};
use poly_module::Poly;
use std::alloc::Global;

/// The echelon basis of the homogeneous invariants of degree `d` under the matrices, by falling
/// leads. The degree has at most `max_terms` monomials, or the answer is TermBound, which is told
/// by their number alone.
pub fn basis<F: Field, O: TermOrder>(
    alloc: Global,
    space: &Space<F, O>,
    gens: &[Matrix<F::Elem>],
    d: u32,
    max_terms: u32,
) -> Result<Vec<Poly<F::Elem>>, SpaceFault>
    requires positive { 0 < length space.now.grading.weights.items }
    requires few { length space.now.grading.weights.items ≤ 12 }
    requires degree { d ≤ 12288 }
    requires square { All (IsSquare (F.field space.now.field) (length space.now.grading.weights.items)) gens.now }
    requires polynomials { HasPolynomials (over F.field O.order space.now) }
    ensures bound { (degree count : ℕ) → result ≡ Err (SpaceFault.TermBound degree count)
        → (degree ≡ d) × (count ≡ monomials_of_degree (length space.now.grading.weights.items) d) × (max_terms < count) }
    ensures within { let count = monomials_of_degree (length space.now.grading.weights.items) d in
        max_terms < count → result ≡ Err (SpaceFault.TermBound d count) }
    ensures polynomials { IfOk result (λ b. ArePolys (over F.field O.order space.now) (λ m. m) b.items) }
    ensures echelon { let S = over F.field O.order space.now in
        IfOk result (λ b. IsEchelonBasis S gens.now d (vectors_of S (λ m. m) b.items)) }
{
    let count = monomial_count(space.grading.weights.len() as u32, d);
    if count > u128::from(max_terms) {
        return Err(SpaceFault::TermBound { degree: d, count });
    }
    let basis = whole_basis(alloc, space, gens, d)?;
    Ok(basis)
}

/// The same with no bound.
fn whole_basis<F: Field, O: TermOrder>(
    alloc: Global,
    space: &Space<F, O>,
    gens: &[Matrix<F::Elem>],
    d: u32,
) -> Result<Vec<Poly<F::Elem>>, Memory>
    requires degree { d ≤ 12288 }
    requires square { All (IsSquare (F.field space.now.field) (length space.now.grading.weights.items)) gens.now }
    requires polynomials { HasPolynomials (over F.field O.order space.now) }
    ensures polynomials { IfOk result (λ b. ArePolys (over F.field O.order space.now) (λ m. m) b.items) }
    ensures echelon { let S = over F.field O.order space.now in
        IfOk result (λ b. IsEchelonBasis S gens.now d (vectors_of S (λ m. m) b.items)) }
{
    let level = level_of_degree(alloc, space, gens, d)?;
    let monomials = &level.sums[space.grading.weights.len()];
    let count = monomials.terms().len();
    let equations = equations(alloc, space, gens, &level.images, count)?;
    let kernel = kernel(alloc, &space.field, &equations)?;
    let basis = polynomials(alloc, space, monomials, &kernel)?;
    Ok(basis)
}
