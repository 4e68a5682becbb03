ghost use Rattle.std.specs.Prelude.{◌≡◌, ◌≢◌, ◌↔◌, ◌<◌, ◌≤◌, ℕ, [], IsTrue, Err, All, IfOk, length};
ghost use Rattle.alg_core.specs.Binomials.{monomials_of_degree};
ghost use Rattle.alg_core.specs.SpaceGrading.{height};
ghost use Rattle.alg_core.specs.Spaces.{over};
ghost use Rattle.matrix_group.specs.Actions.{IsSquare, Invariant};
ghost use Rattle.poly_module.specs.SpaceVectors.{vector_of, vectors_of, HasPolynomials};
ghost use Rattle.secondary_gens.specs.Forms.{degree_of, degrees_of, IsSmallForm, IsPositiveForm};
ghost use Rattle.secondary_gens.specs.Secondaries.{IsComplete, IsIrredundant, AreSecondaries, IsDegreeIn, IsPastBound, IsFirstPast};

use crate::degrees::{degree, degrees};
use crate::keeping::keep;
use alg_core::{Dp, Field, Space, TermOrder};
use invariant_space::{SpaceFault, basis};
use lin_algebra::Matrix;
use poly_module::Poly;
use std::alloc::Global;

/// Whether a polynomial other than 0 has the degree.
fn has_degree<F: Field, O: TermOrder>(space: &Space<F, O>, ps: &[Poly<F::Elem>], d: u32) -> bool
    requires forms { All (IsSmallForm (over F.field O.order space.now)) ps.now }
    ensures exact { IsTrue result ↔ IsDegreeIn ps.now d }
{
    for i in 0..ps.len() {
        let p = &ps[i];
        if !p.terms().is_empty() {
            if degree(space, p) == d {
                return true;
            }
        }
    }
    false
}

/// The greatest degree; 0 where there is none.
fn greatest_degree<F: Field, O: TermOrder>(space: &Space<F, O>, ps: &[Poly<F::Elem>]) -> u32
    requires forms { All (IsSmallForm (over F.field O.order space.now)) ps.now }
    ensures all { All (λ p. degree_of p ≤ result) ps.now }
    ensures small { result ≤ 12288 }
{
    let mut greatest = 0;
    for i in 0..ps.len() {
        let d = degree(space, &ps[i]);
        if d > greatest {
            greatest = d;
        }
    }
    greatest
}

/// The secondary invariants: along the echelon bases of the degrees 0, 1, .. those members that are no
/// combination over the primary invariants and the members kept before.
///
/// `images` are invariants over which every invariant is a combination. A degree that none of them has is
/// passed over, and so is each past the greatest of theirs. TermBound comes exactly where the degree of one of
/// them has more than `max_terms` monomials; it names the least such degree.
/// (Derksen and Kemper, Computational Invariant Theory, section 3.5.)
pub fn choose<F: Field, O: TermOrder>(
    alloc: Global,
    space: &Space<F, O>,
    gens: &[Matrix<F::Elem>],
    theta: &[Poly<F::Elem>],
    images: &[Poly<F::Elem>],
    max_terms: u32,
) -> Result<Vec<Poly<F::Elem>>, SpaceFault>
    requires some { 0 < length space.now.grading.weights.items }
    requires few { length space.now.grading.weights.items ≤ 12 }
    requires polynomials { HasPolynomials (over F.field O.order space.now) }
    requires square { All (IsSquare (F.field space.now.field) (length space.now.grading.weights.items)) gens.now }
    requires primaries { All (IsPositiveForm (over F.field O.order space.now)) theta.now }
    requires images { All (IsSmallForm (over F.field O.order space.now)) images.now }
    requires fixed { let S = over F.field O.order space.now in
        All (λ p. Invariant S.field gens.now (vector_of S (λ m. m) p)) theta.now }
    requires fixed_images { let S = over F.field O.order space.now in
        All (λ p. Invariant S.field gens.now (vector_of S (λ m. m) p)) images.now }
    requires generate { let S = over F.field O.order space.now in let x = vectors_of S (λ m. m) in
        IsComplete S.field (length S.weights) gens.now (x theta.now) (x images.now) }
    ensures bound { let S = over F.field O.order space.now in (d count : ℕ) → result ≡ Err (SpaceFault.TermBound d count)
        → (count ≡ monomials_of_degree (length S.weights) d) × IsFirstPast S images.now max_terms d }
    ensures within { let S = over F.field O.order space.now in
        IfOk result (λ _. (d : ℕ) → ¬ IsPastBound S images.now max_terms d) }
    ensures forms { IfOk result (λ b. All (IsSmallForm (over F.field O.order space.now)) b.items) }
    ensures secondaries { let S = over F.field O.order space.now in let x = vectors_of S (λ m. m) in
        IfOk result (λ b. AreSecondaries S gens.now (x theta.now) (x b.items)) }
    ensures complete { let S = over F.field O.order space.now in let x = vectors_of S (λ m. m) in
        IfOk result (λ b. IsComplete S.field (length S.weights) gens.now (x theta.now) (x b.items)) }
    ensures irredundant { let S = over F.field O.order space.now in let x = vectors_of S (λ m. m) in
        IfOk result (λ b. IsIrredundant S.field (x theta.now) (x b.items)) }
    ensures fixed { let S = over F.field O.order space.now in
        IfOk result (λ b. All (λ p. Invariant S.field gens.now (vector_of S (λ m. m) p)) b.items) }
    ensures rise { IfOk result (λ b. let es = degrees_of b.items in
        (i j : ℕ) → i ≤ j → j < length es → height es i ≤ height es j) }
    ensures degrees { IfOk result (λ b. All (λ p. (p ≢ []) × IsDegreeIn images.now (degree_of p)) b.items) }
{
    let order = Dp {
        weights: degrees(alloc, space, theta)?,
    };
    let mut levels = Vec::new(alloc);
    let mut kept = Vec::new(alloc);
    for d in 0..greatest_degree(space, images) + 1 {
        if has_degree(space, images, d) {
            let basis = basis(alloc, space, gens, d, max_terms)?;
            keep(
                alloc,
                space,
                &order,
                theta,
                &mut levels,
                basis.as_slice(),
                d,
                &mut kept,
            )?;
        }
    }
    Ok(kept)
}
