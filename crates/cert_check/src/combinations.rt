//! Values of combinations.

ghost use Rattle.std.specs.Prelude.{◌≡◌, IfOk, All, length};
ghost use Rattle.alg_core.specs.SpaceGrading.{AllPositive};
ghost use Rattle.alg_core.specs.Spaces.{over as space_over, entries};
ghost use Rattle.alg_core.specs.Vectors.{vec};
ghost use Rattle.poly_module.specs.Combinations.{combination_value};
ghost use Rattle.poly_module.specs.Polynomials.{product};
ghost use Rattle.poly_module.specs.SpaceVectors.{HasPolynomials, IsPolyOf, vector_of, vectors_of};
ghost use Rattle.poly_module.specs.Substitutions.{substitute};
ghost use Rattle.cert_check.specs.CombinationParts.{at_position};
ghost use Rattle.cert_check.specs.EvidenceLines.{HasCombinations, AreLowTerms};
ghost use Rattle.cert_check.specs.SmallPolynomials.{IsSmallPoly};

use alg_core::{Dp, Field, Memory, ModTerm, Mono, Monomial, Space, Term, TermOrder};
use poly_module::{Comb, Poly, Vector, add, mul, substitute};
use prime_field::PrimeField;
use std::alloc::Global;

/// The terms at position j, moved to position 0: a polynomial in the marks.
fn part_at(alloc: Global, terms: &[Term<u16, Mono>], j: u64) -> Result<Poly<u16>, Memory>
    ensures is { let list = entries (λ m. m) in IfOk result (λ p. list p ≡ at_position j (list terms.now)) }
{
    let mut found = Vec::new(alloc);
    for i in 0..terms.len() {
        let t = &terms[i];
        if t.at.pos == j {
            let mono = t.at.mono.copy(alloc)?;
            let at = ModTerm { pos: 0, mono };
            found.push(Term { coef: t.coef, at })?;
        }
    }
    Ok(Vector::of(found))
}

/// The part at position j at theta, times the polynomial that stands there.
fn value_of_part(
    alloc: Global,
    space: &Space<PrimeField, Dp>,
    theta: &[Poly<u16>],
    terms: &[Term<u16, Mono>],
    j: u64,
    sec: &Poly<u16>,
) -> Result<Poly<u16>, Memory>
    requires polynomials { HasPolynomials (space_over (⟦<PrimeField as Field>⟧.field) (⟦<Dp as TermOrder>⟧.order) space.now) }
    requires positive { AllPositive space.now.grading.weights.items }
    requires theta { All (IsSmallPoly (space_over (⟦<PrimeField as Field>⟧.field) (⟦<Dp as TermOrder>⟧.order) space.now)) theta.now }
    requires terms { AreLowTerms (⟦<PrimeField as Field>⟧.field space.now.field) (length theta.now) terms.now }
    requires sec { IsSmallPoly (space_over (⟦<PrimeField as Field>⟧.field) (⟦<Dp as TermOrder>⟧.order) space.now) sec.now }
    ensures value { let S = space_over (⟦<PrimeField as Field>⟧.field) (⟦<Dp as TermOrder>⟧.order) space.now in
        let θ = vectors_of S (λ m. m) theta.now in
        let part = vec S.field (at_position j (entries (λ m. m) terms.now)) in
        IfOk result (IsPolyOf S (λ m. m) (product S.field (substitute S.field θ part) (vector_of S (λ m. m) sec.now))) }
{
    let part = part_at(alloc, terms, j)?;
    let factor = substitute(alloc, space, &part, theta)?;
    let value = mul(alloc, space, &factor, sec)?;
    Ok(value)
}

/// The value of the combination, where theta stand for its variables and secs at its positions.
pub(crate) fn combination_value(
    alloc: Global,
    space: &Space<PrimeField, Dp>,
    theta: &[Poly<u16>],
    secs: &[Poly<u16>],
    comb: &Comb<u16>,
) -> Result<Poly<u16>, Memory>
    requires given { let S = space_over (⟦<PrimeField as Field>⟧.field) (⟦<Dp as TermOrder>⟧.order) space.now in
        HasCombinations S theta.now secs.now }
    requires comb { AreLowTerms (⟦<PrimeField as Field>⟧.field space.now.field) (length theta.now) comb.now.vector }
    ensures value { let S = space_over (⟦<PrimeField as Field>⟧.field) (⟦<Dp as TermOrder>⟧.order) space.now in
        let xs = vectors_of S (λ m. m) in
        IfOk result (IsPolyOf S (λ m. m)
        (combination_value S.field (xs theta.now) (xs secs.now) (vector_of S (λ m. m) comb.now.vector))) }
{
    let terms = comb.vector.terms();
    let mut value = Vector::zero(alloc);
    for j in 0..secs.len() {
        let part = value_of_part(alloc, space, theta, terms, j as u64, &secs[j])?;
        value = add(alloc, space, &value, &part)?;
    }
    Ok(value)
}
