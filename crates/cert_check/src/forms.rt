//! Homogeneous polynomials and invariants.

ghost use Rattle.std.specs.Prelude.{◌↔◌, ℕ, List, All, IfOk, IsTrue};
ghost use Rattle.alg_core.specs.SpaceGrading.{AllPositive};
ghost use Rattle.alg_core.specs.Spaces.{over as space_over};
ghost use Rattle.alg_core.specs.declared.term.Term.{Term};
ghost use Rattle.poly_module.specs.SpaceVectors.{HasPolynomials, IsPoly, IsUpTo, vector_of};
ghost use Rattle.matrix_group.specs.Actions.{ActsOn};
ghost use Rattle.cert_check.specs.Endings.{IsFirstFailing};
ghost use Rattle.cert_check.specs.FormTests.{IsFormFrom, IsInvariantFrom};
ghost use Rattle.cert_check.specs.Parts.{At};
ghost use Rattle.cert_check.specs.SmallPolynomials.{most_degree, IsSmallPoly};

use alg_core::{Dp, Field, Memory, Space, TermOrder};
use lin_algebra::Matrix;
use matrix_group::is_invariant;
use poly_module::{Poly, degree, is_homogeneous};
use prime_field::PrimeField;
use std::alloc::Global;

/// Whether the polynomial is not 0 and homogeneous, of a degree from the least on.
pub(crate) fn is_form_from<F: Field, O: TermOrder>(
    space: &Space<F, O>,
    f: &Poly<F::Elem>,
    least: u64,
) -> bool
    requires poly { IsPoly (space_over F.field O.order space.now) (λ m. m) f.now }
    requires low { let S = space_over F.field O.order space.now in IsUpTo S most_degree (vector_of S (λ m. m) f.now) }
    ensures exact { let S = space_over F.field O.order space.now in IsTrue result ↔ IsFormFrom S least (vector_of S (λ m. m) f.now) }
{
    match degree(space, f) {
        Some(d) => d >= least && is_homogeneous(space, f),
        None => false,
    }
}

/// Whether the polynomial is so, and invariant.
fn is_invariant_from(
    alloc: Global,
    space: &Space<PrimeField, Dp>,
    f: &Poly<u16>,
    gens: &[Matrix<u16>],
    least: u64,
) -> Result<bool, Memory>
    requires polynomials { HasPolynomials (space_over (⟦<PrimeField as Field>⟧.field) (⟦<Dp as TermOrder>⟧.order) space.now) }
    requires positive { AllPositive space.now.grading.weights.items }
    requires matrices { All (ActsOn (space_over (⟦<PrimeField as Field>⟧.field) (⟦<Dp as TermOrder>⟧.order) space.now)) gens.now }
    requires f { IsSmallPoly (space_over (⟦<PrimeField as Field>⟧.field) (⟦<Dp as TermOrder>⟧.order) space.now) f.now }
    ensures exact { let S = space_over (⟦<PrimeField as Field>⟧.field) (⟦<Dp as TermOrder>⟧.order) space.now in
        IfOk result (λ b. IsTrue b ↔ IsInvariantFrom S gens.now least (vector_of S (λ m. m) f.now)) }
{
    if !is_form_from(space, f, least) {
        return Ok(false);
    }
    is_invariant(alloc, space, f, gens)
}

/// The first place, from 1, whose polynomial is not so.
pub(crate) fn first_other(
    alloc: Global,
    space: &Space<PrimeField, Dp>,
    fs: &[Poly<u16>],
    gens: &[Matrix<u16>],
    least: u64,
) -> Result<Option<u64>, Memory>
    requires polynomials { HasPolynomials (space_over (⟦<PrimeField as Field>⟧.field) (⟦<Dp as TermOrder>⟧.order) space.now) }
    requires positive { AllPositive space.now.grading.weights.items }
    requires matrices { All (ActsOn (space_over (⟦<PrimeField as Field>⟧.field) (⟦<Dp as TermOrder>⟧.order) space.now)) gens.now }
    requires fs { All (IsSmallPoly (space_over (⟦<PrimeField as Field>⟧.field) (⟦<Dp as TermOrder>⟧.order) space.now)) fs.now }
    ensures first { let S = space_over (⟦<PrimeField as Field>⟧.field) (⟦<Dp as TermOrder>⟧.order) space.now in
        IfOk result (IsFirstFailing (λ j. (f : List (Term ℕ (List ℕ))) → At fs.now j f → IsInvariantFrom S gens.now least (vector_of S (λ m. m) f))) }
{
    for i in 0..fs.len() {
        let f = &fs[i];
        if !is_invariant_from(alloc, space, f, gens, least)? {
            return Ok(Some(i as u64 + 1));
        }
    }
    Ok(None)
}
