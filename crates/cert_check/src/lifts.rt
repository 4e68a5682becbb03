//! The lifts, as relations between the variables and the marks.

ghost use Rattle.std.specs.Prelude.{◌↔◌, ℕ, List, All, IfOk, IfErr, IsTrue, length};
ghost use Rattle.alg_core.specs.LimitRanges.{AreLimits};
ghost use Rattle.alg_core.specs.SpaceGrading.{AllPositive};
ghost use Rattle.alg_core.specs.Spaces.{over as space_over};
ghost use Rattle.alg_core.specs.declared.term.Term.{Term};
ghost use Rattle.poly_module.specs.SpaceVectors.{HasPolynomials};
ghost use Rattle.finite_certificate.specs.MarkSpaces.{mark_space};
ghost use Rattle.cert_check.specs.Conditions.{Lifts, Powers};
ghost use Rattle.cert_check.specs.Endings.{IsFirstFailing, IsGiven, IsMarkedOf, IsTold};
ghost use Rattle.cert_check.specs.EvidenceLines.{AreLowTerms};
ghost use Rattle.cert_check.specs.FormTests.{IsLiftAt};
ghost use Rattle.cert_check.specs.Parts.{At};
ghost use Rattle.cert_check.specs.SmallPolynomials.{IsSmallPoly};
ghost use Rattle.cert_check.specs.Work.{Reached};

use crate::ending::Ending;
use crate::forms::is_form_from;
use crate::images::images;
use alg_core::{BlockOrder, Dp, Field, Limits, Memory, Space, TermOrder};
use certificate_io::Certificate;
use lin_algebra::Matrix;
use poly_module::{Poly, substitute};
use prime_field::PrimeField;
use std::alloc::Global;

/// Whether the polynomial is not 0 and homogeneous in the space with marks, and its value is 0, where the
/// images stand for the variables and marks.
fn is_lift(
    alloc: Global,
    space: &Space<PrimeField, Dp>,
    marked: &Space<PrimeField, BlockOrder>,
    images: &[Poly<u16>],
    f: &Poly<u16>,
) -> Result<bool, Memory>
    requires polynomials { HasPolynomials (space_over (⟦<PrimeField as Field>⟧.field) (⟦<Dp as TermOrder>⟧.order) space.now) }
    requires positive { AllPositive space.now.grading.weights.items }
    requires images { All (IsSmallPoly (space_over (⟦<PrimeField as Field>⟧.field) (⟦<Dp as TermOrder>⟧.order) space.now)) images.now }
    requires f { IsSmallPoly (mark_space (⟦<PrimeField as Field>⟧.field) marked.now) f.now }
    requires terms { AreLowTerms (⟦<PrimeField as Field>⟧.field space.now.field) (length images.now) f.now }
    ensures exact { let S = space_over (⟦<PrimeField as Field>⟧.field) (⟦<Dp as TermOrder>⟧.order) space.now in
        IfOk result (λ b. IsTrue b ↔ IsLiftAt S (mark_space (⟦<PrimeField as Field>⟧.field) marked.now) images.now f.now) }
{
    if !is_form_from(marked, f, 0) {
        return Ok(false);
    }
    let value = substitute(alloc, space, f, images)?;
    Ok(value.terms().is_empty())
}

/// The first place, from 1, whose polynomial is not so.
fn first_other(
    alloc: Global,
    space: &Space<PrimeField, Dp>,
    marked: &Space<PrimeField, BlockOrder>,
    images: &[Poly<u16>],
    fs: &[Poly<u16>],
) -> Result<Option<u64>, Memory>
    requires polynomials { HasPolynomials (space_over (⟦<PrimeField as Field>⟧.field) (⟦<Dp as TermOrder>⟧.order) space.now) }
    requires positive { AllPositive space.now.grading.weights.items }
    requires images { All (IsSmallPoly (space_over (⟦<PrimeField as Field>⟧.field) (⟦<Dp as TermOrder>⟧.order) space.now)) images.now }
    requires fs { All (IsSmallPoly (mark_space (⟦<PrimeField as Field>⟧.field) marked.now)) fs.now }
    requires terms { All (AreLowTerms (⟦<PrimeField as Field>⟧.field space.now.field) (length images.now)) fs.now }
    ensures first { let S = space_over (⟦<PrimeField as Field>⟧.field) (⟦<Dp as TermOrder>⟧.order) space.now in
        IfOk result (IsFirstFailing (λ j. (f : List (Term ℕ (List ℕ))) → At fs.now j f
        → IsLiftAt S (mark_space (⟦<PrimeField as Field>⟧.field) marked.now) images.now f)) }
{
    for i in 0..fs.len() {
        let f = &fs[i];
        if !is_lift(alloc, space, marked, images, f)? {
            return Ok(Some(i as u64 + 1));
        }
    }
    Ok(None)
}

/// Whether each lift is homogeneous, and its value is 0.
pub(crate) fn check_lifts(
    alloc: Global,
    space: &Space<PrimeField, Dp>,
    marked: &Space<PrimeField, BlockOrder>,
    cert: &Certificate<u16>,
    gens: &[Matrix<u16>],
    limits: &Limits,
) -> Result<(), Ending>
    requires given { let S = space_over (⟦<PrimeField as Field>⟧.field) (⟦<Dp as TermOrder>⟧.order) space.now in IsGiven S gens.now cert.now }
    requires limits { AreLimits limits.now }
    requires beside { let S = space_over (⟦<PrimeField as Field>⟧.field) (⟦<Dp as TermOrder>⟧.order) space.now in
        let M = mark_space (⟦<PrimeField as Field>⟧.field) marked.now in IsMarkedOf cert.now S M marked.now.order.vars marked.now.order.weights.items }
    requires reached { let S = space_over (⟦<PrimeField as Field>⟧.field) (⟦<Dp as TermOrder>⟧.order) space.now in
        Reached S.field gens.now cert.now limits.now (Lifts, 0) }
    ensures reached { let S = space_over (⟦<PrimeField as Field>⟧.field) (⟦<Dp as TermOrder>⟧.order) space.now in
        IfOk result (λ _. Reached S.field gens.now cert.now limits.now (Powers, 0)) }
    ensures told { IfErr result (IsTold cert.now limits.now) }
{
    let _ = gens;
    let _ = limits;
    let theta = cert.primaries.as_slice();
    let lifts = cert.lifts.as_slice();
    let images = images(alloc, space, theta)?;
    match first_other(alloc, space, marked, images.as_slice(), lifts)? {
        Some(item) => Err(Ending::Rejected { condition: 3, item }),
        None => Ok(()),
    }
}
