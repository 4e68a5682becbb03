//! The members of the kernel, and the values of the fixed ones as combinations.

ghost use Rattle.std.specs.Prelude.{◌≡◌, ◌↔◌, ℕ, IsTrue, IfOk, All, length};
ghost use Rattle.alg_core.specs.Spaces.{over as space_over};
ghost use Rattle.poly_module.specs.SpaceVectors.{vectors_of};
ghost use Rattle.finite_certificate.specs.MarkSpaces.{mark_space};
ghost use Rattle.matrix_group.specs.Actions.{IsSquare, Invariant};
ghost use Rattle.primary_module.specs.PrimaryModules.{IsLowPoly, StandsOver};
ghost use Rattle.syzygy_kernel.specs.Kernels.{AreKernel};
ghost use Rattle.certificate_io.specs.declared.evidence.Line.{Line as LineOf};
ghost use Rattle.cert_check.specs.Conditions.{K2, MeetsKernel};
ghost use Rattle.cert_check.specs.Endings.{IsFirstFailing, IsGiven, IsMarkedOf, IsModuleOf};
ghost use Rattle.cert_check.specs.EvidenceLines.{AreLowTerms, HasCombinations, HasValue, IsLowMember, IsValued};
ghost use Rattle.cert_check.specs.Parts.{At, members as named};
ghost use Rattle.cert_check.specs.SmallPolynomials.{IsSmallMember, IsSmallPoly};
ghost use Rattle.cert_check.specs.WellFormed.{combined, marked as marked_of};

use crate::combinations::combination_value;
use crate::images::images;
use alg_core::{BlockOrder, Dp, Field, Memory, Space, TermOrder};
use certificate_io::{Certificate, Line};
use lin_algebra::Matrix;
use poly_module::{Comb, Poly, are_equal, copy, substitute};
use primary_module::PrimaryModule;
use prime_field::PrimeField;
use std::alloc::Global;
use syzygy_kernel::{Member, is_kernel_list};

/// The members of the lines.
fn members(alloc: Global, lines: &[Line<u16>]) -> Result<Vec<Member<u16>>, Memory>
    ensures are { IfOk result (λ ms. ms.items ≡ named lines.now) }
{
    let mut members = Vec::new(alloc);
    for i in 0..lines.len() {
        let line = &lines[i];
        let u = copy(alloc, &line.u)?;
        let is_fixed = line.comb.is_some();
        members.push(Member { u, is_fixed })?;
    }
    Ok(members)
}

/// Whether the members of the lines are the kernel evidence.
fn is_kernel(
    alloc: Global,
    marked: &Space<PrimeField, BlockOrder>,
    free_module: &PrimaryModule<u16>,
    gens: &[Matrix<u16>],
    lines: &[Line<u16>],
) -> Result<bool, Memory>
    requires stands { StandsOver (mark_space (⟦<PrimeField as Field>⟧.field) marked.now) marked.now.order.vars
        marked.now.order.weights.items free_module.now }
    requires square { All (IsSquare (⟦<PrimeField as Field>⟧.field marked.now.field) marked.now.order.vars) gens.now }
    requires fixed { let M = mark_space (⟦<PrimeField as Field>⟧.field) marked.now in
        All (Invariant M.field gens.now) (vectors_of M (λ m. m) free_module.now.theta) }
    requires low { All (λ l. IsLowPoly (mark_space (⟦<PrimeField as Field>⟧.field) marked.now) l.u) lines.now }
    ensures exact { let M = mark_space (⟦<PrimeField as Field>⟧.field) marked.now in let θ = vectors_of M (λ m. m) free_module.now.theta in
        IfOk result (λ b. IsTrue b ↔ AreKernel M.field marked.now.order.vars marked.now.order.weights.items θ gens.now
        free_module.now.monomials (named lines.now)) }
{
    let members = members(alloc, lines)?;
    let same = is_kernel_list(alloc, marked, free_module, gens, members.as_slice())?;
    Ok(same)
}

/// Whether the combination has the value of the polynomial in the variables and marks.
fn has_value(
    alloc: Global,
    space: &Space<PrimeField, Dp>,
    images: &[Poly<u16>],
    theta: &[Poly<u16>],
    secs: &[Poly<u16>],
    u: &Poly<u16>,
    comb: &Comb<u16>,
) -> Result<bool, Memory>
    requires given { let S = space_over (⟦<PrimeField as Field>⟧.field) (⟦<Dp as TermOrder>⟧.order) space.now in
        HasCombinations S theta.now secs.now }
    requires images { All (IsSmallPoly (space_over (⟦<PrimeField as Field>⟧.field) (⟦<Dp as TermOrder>⟧.order) space.now)) images.now }
    requires polynomial { AreLowTerms (⟦<PrimeField as Field>⟧.field space.now.field) (length images.now) u.now }
    requires combination { AreLowTerms (⟦<PrimeField as Field>⟧.field space.now.field) (length theta.now) comb.now.vector }
    ensures exact { let S = space_over (⟦<PrimeField as Field>⟧.field) (⟦<Dp as TermOrder>⟧.order) space.now in
        IfOk result (λ b. IsTrue b ↔ HasValue S images.now theta.now secs.now u.now comb.now.vector) }
{
    let wanted = substitute(alloc, space, u, images)?;
    let value = combination_value(alloc, space, theta, secs, comb)?;
    Ok(are_equal(space, &value, &wanted))
}

/// Whether the line has no combination, or one with the value of its polynomial.
fn is_valued(
    alloc: Global,
    space: &Space<PrimeField, Dp>,
    images: &[Poly<u16>],
    theta: &[Poly<u16>],
    secs: &[Poly<u16>],
    line: &Line<u16>,
) -> Result<bool, Memory>
    requires given { let S = space_over (⟦<PrimeField as Field>⟧.field) (⟦<Dp as TermOrder>⟧.order) space.now in
        HasCombinations S theta.now secs.now }
    requires images { All (IsSmallPoly (space_over (⟦<PrimeField as Field>⟧.field) (⟦<Dp as TermOrder>⟧.order) space.now)) images.now }
    requires line { let S = space_over (⟦<PrimeField as Field>⟧.field) (⟦<Dp as TermOrder>⟧.order) space.now in
        IsLowMember S (length images.now) (length theta.now) line.now }
    ensures exact { let S = space_over (⟦<PrimeField as Field>⟧.field) (⟦<Dp as TermOrder>⟧.order) space.now in
        IfOk result (λ b. IsTrue b ↔ IsValued S images.now theta.now secs.now line.now) }
{
    match &line.comb {
        None => Ok(true),
        Some(comb) => {
            let valued = has_value(alloc, space, images, theta, secs, &line.u, comb)?;
            Ok(valued)
        }
    }
}

/// The first line, from 1, with a combination of another value than that of its polynomial.
fn first_other(
    alloc: Global,
    space: &Space<PrimeField, Dp>,
    images: &[Poly<u16>],
    theta: &[Poly<u16>],
    secs: &[Poly<u16>],
    lines: &[Line<u16>],
) -> Result<Option<u64>, Memory>
    requires given { let S = space_over (⟦<PrimeField as Field>⟧.field) (⟦<Dp as TermOrder>⟧.order) space.now in
        HasCombinations S theta.now secs.now }
    requires images { All (IsSmallPoly (space_over (⟦<PrimeField as Field>⟧.field) (⟦<Dp as TermOrder>⟧.order) space.now)) images.now }
    requires lines { let S = space_over (⟦<PrimeField as Field>⟧.field) (⟦<Dp as TermOrder>⟧.order) space.now in
        All (IsLowMember S (length images.now) (length theta.now)) lines.now }
    ensures first { let S = space_over (⟦<PrimeField as Field>⟧.field) (⟦<Dp as TermOrder>⟧.order) space.now in
        IfOk result (IsFirstFailing (λ j. (l : LineOf ℕ) → At lines.now j l → IsValued S images.now theta.now secs.now l)) }
{
    for i in 0..lines.len() {
        let line = &lines[i];
        if !is_valued(alloc, space, images, theta, secs, line)? {
            return Ok(Some(i as u64 + 1));
        }
    }
    Ok(None)
}

/// The first item at which the members of the kernel fail, 0 where they are not the kernel evidence.
pub(crate) fn first_member(
    alloc: Global,
    space: &Space<PrimeField, Dp>,
    marked: &Space<PrimeField, BlockOrder>,
    cert: &Certificate<u16>,
    gens: &[Matrix<u16>],
    free_module: &PrimaryModule<u16>,
    lines: &[Line<u16>],
) -> Result<Option<u64>, Memory>
    requires given { let S = space_over (⟦<PrimeField as Field>⟧.field) (⟦<Dp as TermOrder>⟧.order) space.now in IsGiven S gens.now cert.now }
    requires beside { let S = space_over (⟦<PrimeField as Field>⟧.field) (⟦<Dp as TermOrder>⟧.order) space.now in
        let M = mark_space (⟦<PrimeField as Field>⟧.field) marked.now in
        IsMarkedOf cert.now S M marked.now.order.vars marked.now.order.weights.items }
    requires module { let S = space_over (⟦<PrimeField as Field>⟧.field) (⟦<Dp as TermOrder>⟧.order) space.now in
        let M = mark_space (⟦<PrimeField as Field>⟧.field) marked.now in
        IsModuleOf cert.now S M marked.now.order.vars marked.now.order.weights.items free_module.now }
    requires primaries { (i : ℕ) → K2 (⟦<PrimeField as Field>⟧.field space.now.field) gens.now cert.now i }
    requires lines { let k = ⟦<PrimeField as Field>⟧.field space.now.field in
        All (IsSmallMember (marked_of k cert.now) (combined k cert.now)) lines.now }
    ensures first { let k = ⟦<PrimeField as Field>⟧.field space.now.field in
        IfOk result (IsFirstFailing (MeetsKernel k gens.now cert.now lines.now)) }
{
    if !is_kernel(alloc, marked, free_module, gens, lines)? {
        return Ok(Some(0));
    }
    let theta = cert.primaries.as_slice();
    let secs = cert.secondaries.as_slice();
    let images = images(alloc, space, theta)?;
    let first = first_other(alloc, space, images.as_slice(), theta, secs, lines)?;
    Ok(first)
}
