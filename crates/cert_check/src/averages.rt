//! The averages of the standard monomials, as combinations.

ghost use Rattle.std.specs.Prelude.{◌≡◌, ◌↔◌, ◌≤◌, ℕ, IsTrue, IfOk, All, length};
ghost use Rattle.alg_core.specs.Monomials.{mono as monomial_of};
ghost use Rattle.alg_core.specs.SpaceGrading.{AllPositive};
ghost use Rattle.alg_core.specs.Spaces.{over as space_over};
ghost use Rattle.poly_module.specs.Polynomials.{single_vector};
ghost use Rattle.poly_module.specs.SpaceVectors.{HasPolynomials, IsPolyOf};
ghost use Rattle.finite_certificate.specs.StandardMonomials.{AreStandardMonomials};
ghost use Rattle.matrix_group.specs.Groups.{cells_of, IsOrder};
ghost use Rattle.reynolds_op.specs.Averages.{AveragesOn};
ghost use Rattle.certificate_io.specs.declared.evidence.Image.{Image as ImageOf};
ghost use Rattle.cert_check.specs.Conditions.{MeetsAverages};
ghost use Rattle.cert_check.specs.Endings.{IsFirstFailing, IsGiven, IsGroupOf};
ghost use Rattle.cert_check.specs.EvidenceLines.{HasCombinations, IsLowLine, IsAveraged};
ghost use Rattle.cert_check.specs.Parts.{At, size, degrees, primaries, monomials as monomials_of};
ghost use Rattle.cert_check.specs.SmallPolynomials.{IsSmallLine};
ghost use Rattle.cert_check.specs.WellFormed.{combined};

use crate::combinations::combination_value;
use alg_core::{Dp, Field, Memory, ModTerm, Mono, Monomial, Space, Term, TermOrder};
use certificate_io::{Certificate, Image};
use lin_algebra::Matrix;
use matrix_group::Group;
use poly_module::{Poly, are_equal, single};
use prime_field::PrimeField;
use reynolds_op::Reynolds;
use std::alloc::Global;

/// Whether the monomials have the same exponents.
fn are_same(a: &Mono, b: &Mono) -> bool
    ensures exact { IsTrue result ↔ (a.now ≡ b.now) }
{
    if a.len() != b.len() {
        return false;
    }
    for i in 0..a.len() {
        if a.exp(i) != b.exp(i) {
            return false;
        }
    }
    true
}

/// Whether the lines are those of the monomials, in their order.
fn have_monomials(lines: &[Image<u16>], monomials: &[Mono]) -> bool
    ensures exact { IsTrue result ↔ (monomials_of lines.now ≡ monomials.now) }
{
    if lines.len() != monomials.len() {
        return false;
    }
    for i in 0..lines.len() {
        let line = &lines[i];
        if !are_same(&line.mono, &monomials[i]) {
            return false;
        }
    }
    true
}

/// The monomial as a polynomial.
fn as_polynomial(
    alloc: Global,
    space: &Space<PrimeField, Dp>,
    mono: &Mono,
) -> Result<Poly<u16>, Memory>
    requires polynomials { HasPolynomials (space_over (⟦<PrimeField as Field>⟧.field) (⟦<Dp as TermOrder>⟧.order) space.now) }
    requires wide { length mono.now ≡ length space.now.grading.weights.items }
    ensures is { let S = space_over (⟦<PrimeField as Field>⟧.field) (⟦<Dp as TermOrder>⟧.order) space.now in
        IfOk result (IsPolyOf S (λ m. m) (single_vector S.field (0, monomial_of mono.now))) }
{
    let at = ModTerm {
        pos: 0,
        mono: mono.copy(alloc)?,
    };
    let coef = space.field.one();
    let made = single(alloc, space, &Term { coef, at })?;
    Ok(made)
}

/// Whether the combination of the line has the average of its monomial as value.
fn is_average<'g>(
    alloc: Global,
    space: &Space<PrimeField, Dp>,
    theta: &[Poly<u16>],
    secs: &[Poly<u16>],
    averaging: &Reynolds<'g, u16>,
    line: &Image<u16>,
) -> Result<bool, Memory>
    requires given { let S = space_over (⟦<PrimeField as Field>⟧.field) (⟦<Dp as TermOrder>⟧.order) space.now in
        HasCombinations S theta.now secs.now }
    requires averaging { AveragesOn (space_over (⟦<PrimeField as Field>⟧.field) (⟦<Dp as TermOrder>⟧.order) space.now) averaging.now }
    requires line { let S = space_over (⟦<PrimeField as Field>⟧.field) (⟦<Dp as TermOrder>⟧.order) space.now in
        IsLowLine S (length theta.now) line.now }
    ensures exact { let S = space_over (⟦<PrimeField as Field>⟧.field) (⟦<Dp as TermOrder>⟧.order) space.now in
        IfOk result (λ b. IsTrue b ↔ IsAveraged S averaging.now theta.now secs.now line.now) }
{
    let mono = as_polynomial(alloc, space, &line.mono)?;
    let average = averaging.apply(alloc, space, &mono)?;
    let value = combination_value(alloc, space, theta, secs, &line.comb)?;
    Ok(are_equal(space, &average, &value))
}

/// The first line, from 1, whose combination has another value than the average of its monomial.
fn first_other<'g>(
    alloc: Global,
    space: &Space<PrimeField, Dp>,
    theta: &[Poly<u16>],
    secs: &[Poly<u16>],
    averaging: &Reynolds<'g, u16>,
    lines: &[Image<u16>],
) -> Result<Option<u64>, Memory>
    requires given { let S = space_over (⟦<PrimeField as Field>⟧.field) (⟦<Dp as TermOrder>⟧.order) space.now in
        HasCombinations S theta.now secs.now }
    requires averaging { AveragesOn (space_over (⟦<PrimeField as Field>⟧.field) (⟦<Dp as TermOrder>⟧.order) space.now) averaging.now }
    requires lines { let S = space_over (⟦<PrimeField as Field>⟧.field) (⟦<Dp as TermOrder>⟧.order) space.now in
        All (IsLowLine S (length theta.now)) lines.now }
    ensures first { let S = space_over (⟦<PrimeField as Field>⟧.field) (⟦<Dp as TermOrder>⟧.order) space.now in
        IfOk result (IsFirstFailing (λ j. (x : ImageOf ℕ) → At lines.now j x → IsAveraged S averaging.now theta.now secs.now x)) }
{
    for i in 0..lines.len() {
        let line = &lines[i];
        if !is_average(alloc, space, theta, secs, averaging, line)? {
            return Ok(Some(i as u64 + 1));
        }
    }
    Ok(None)
}

/// The first item at which the averages of the monomials fail, 0 where they are not those of the standard
/// monomials, or there are none.
pub(crate) fn first_average(
    alloc: Global,
    space: &Space<PrimeField, Dp>,
    cert: &Certificate<u16>,
    gens: &[Matrix<u16>],
    group: &Group<u16>,
    monomials: &[Mono],
    lines: &[Image<u16>],
) -> Result<Option<u64>, Memory>
    requires given { let S = space_over (⟦<PrimeField as Field>⟧.field) (⟦<Dp as TermOrder>⟧.order) space.now in IsGiven S gens.now cert.now }
    requires positive { AllPositive (degrees cert.now) }
    requires order { IsOrder (⟦<PrimeField as Field>⟧.field space.now.field) (size cert.now) (cells_of gens.now) cert.now.order }
    requires group { IsGroupOf (⟦<PrimeField as Field>⟧.field space.now.field) (size cert.now) gens.now group.now }
    requires monomials { let k = ⟦<PrimeField as Field>⟧.field space.now.field in
        AreStandardMonomials k (size cert.now) (primaries k cert.now) monomials.now }
    requires lines { All (IsSmallLine (combined (⟦<PrimeField as Field>⟧.field space.now.field) cert.now) (size cert.now)) lines.now }
    ensures first { let k = ⟦<PrimeField as Field>⟧.field space.now.field in
        IfOk result (IsFirstFailing (MeetsAverages k gens.now cert.now lines.now)) }
{
    let _ = gens;
    let Some(averaging) = Reynolds::of(&space.field, group) else {
        return Ok(Some(0));
    };
    if !have_monomials(lines, monomials) {
        return Ok(Some(0));
    }
    let theta = cert.primaries.as_slice();
    let secs = cert.secondaries.as_slice();
    let first = first_other(alloc, space, theta, secs, &averaging, lines)?;
    Ok(first)
}
