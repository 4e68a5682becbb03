//! The limit on the monomials of the degrees of the secondary invariants.

ghost use Rattle.std.specs.Prelude.{◌≡◌, ◌≤◌, ℕ, All, IfOk, IfErr, IfNone, IfSome};
ghost use Rattle.alg_core.specs.Binomials.{monomials_of_degree};
ghost use Rattle.alg_core.specs.LimitRanges.{AreLimits};
ghost use Rattle.alg_core.specs.Spaces.{over as space_over};
ghost use Rattle.secondary_gens.specs.Forms.{IsSmallForm};
ghost use Rattle.cert_check.specs.Conditions.{Redundance};
ghost use Rattle.cert_check.specs.Endings.{IsGiven, IsTold};
ghost use Rattle.cert_check.specs.Parts.{size};
ghost use Rattle.cert_check.specs.Work.{Reached, IsPast, IsFirstPast};

use crate::ending::Ending;
use alg_core::{Dp, Field, Limits, Space, TermOrder};
use certificate_io::Certificate;
use lin_algebra::Matrix;
use prime_field::PrimeField;
use secondary_gens::degrees::degree;
use std::alloc::Global;

/// How many monomials of this degree there are. Each turn takes the count for one variable more.
fn monomial_count(variables: u32, degree: u32) -> u128
    requires positive { 1 ≤ variables }
    requires few { variables ≤ 12 }
    requires degree { degree ≤ 12288 }
    ensures is { result ≡ monomials_of_degree variables degree }
{
    let mut count = 1;
    for i in 1..variables {
        count = count * u128::from(degree + i) / u128::from(i);
    }
    count
}

/// The first degree of a secondary invariant with more monomials than that, and their number.
fn first_past(
    space: &Space<PrimeField, Dp>,
    cert: &Certificate<u16>,
    max_terms: u32,
) -> Option<(u32, u128)>
    requires some { 1 ≤ size cert.now }
    requires few { size cert.now ≤ 12 }
    requires forms { let S = space_over (⟦<PrimeField as Field>⟧.field) (⟦<Dp as TermOrder>⟧.order) space.now in
        All (IsSmallForm S) cert.now.secondaries }
    ensures none { IfNone result ((j : ℕ) → ¬ IsPast cert.now max_terms j) }
    ensures first { IfSome result (λ r. IsFirstPast cert.now max_terms r.0) }
    ensures count { IfSome result (λ r. r.1 ≡ monomials_of_degree (size cert.now) r.0) }
{
    let secs = cert.secondaries.as_slice();
    for i in 0..secs.len() {
        let d = degree(space, &secs[i]);
        let count = monomial_count(cert.names.len() as u32, d);
        if count > u128::from(max_terms) {
            return Some((d, count));
        }
    }
    None
}

/// Whether no degree of a secondary invariant has more monomials than the limit allows.
pub(crate) fn check_terms(
    alloc: Global,
    space: &Space<PrimeField, Dp>,
    cert: &Certificate<u16>,
    gens: &[Matrix<u16>],
    limits: &Limits,
) -> Result<(), Ending>
    requires given { let S = space_over (⟦<PrimeField as Field>⟧.field) (⟦<Dp as TermOrder>⟧.order) space.now in IsGiven S gens.now cert.now }
    requires limits { AreLimits limits.now }
    requires reached { let S = space_over (⟦<PrimeField as Field>⟧.field) (⟦<Dp as TermOrder>⟧.order) space.now in
        Reached S.field gens.now cert.now limits.now (Redundance, 0) }
    ensures reached { let S = space_over (⟦<PrimeField as Field>⟧.field) (⟦<Dp as TermOrder>⟧.order) space.now in
        IfOk result (λ _. Reached S.field gens.now cert.now limits.now (Redundance, 1)) }
    ensures told { IfErr result (IsTold cert.now limits.now) }
{
    let _ = alloc;
    let _ = gens;
    match first_past(space, cert, limits.max_terms) {
        Some((degree, count)) => Err(Ending::TermBound { degree, count }),
        None => Ok(()),
    }
}
