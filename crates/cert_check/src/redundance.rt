//! The secondary invariants as a list without superfluous members.

ghost use Rattle.std.specs.Prelude.{IfOk, IfErr};
ghost use Rattle.alg_core.specs.LimitRanges.{AreLimits};
ghost use Rattle.alg_core.specs.Spaces.{over as space_over};
ghost use Rattle.cert_check.specs.Conditions.{Redundance, Words};
ghost use Rattle.cert_check.specs.Endings.{IsGiven, IsTold};
ghost use Rattle.cert_check.specs.Work.{Reached};

use crate::ending::Ending;
use alg_core::{Dp, Field, Limits, Space, TermOrder};
use certificate_io::Certificate;
use lin_algebra::Matrix;
use prime_field::PrimeField;
use secondary_gens::first_redundant;
use std::alloc::Global;

/// Whether no secondary invariant is a combination over the primary invariants and the others.
pub(crate) fn check_redundance(
    alloc: Global,
    space: &Space<PrimeField, Dp>,
    cert: &Certificate<u16>,
    gens: &[Matrix<u16>],
    limits: &Limits,
) -> Result<(), Ending>
    requires given { let S = space_over (⟦<PrimeField as Field>⟧.field) (⟦<Dp as TermOrder>⟧.order) space.now in IsGiven S gens.now cert.now }
    requires limits { AreLimits limits.now }
    requires reached { let S = space_over (⟦<PrimeField as Field>⟧.field) (⟦<Dp as TermOrder>⟧.order) space.now in
        Reached S.field gens.now cert.now limits.now (Redundance, 1) }
    ensures reached { let S = space_over (⟦<PrimeField as Field>⟧.field) (⟦<Dp as TermOrder>⟧.order) space.now in
        IfOk result (λ _. Reached S.field gens.now cert.now limits.now (Words, 0)) }
    ensures told { IfErr result (IsTold cert.now limits.now) }
{
    let _ = gens;
    let _ = limits;
    let theta = cert.primaries.as_slice();
    let secs = cert.secondaries.as_slice();
    match first_redundant(alloc, space, theta, secs)? {
        Some(item) => Err(Ending::Rejected { condition: 9, item }),
        None => Ok(()),
    }
}
