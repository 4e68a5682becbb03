//! The primary invariants.

ghost use Rattle.std.specs.Prelude.{IfOk, IfErr};
ghost use Rattle.alg_core.specs.LimitRanges.{AreLimits};
ghost use Rattle.alg_core.specs.Spaces.{over as space_over};
ghost use Rattle.cert_check.specs.Conditions.{Primaries, Lifts};
ghost use Rattle.cert_check.specs.Endings.{IsGiven, IsTold};
ghost use Rattle.cert_check.specs.Work.{Reached};

use crate::ending::Ending;
use crate::forms::first_other;
use alg_core::{Dp, Field, Limits, Space, TermOrder};
use certificate_io::Certificate;
use lin_algebra::Matrix;
use prime_field::PrimeField;
use std::alloc::Global;

/// Whether each primary invariant is homogeneous, of positive degree and invariant.
pub(crate) fn check_primaries(
    alloc: Global,
    space: &Space<PrimeField, Dp>,
    cert: &Certificate<u16>,
    gens: &[Matrix<u16>],
    limits: &Limits,
) -> Result<(), Ending>
    requires given { let S = space_over (⟦<PrimeField as Field>⟧.field) (⟦<Dp as TermOrder>⟧.order) space.now in IsGiven S gens.now cert.now }
    requires limits { AreLimits limits.now }
    requires reached { let S = space_over (⟦<PrimeField as Field>⟧.field) (⟦<Dp as TermOrder>⟧.order) space.now in
        Reached S.field gens.now cert.now limits.now (Primaries, 0) }
    ensures reached { let S = space_over (⟦<PrimeField as Field>⟧.field) (⟦<Dp as TermOrder>⟧.order) space.now in
        IfOk result (λ _. Reached S.field gens.now cert.now limits.now (Lifts, 0)) }
    ensures told { IfErr result (IsTold cert.now limits.now) }
{
    let _ = limits;
    match first_other(alloc, space, cert.primaries.as_slice(), gens, 1)? {
        Some(item) => Err(Ending::Rejected { condition: 2, item }),
        None => Ok(()),
    }
}
