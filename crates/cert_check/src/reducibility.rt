//! The irreducible generators as a list without superfluous members.

ghost use Rattle.std.specs.Prelude.{IfOk, IfErr};
ghost use Rattle.alg_core.specs.LimitRanges.{AreLimits};
ghost use Rattle.alg_core.specs.Spaces.{over as space_over};
ghost use Rattle.cert_check.specs.Conditions.{Reducibility};
ghost use Rattle.cert_check.specs.Endings.{IsGiven, IsTold};
ghost use Rattle.cert_check.specs.Work.{Reached, Passes};

use crate::ending::Ending;
use alg_core::{Dp, Field, Limits, Space, TermOrder};
use certificate_io::Certificate;
use irreducible_gens::first_reducible;
use lin_algebra::Matrix;
use prime_field::PrimeField;
use std::alloc::Global;

/// Whether no irreducible generator is a polynomial in the primary invariants and the others.
pub(crate) fn check_reducibility(
    alloc: Global,
    space: &Space<PrimeField, Dp>,
    cert: &Certificate<u16>,
    gens: &[Matrix<u16>],
    limits: &Limits,
) -> Result<(), Ending>
    requires given { let S = space_over (⟦<PrimeField as Field>⟧.field) (⟦<Dp as TermOrder>⟧.order) space.now in IsGiven S gens.now cert.now }
    requires limits { AreLimits limits.now }
    requires reached { let S = space_over (⟦<PrimeField as Field>⟧.field) (⟦<Dp as TermOrder>⟧.order) space.now in
        Reached S.field gens.now cert.now limits.now (Reducibility, 0) }
    ensures passes { let S = space_over (⟦<PrimeField as Field>⟧.field) (⟦<Dp as TermOrder>⟧.order) space.now in
        IfOk result (λ _. Passes S.field gens.now cert.now limits.now) }
    ensures told { IfErr result (IsTold cert.now limits.now) }
{
    let _ = gens;
    let _ = limits;
    let theta = cert.primaries.as_slice();
    let irr = cert.irreducibles.as_slice();
    match first_reducible(alloc, space, theta, irr)? {
        Some(item) => Err(Ending::Rejected {
            condition: 11,
            item,
        }),
        None => Ok(()),
    }
}
