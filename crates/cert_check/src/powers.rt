//! The powers of the variables.

ghost use Rattle.std.specs.Prelude.{IfOk, IfErr};
ghost use Rattle.alg_core.specs.Spaces.{over as space_over};
ghost use Rattle.finite_certificate.specs.MarkSpaces.{mark_space};
ghost use Rattle.cert_check.specs.Conditions.{Powers, LiftBasis};
ghost use Rattle.cert_check.specs.Endings.{IsGiven, IsMarkedOf, IsTold};
ghost use Rattle.cert_check.specs.Work.{Reached};

use crate::ending::Ending;
use crate::marked::marked_primaries;
use alg_core::{BlockOrder, Dp, Field, Limits, Space, TermOrder};
use certificate_io::Certificate;
use finite_certificate::verify;
use lin_algebra::Matrix;
use prime_field::PrimeField;
use std::alloc::Global;

/// Whether each power of a variable is the value of its form, and this has a mark in each term.
pub(crate) fn check_powers(
    alloc: Global,
    space: &Space<PrimeField, Dp>,
    marked: &Space<PrimeField, BlockOrder>,
    cert: &Certificate<u16>,
    gens: &[Matrix<u16>],
    limits: &Limits,
) -> Result<(), Ending>
    requires given { let S = space_over (⟦<PrimeField as Field>⟧.field) (⟦<Dp as TermOrder>⟧.order) space.now in IsGiven S gens.now cert.now }
    requires beside { let S = space_over (⟦<PrimeField as Field>⟧.field) (⟦<Dp as TermOrder>⟧.order) space.now in
        let M = mark_space (⟦<PrimeField as Field>⟧.field) marked.now in IsMarkedOf cert.now S M marked.now.order.vars marked.now.order.weights.items }
    requires reached { let S = space_over (⟦<PrimeField as Field>⟧.field) (⟦<Dp as TermOrder>⟧.order) space.now in
        Reached S.field gens.now cert.now limits.now (Powers, 0) }
    ensures reached { let S = space_over (⟦<PrimeField as Field>⟧.field) (⟦<Dp as TermOrder>⟧.order) space.now in
        IfOk result (λ _. Reached S.field gens.now cert.now limits.now (LiftBasis, 0)) }
    ensures told { IfErr result (IsTold cert.now limits.now) }
{
    let _ = limits;
    let theta = marked_primaries(alloc, space, marked, cert, gens)?;
    match verify(alloc, marked, theta.as_slice(), cert.powers.as_slice())? {
        None => Ok(()),
        Some(item) => Err(Ending::Rejected {
            condition: 4,
            item: item as u64,
        }),
    }
}
