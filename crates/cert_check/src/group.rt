//! The group of the matrices, and its order.

ghost use Rattle.std.specs.Prelude.{◌↔◌, IfOk, IfErr, IsTrue, All};
ghost use Rattle.alg_core.specs.LimitRanges.{AreLimits};
ghost use Rattle.alg_core.specs.Spaces.{over as space_over};
ghost use Rattle.lin_algebra.specs.declared.matrix.Matrix.{Matrix};
ghost use Rattle.matrix_group.specs.Actions.{IsSquare};
ghost use Rattle.matrix_group.specs.Groups.{IsNonsingular};
ghost use Rattle.cert_check.specs.Conditions.{Primaries};
ghost use Rattle.cert_check.specs.Endings.{IsGiven, IsGroupOf, IsFirstFailing, IsTold};
ghost use Rattle.cert_check.specs.Parts.{At, size};
ghost use Rattle.cert_check.specs.Work.{Reached};

use crate::ending::Ending;
use alg_core::{Dp, Field, Limits, Memory, Space, TermOrder};
use certificate_io::Certificate;
use lin_algebra::{Matrix, inverse};
use matrix_group::{Group, enumerate};
use prime_field::PrimeField;
use std::alloc::Global;

/// Whether the matrix has an inverse.
fn is_invertible<F: Field>(alloc: Global, field: &F, m: &Matrix<F::Elem>) -> Result<bool, Memory>
    requires square { IsSquare (F.field field.now) m.now.rows m.now }
    ensures exact { IfOk result (λ b. IsTrue b ↔ IsNonsingular (F.field field.now) m.now) }
{
    let found = inverse(alloc, field, m)?;
    Ok(found.is_some())
}

/// The first place, from 1, whose matrix has no inverse.
fn first_singular<F: Field>(
    alloc: Global,
    field: &F,
    gens: &[Matrix<F::Elem>],
) -> Result<Option<u64>, Memory>
    requires square { All (λ m. IsSquare (F.field field.now) m.rows m) gens.now }
    ensures first { let k = F.field field.now in
        IfOk result (IsFirstFailing (λ i. (m : Matrix F.Elem) → At gens.now i m → IsNonsingular k m)) }
{
    for i in 0..gens.len() {
        let m = &gens[i];
        if !is_invertible(alloc, field, m)? {
            return Ok(Some(i as u64 + 1));
        }
    }
    Ok(None)
}

/// The group of the matrices, where each has an inverse and the printed order is that of the group. The
/// limit on the elements of the group is looked at once the matrices are known to be invertible.
pub(crate) fn check_group(
    alloc: Global,
    space: &Space<PrimeField, Dp>,
    cert: &Certificate<u16>,
    gens: &[Matrix<u16>],
    limits: &Limits,
) -> Result<Group<u16>, Ending>
    requires given { let S = space_over (⟦<PrimeField as Field>⟧.field) (⟦<Dp as TermOrder>⟧.order) space.now in IsGiven S gens.now cert.now }
    requires limits { AreLimits limits.now }
    ensures reached { let S = space_over (⟦<PrimeField as Field>⟧.field) (⟦<Dp as TermOrder>⟧.order) space.now in
        IfOk result (λ _. Reached S.field gens.now cert.now limits.now (Primaries, 0)) }
    ensures group { let S = space_over (⟦<PrimeField as Field>⟧.field) (⟦<Dp as TermOrder>⟧.order) space.now in
        IfOk result (IsGroupOf S.field (size cert.now) gens.now) }
    ensures told { IfErr result (IsTold cert.now limits.now) }
{
    if let Some(item) = first_singular(alloc, &space.field, gens)? {
        return Err(Ending::Rejected { condition: 1, item });
    }
    let group = enumerate(alloc, &space.field, gens, limits.max_order)?;
    if group.order() != cert.order {
        return Err(Ending::Rejected {
            condition: 1,
            item: gens.len() as u64 + 1,
        });
    }
    Ok(group)
}
