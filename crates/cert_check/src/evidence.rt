//! The condition on the evidence that every invariant is a combination of the secondary ones.

ghost use Rattle.std.specs.Prelude.{ℕ, IfErr, IfOk};
ghost use Rattle.alg_core.specs.LimitRanges.{AreLimits};
ghost use Rattle.alg_core.specs.Spaces.{over as space_over};
ghost use Rattle.finite_certificate.specs.MarkSpaces.{mark_space};
ghost use Rattle.matrix_group.specs.Groups.{cells_of, IsOrder};
ghost use Rattle.cert_check.specs.Conditions.{Evidence as EvidenceCondition, K2, K8, Redundance};
ghost use Rattle.cert_check.specs.Endings.{IsFirstFailing, IsGiven, IsGroupOf, IsMarkedOf, IsModuleOf, IsTold};
ghost use Rattle.cert_check.specs.Parts.{size};
ghost use Rattle.cert_check.specs.Work.{Reached};

use crate::averages::first_average;
use crate::ending::Ending;
use crate::kernels::first_member;
use alg_core::{BlockOrder, Dp, Field, Limits, Memory, Space, TermOrder};
use certificate_io::{Certificate, Evidence};
use lin_algebra::Matrix;
use matrix_group::Group;
use primary_module::PrimaryModule;
use prime_field::PrimeField;
use std::alloc::Global;

/// The first item at which the evidence fails, 0 where its whole list does.
fn first_failing(
    alloc: Global,
    space: &Space<PrimeField, Dp>,
    marked: &Space<PrimeField, BlockOrder>,
    cert: &Certificate<u16>,
    gens: &[Matrix<u16>],
    group: &Group<u16>,
    free_module: &PrimaryModule<u16>,
) -> Result<Option<u64>, Memory>
    requires given { let S = space_over (⟦<PrimeField as Field>⟧.field) (⟦<Dp as TermOrder>⟧.order) space.now in IsGiven S gens.now cert.now }
    requires beside { let S = space_over (⟦<PrimeField as Field>⟧.field) (⟦<Dp as TermOrder>⟧.order) space.now in
        let M = mark_space (⟦<PrimeField as Field>⟧.field) marked.now in
        IsMarkedOf cert.now S M marked.now.order.vars marked.now.order.weights.items }
    requires group { IsGroupOf (⟦<PrimeField as Field>⟧.field space.now.field) (size cert.now) gens.now group.now }
    requires module { let S = space_over (⟦<PrimeField as Field>⟧.field) (⟦<Dp as TermOrder>⟧.order) space.now in
        let M = mark_space (⟦<PrimeField as Field>⟧.field) marked.now in
        IsModuleOf cert.now S M marked.now.order.vars marked.now.order.weights.items free_module.now }
    requires order { IsOrder (⟦<PrimeField as Field>⟧.field space.now.field) (size cert.now) (cells_of gens.now) cert.now.order }
    requires primaries { (i : ℕ) → K2 (⟦<PrimeField as Field>⟧.field space.now.field) gens.now cert.now i }
    ensures first { let k = ⟦<PrimeField as Field>⟧.field space.now.field in
        IfOk result (IsFirstFailing (K8 k gens.now cert.now)) }
{
    match &cert.evidence {
        Evidence::Reynolds(lines) => {
            let monomials = free_module.monomials();
            let lines = lines.as_slice();
            let first = first_average(alloc, space, cert, gens, group, monomials, lines)?;
            Ok(first)
        }
        Evidence::Kernel(lines) => {
            let lines = lines.as_slice();
            let first = first_member(alloc, space, marked, cert, gens, free_module, lines)?;
            Ok(first)
        }
    }
}

/// The evidence, by the group and by the free module over the primary invariants.
pub(crate) fn check_evidence(
    alloc: Global,
    space: &Space<PrimeField, Dp>,
    marked: &Space<PrimeField, BlockOrder>,
    cert: &Certificate<u16>,
    gens: &[Matrix<u16>],
    group: &Group<u16>,
    free_module: &PrimaryModule<u16>,
    limits: &Limits,
) -> Result<(), Ending>
    requires given { let S = space_over (⟦<PrimeField as Field>⟧.field) (⟦<Dp as TermOrder>⟧.order) space.now in IsGiven S gens.now cert.now }
    requires limits { AreLimits limits.now }
    requires beside { let S = space_over (⟦<PrimeField as Field>⟧.field) (⟦<Dp as TermOrder>⟧.order) space.now in
        let M = mark_space (⟦<PrimeField as Field>⟧.field) marked.now in
        IsMarkedOf cert.now S M marked.now.order.vars marked.now.order.weights.items }
    requires group { let S = space_over (⟦<PrimeField as Field>⟧.field) (⟦<Dp as TermOrder>⟧.order) space.now in
        IsGroupOf S.field (size cert.now) gens.now group.now }
    requires module { let S = space_over (⟦<PrimeField as Field>⟧.field) (⟦<Dp as TermOrder>⟧.order) space.now in
        let M = mark_space (⟦<PrimeField as Field>⟧.field) marked.now in
        IsModuleOf cert.now S M marked.now.order.vars marked.now.order.weights.items free_module.now }
    requires reached { let S = space_over (⟦<PrimeField as Field>⟧.field) (⟦<Dp as TermOrder>⟧.order) space.now in
        Reached S.field gens.now cert.now limits.now (EvidenceCondition, 0) }
    ensures reached { let S = space_over (⟦<PrimeField as Field>⟧.field) (⟦<Dp as TermOrder>⟧.order) space.now in
        IfOk result (λ _. Reached S.field gens.now cert.now limits.now (Redundance, 0)) }
    ensures told { IfErr result (IsTold cert.now limits.now) }
{
    let _ = limits;
    let first = first_failing(alloc, space, marked, cert, gens, group, free_module)?;
    match first {
        None => Ok(()),
        Some(item) => Err(Ending::Rejected { condition: 8, item }),
    }
}
