//! The free module over the primary invariants, and how many standard monomials there are.

ghost use Rattle.std.specs.Prelude.{◌≡◌, IfOk, IfErr};
ghost use Rattle.alg_core.specs.Spaces.{over as space_over};
ghost use Rattle.alg_core.specs.LimitRanges.{AreLimits};
ghost use Rattle.finite_certificate.specs.MarkSpaces.{mark_space};
ghost use Rattle.cert_check.specs.Conditions.{Rank, Secondaries};
ghost use Rattle.cert_check.specs.Endings.{IsGiven, IsMarkedOf, IsModuleOf, IsTold};
ghost use Rattle.cert_check.specs.Work.{Reached};

use crate::ending::Ending;
use crate::marked::marked_primaries;
use alg_core::{BlockOrder, Dp, Field, Limits, Memory, Space, TermOrder};
use certificate_io::Certificate;
use lin_algebra::Matrix;
use poly_module::{Poly, copy};
use primary_module::PrimaryModule;
use prime_field::PrimeField;
use std::alloc::Global;

/// Copies of the polynomials.
fn copies<E: Copy>(alloc: Global, fs: &[Poly<E>]) -> Result<Vec<Poly<E>>, Memory>
    ensures same { IfOk result (λ ps. ps.items ≡ fs.now) }
{
    let mut made = Vec::new(alloc);
    for i in 0..fs.len() {
        let f = &fs[i];
        made.push(copy(alloc, f)?)?;
    }
    Ok(made)
}

/// The free module over the primary invariants, where the printed rank is right. A power of each variable is
/// the lead of a lift, since it lies in the ideal of the primary invariants by its form.
/// (Derksen and Kemper, Computational Invariant Theory, section 3.5.)
pub(crate) fn checked_module(
    alloc: Global,
    space: &Space<PrimeField, Dp>,
    marked: &Space<PrimeField, BlockOrder>,
    cert: &Certificate<u16>,
    gens: &[Matrix<u16>],
    limits: &Limits,
) -> Result<PrimaryModule<u16>, Ending>
    requires given { let S = space_over (⟦<PrimeField as Field>⟧.field) (⟦<Dp as TermOrder>⟧.order) space.now in IsGiven S gens.now cert.now }
    requires limits { AreLimits limits.now }
    requires beside { let S = space_over (⟦<PrimeField as Field>⟧.field) (⟦<Dp as TermOrder>⟧.order) space.now in
        let M = mark_space (⟦<PrimeField as Field>⟧.field) marked.now in IsMarkedOf cert.now S M marked.now.order.vars marked.now.order.weights.items }
    requires reached { let S = space_over (⟦<PrimeField as Field>⟧.field) (⟦<Dp as TermOrder>⟧.order) space.now in
        Reached S.field gens.now cert.now limits.now (Rank, 0) }
    ensures reached { let S = space_over (⟦<PrimeField as Field>⟧.field) (⟦<Dp as TermOrder>⟧.order) space.now in
        IfOk result (λ _. Reached S.field gens.now cert.now limits.now (Secondaries, 0)) }
    ensures module { let S = space_over (⟦<PrimeField as Field>⟧.field) (⟦<Dp as TermOrder>⟧.order) space.now in
        let M = mark_space (⟦<PrimeField as Field>⟧.field) marked.now in
        IfOk result (IsModuleOf cert.now S M marked.now.order.vars marked.now.order.weights.items) }
    ensures told { IfErr result (IsTold cert.now limits.now) }
{
    let theta = marked_primaries(alloc, space, marked, cert, gens)?;
    let lifts = copies(alloc, cert.lifts.as_slice())?;
    let free_module = PrimaryModule::new(alloc, marked, theta, lifts, limits.max_rank)?;
    if free_module.monomials().len() as u64 != cert.rank {
        return Err(Ending::Rejected {
            condition: 6,
            item: cert.names.len() as u64 + 1,
        });
    }
    Ok(free_module)
}
