//! The space with a mark for each primary invariant, and the primary invariants there.

ghost use Rattle.std.specs.Prelude.{◌≡◌, ℕ, IfOk};
ghost use Rattle.alg_core.specs.Spaces.{over as space_over};
ghost use Rattle.poly_module.specs.SpaceVectors.{ArePolys, vectors_of};
ghost use Rattle.finite_certificate.specs.MarkSpaces.{mark_space};
ghost use Rattle.cert_check.specs.Conditions.{Lifts, K2};
ghost use Rattle.cert_check.specs.Endings.{IsGiven, IsMarkedOf};
ghost use Rattle.cert_check.specs.Work.{Reached};

use alg_core::{BlockOrder, Dp, Field, Limits, Memory, Space, TermOrder};
use certificate_io::Certificate;
use lin_algebra::Matrix;
use poly_module::Poly;
use primary_module::all_with_marks;
use prime_field::PrimeField;
use secondary_gens::degrees::degrees;
use std::alloc::Global;

/// The space with a mark for each primary invariant, of its degree.
pub(crate) fn marked_of(
    alloc: Global,
    space: &Space<PrimeField, Dp>,
    cert: &Certificate<u16>,
    gens: &[Matrix<u16>],
    limits: &Limits,
) -> Result<Space<PrimeField, BlockOrder>, Memory>
    requires given { let S = space_over (⟦<PrimeField as Field>⟧.field) (⟦<Dp as TermOrder>⟧.order) space.now in IsGiven S gens.now cert.now }
    requires reached { let S = space_over (⟦<PrimeField as Field>⟧.field) (⟦<Dp as TermOrder>⟧.order) space.now in
        Reached S.field gens.now cert.now limits.now (Lifts, 0) }
    ensures beside { let S = space_over (⟦<PrimeField as Field>⟧.field) (⟦<Dp as TermOrder>⟧.order) space.now in
        IfOk result (λ s. let M = mark_space (⟦<PrimeField as Field>⟧.field) s in IsMarkedOf cert.now S M s.order.vars s.order.weights.items) }
{
    let _ = gens;
    let _ = limits;
    let degrees = degrees(alloc, space, cert.primaries.as_slice())?;
    let variables = cert.names.len() as u32;
    let marked = Space::with_marks(alloc, space.field, variables, degrees.as_slice())?;
    Ok(marked)
}

/// The primary invariants in the space with marks.
pub(crate) fn marked_primaries(
    alloc: Global,
    space: &Space<PrimeField, Dp>,
    marked: &Space<PrimeField, BlockOrder>,
    cert: &Certificate<u16>,
    gens: &[Matrix<u16>],
) -> Result<Vec<Poly<u16>>, Memory>
    requires given { let S = space_over (⟦<PrimeField as Field>⟧.field) (⟦<Dp as TermOrder>⟧.order) space.now in IsGiven S gens.now cert.now }
    requires beside { let S = space_over (⟦<PrimeField as Field>⟧.field) (⟦<Dp as TermOrder>⟧.order) space.now in
        let M = mark_space (⟦<PrimeField as Field>⟧.field) marked.now in IsMarkedOf cert.now S M marked.now.order.vars marked.now.order.weights.items }
    requires met { let S = space_over (⟦<PrimeField as Field>⟧.field) (⟦<Dp as TermOrder>⟧.order) space.now in
        (j : ℕ) → K2 S.field gens.now cert.now j }
    ensures polynomials { let M = mark_space (⟦<PrimeField as Field>⟧.field) marked.now in IfOk result (λ ps. ArePolys M (λ m. m) ps.items) }
    ensures same { let M = mark_space (⟦<PrimeField as Field>⟧.field) marked.now in
        IfOk result (λ ps. vectors_of M (λ m. m) ps.items ≡ vectors_of M (λ m. m) cert.now.primaries) }
{
    let _ = space;
    let _ = gens;
    let theta = all_with_marks(alloc, marked, cert.primaries.as_slice())?;
    Ok(theta)
}
