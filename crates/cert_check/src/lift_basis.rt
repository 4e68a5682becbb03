//! The lifts as the reduced basis of the relations between the primary invariants and their marks.

ghost use Rattle.std.specs.Prelude.{◌≡◌, ◌↔◌, ◌+◌, ◌<◌, IfOk, IfErr, IsTrue, length};
ghost use Rattle.alg_core.specs.Spaces.{over as space_over};
ghost use Rattle.poly_module.specs.Degrees.{IsHomogeneous};
ghost use Rattle.poly_module.specs.Marks.{relation, relations};
ghost use Rattle.poly_module.specs.SpaceVectors.{IsPositive, HasPolynomials, IsPoly, ArePolys, AreVectors, vector_of, vectors_of};
ghost use Rattle.poly_module.specs.Substitutions.{variable_vector};
ghost use Rattle.module_groebner.specs.HomogeneousLists.{degree_limit, cap_limit, AreUpTo};
ghost use Rattle.finite_certificate.specs.MarkSpaces.{mark_space, IsMarkSpace, ArePositiveForms};
ghost use Rattle.groebner_hom.specs.IdealBases.{IsHomogeneousPoly, AreHomogeneousPolys};
ghost use Rattle.groebner_hom.specs.Lifts.{AreLifts, LeadsWithoutMarks};
ghost use Rattle.cert_check.specs.Conditions.{LiftBasis, Rank};
ghost use Rattle.cert_check.specs.Endings.{IsGiven, IsMarkedOf, IsTold};
ghost use Rattle.cert_check.specs.Work.{Reached};

use crate::ending::Ending;
use crate::leads::leads_are_unmarked;
use crate::marked::marked_primaries;
use alg_core::{BlockOrder, Dp, Field, Limits, Memory, Space, TermOrder};
use certificate_io::Certificate;
use groebner_hom::relations;
use lin_algebra::Matrix;
use module_groebner::is_reduced_basis;
use poly_module::Poly;
use prime_field::PrimeField;
use std::alloc::Global;

/// Whether the polynomials are the lifts of the relations, and no lead of them has a mark.
fn are_unmarked_lifts<F: Field>(
    alloc: Global,
    space: &Space<F, BlockOrder>,
    theta: &[Poly<F::Elem>],
    lifts: &[Poly<F::Elem>],
) -> Result<bool, Memory>
    requires positive { IsPositive (mark_space F.field space.now) }
    requires space { IsMarkSpace (mark_space F.field space.now) space.now.order.vars space.now.order.weights.items }
    requires theta { ArePolys (mark_space F.field space.now) (λ m. m) theta.now }
    requires forms { let S = mark_space F.field space.now in
        ArePositiveForms S.field space.now.order.vars space.now.order.weights.items (vectors_of S (λ m. m) theta.now) }
    requires lifts { AreVectors (mark_space F.field space.now) (λ m. m) lifts.now }
    requires degrees { let S = mark_space F.field space.now in AreUpTo S cap_limit (vectors_of S (λ m. m) lifts.now) }
    ensures exact { let S = mark_space F.field space.now in let n = space.now.order.vars in let of = vectors_of S (λ m. m) in
        IfOk result (λ b. IsTrue b ↔ (AreLifts S n (of theta.now) (of lifts.now) × LeadsWithoutMarks S n (of lifts.now))) }
{
    if !leads_are_unmarked(space, lifts) {
        return Ok(false);
    }
    let relations = relations(alloc, space, theta)?;
    let are_basis = is_reduced_basis(alloc, space, lifts, relations.as_slice())?;
    Ok(are_basis)
}

/// Whether the lifts are the reduced basis of the relations, without marks in the leads.
pub(crate) fn check_lift_basis(
    alloc: Global,
    space: &Space<PrimeField, Dp>,
    marked: &Space<PrimeField, BlockOrder>,
    cert: &Certificate<u16>,
    gens: &[Matrix<u16>],
    limits: &Limits,
) -> Result<(), Ending>
    requires given { let S = space_over (⟦<PrimeField as Field>⟧.field) (⟦<Dp as TermOrder>⟧.order) space.now in IsGiven S gens.now cert.now }
    requires beside { let S = space_over (⟦<PrimeField as Field>⟧.field) (⟦<Dp as TermOrder>⟧.order) space.now in
        let M = mark_space (⟦<PrimeField as Field>⟧.field) marked.now in IsMarkedOf cert.now S M marked.now.order.vars marked.now.order.weights.items }
    requires reached { let S = space_over (⟦<PrimeField as Field>⟧.field) (⟦<Dp as TermOrder>⟧.order) space.now in
        Reached S.field gens.now cert.now limits.now (LiftBasis, 0) }
    ensures reached { let S = space_over (⟦<PrimeField as Field>⟧.field) (⟦<Dp as TermOrder>⟧.order) space.now in
        IfOk result (λ _. Reached S.field gens.now cert.now limits.now (Rank, 0)) }
    ensures told { IfErr result (IsTold cert.now limits.now) }
{
    let _ = limits;
    let theta = marked_primaries(alloc, space, marked, cert, gens)?;
    if !are_unmarked_lifts(alloc, marked, theta.as_slice(), cert.lifts.as_slice())? {
        return Err(Ending::Rejected {
            condition: 5,
            item: 0,
        });
    }
    Ok(())
}
