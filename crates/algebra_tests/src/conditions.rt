//! Conditions of calls, tested.

ghost use Rattle.std.specs.Prelude.{◌≡◌, ◌<◌, IsTrue, length};
ghost use Rattle.alg_core.specs.Spaces.{over};
ghost use Rattle.alg_core.specs.SpaceGrading.{AllPositive};
ghost use Rattle.poly_module.specs.SpaceVectors.{IsPositive, IsVector, AreVectors, vector_of, vectors_of};
ghost use Rattle.module_groebner.specs.HomogeneousLists.{degree_limit, cap_limit, IsHomogeneousUpTo, AreHomogeneousUpTo, AreNonzero};

use alg_core::{Field, Mono, Space, TermOrder};
use poly_module::{Vector, is_homogeneous, lead};
use test_inputs::has_small_degrees;

/// Whether no weight is 0.
fn are_positive(weights: &[u32]) -> bool
    ensures is { IsTrue result → AllPositive weights.now }
{
    for i in 0..weights.len() {
        if weights[i] == 0 {
            return false;
        }
    }
    true
}

/// Whether no weight of the order and none of the grading is 0.
pub fn is_positive<F: Field, O: TermOrder>(space: &Space<F, O>) -> bool
    ensures is { IsTrue result → IsPositive (over F.field O.order space.now) }
{
    space.order.is_positive() && are_positive(&space.grading.weights)
}

/// Whether the vector is homogeneous of a degree that is at most 1000.
fn is_small_form<F: Field<Elem = u16>, O: TermOrder>(
    space: &Space<F, O>,
    v: &Vector<u16, Mono>,
) -> bool
    requires vector { IsVector (over F.field O.order space.now) (λ m. m) v.now }
    ensures is { let S = over F.field O.order space.now in
        IsTrue result → IsHomogeneousUpTo S cap_limit (vector_of S (λ m. m) v.now) }
{
    is_homogeneous(space, v) && has_small_degrees(space, v)
}

/// Whether each vector is homogeneous of a degree that is at most 1000.
pub fn are_homogeneous<F: Field<Elem = u16>, O: TermOrder>(
    space: &Space<F, O>,
    vs: &[Vector<u16, Mono>],
) -> bool
    requires vectors { AreVectors (over F.field O.order space.now) (λ m. m) vs.now }
    ensures divided { let S = over F.field O.order space.now in
        IsTrue result → AreHomogeneousUpTo S degree_limit (vectors_of S (λ m. m) vs.now) }
    ensures listed { let S = over F.field O.order space.now in
        IsTrue result → AreHomogeneousUpTo S cap_limit (vectors_of S (λ m. m) vs.now) }
{
    for i in 0..vs.len() {
        let v = &vs[i];
        if !is_small_form(space, v) {
            return false;
        }
    }
    true
}

/// Whether no vector is 0.
pub fn are_nonzero<F: Field<Elem = u16>, O: TermOrder>(
    space: &Space<F, O>,
    vs: &[Vector<u16, Mono>],
) -> bool
    requires vectors { AreVectors (over F.field O.order space.now) (λ m. m) vs.now }
    ensures is { let S = over F.field O.order space.now in
        IsTrue result → AreNonzero S.field (vectors_of S (λ m. m) vs.now) }
{
    for i in 0..vs.len() {
        let v = &vs[i];
        if lead(space, v).is_none() {
            return false;
        }
    }
    true
}
