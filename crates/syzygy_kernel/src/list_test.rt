ghost use Rattle.std.specs.Prelude.{◌≡◌, ◌↔◌, ◌≤◌, IsTrue, IfOk, All, map};
ghost use Rattle.poly_module.specs.SpaceVectors.{IsPoly, IsUpTo, vector_of, vectors_of};
ghost use Rattle.matrix_group.specs.Actions.{IsSquare, Invariant};
ghost use Rattle.finite_certificate.specs.MarkSpaces.{mark_space, degree_limit};
ghost use Rattle.primary_module.specs.PrimaryModules.{IsLowPoly, StandsOver};
ghost use Rattle.syzygy_kernel.specs.Kernels.{AreKernel, polynomial_of};

use crate::evidence::kernel;
use crate::member::Member;
use alg_core::{BlockOrder, Field, Memory, Space};
use lin_algebra::Matrix;
use module_groebner::BasisFault;
use poly_module::{Poly, are_equal, degree};
use primary_module::PrimaryModule;
use std::alloc::Global;

/// The greatest degree of a term of the polynomial, or 0.
fn degree_or_zero<F: Field>(space: &Space<F, BlockOrder>, u: &Poly<F::Elem>) -> u32
    requires low { IsLowPoly (mark_space F.field space.now) u.now }
    ensures bound { let S = mark_space F.field space.now in IsUpTo S result (vector_of S (λ m. m) u.now) }
    ensures small { result ≤ degree_limit }
{
    match degree(space, u) {
        Some(d) => d as u32,
        None => 0,
    }
}

/// The greatest degree of a term of a polynomial of the list, or 0.
fn greatest_degree<F: Field>(space: &Space<F, BlockOrder>, list: &[Member<F::Elem>]) -> u32
    requires list { All (λ m. IsLowPoly (mark_space F.field space.now) m.u) list.now }
    ensures bound { let S = mark_space F.field space.now in All (λ m. IsUpTo S result (vector_of S (λ a. a) m.u)) list.now }
    ensures small { result ≤ degree_limit }
{
    let mut most = 0;
    for i in 0..list.len() {
        let member = &list[i];
        let d = degree_or_zero(space, &member.u);
        if most < d {
            most = d;
        }
    }
    most
}

/// Whether the two members have the same polynomial and the same name.
fn are_alike<F: Field>(
    space: &Space<F, BlockOrder>,
    a: &Member<F::Elem>,
    b: &Member<F::Elem>,
) -> bool
    requires left { IsPoly (mark_space F.field space.now) (λ m. m) a.now.u }
    requires right { IsPoly (mark_space F.field space.now) (λ m. m) b.now.u }
    ensures exact { let k = F.field space.now.field in
        IsTrue result ↔ ((polynomial_of k a.now ≡ polynomial_of k b.now) × (a.now.is_fixed ≡ b.now.is_fixed)) }
{
    a.is_fixed == b.is_fixed && are_equal(space, &a.u, &b.u)
}

/// Whether the lists have the same polynomials and the same names at all places.
fn are_same<F: Field>(
    space: &Space<F, BlockOrder>,
    a: &[Member<F::Elem>],
    b: &[Member<F::Elem>],
) -> bool
    requires left { All (λ m. IsPoly (mark_space F.field space.now) (λ m. m) m.u) a.now }
    requires right { All (λ m. IsPoly (mark_space F.field space.now) (λ m. m) m.u) b.now }
    ensures exact { let k = F.field space.now.field in IsTrue result ↔ ((map (polynomial_of k) a.now ≡ map (polynomial_of k) b.now)
        × (map (λ m. m.is_fixed) a.now ≡ map (λ m. m.is_fixed) b.now)) }
{
    if a.len() != b.len() {
        return false;
    }
    for i in 0..a.len() {
        let left = &a[i];
        let right = &b[i];
        if !are_alike(space, left, right) {
            return false;
        }
    }
    true
}

/// Whether the list is the kernel evidence: its polynomials, with their differences, are the reduced
/// basis of the graph by falling lead, and exactly those with no difference are named fixed. Of the list
/// nothing is asked but that its polynomials are of the space and of no degree over 65535.
pub fn is_kernel_list<F: Field>(
    alloc: Global,
    space: &Space<F, BlockOrder>,
    primaries: &PrimaryModule<F::Elem>,
    gens: &[Matrix<F::Elem>],
    list: &[Member<F::Elem>],
) -> Result<bool, Memory>
    requires stands { StandsOver (mark_space F.field space.now) space.now.order.vars space.now.order.weights.items primaries.now }
    requires square { All (IsSquare (F.field space.now.field) space.now.order.vars) gens.now }
    requires fixed { let S = mark_space F.field space.now in
        All (Invariant S.field gens.now) (vectors_of S (λ m. m) primaries.now.theta) }
    requires list { All (λ m. IsLowPoly (mark_space F.field space.now) m.u) list.now }
    ensures exact { let S = mark_space F.field space.now in let θ = vectors_of S (λ m. m) primaries.now.theta in
        let B = primaries.now.monomials in
        IfOk result (λ b. IsTrue b ↔ AreKernel S.field space.now.order.vars space.now.order.weights.items θ gens.now B list.now) }
{
    let cap = greatest_degree(space, list);
    match kernel(alloc, space, primaries, gens, cap) {
        Ok(members) => Ok(are_same(space, list, members.as_slice())),
        Err(BasisFault::Above(_)) => Ok(false),
        Err(BasisFault::Memory) => Err(Memory),
    }
}
