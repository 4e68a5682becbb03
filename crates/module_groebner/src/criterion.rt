ghost use Rattle.std.specs.Prelude.{◌≡◌, ◌↔◌, ◌<◌, ◌≤◌, ◌+◌, false, length, IsTrue, IsNone, IfSome, IfOk};
ghost use Rattle.alg_core.specs.Spaces.{over};
ghost use Rattle.alg_core.specs.SpaceOrder.{key_order};
ghost use Rattle.poly_module.specs.Modules.{listed, IsGroebnerBasis};
ghost use Rattle.poly_module.specs.ReducedLists.{IsReducedBasis};
ghost use Rattle.poly_module.specs.SpaceVectors.{IsPositive, IsVector, AreVectors, vector_of, vectors_of, IsUpTo};
ghost use Rattle.module_groebner.specs.HomogeneousLists.{degree_limit, cap_limit, AreUpTo, AreHomogeneousUpTo, AreNonzero};
ghost use Rattle.module_groebner.specs.SVectors.{IsTreated, IsBadPair};

use crate::basis::reduced_basis;
use crate::bound::BasisFault;
use crate::division::divide;
use crate::pair::s_vector;
use crate::reduction::leading_term;
use alg_core::{Field, Memory, Mono, Space, TermOrder};
use itertools::Itertools;
use poly_module::{Vector, are_equal, degree, lead};
use std::alloc::Global;

/// Whether the S-vector of these members of the list, from 0, has a remainder that is not 0.
fn is_bad<F: Field, O: TermOrder>(
    alloc: Global,
    space: &Space<F, O>,
    list: &[Vector<F::Elem, Mono>],
    i: usize,
    j: usize,
) -> Result<bool, Memory>
    requires positive { IsPositive (over F.field O.order space.now) }
    requires list { AreVectors (over F.field O.order space.now) (λ m. m) list.now }
    requires homogeneous { let S = over F.field O.order space.now in
        AreHomogeneousUpTo S cap_limit (vectors_of S (λ m. m) list.now) }
    requires nonzero { let S = over F.field O.order space.now in
        AreNonzero S.field (vectors_of S (λ m. m) list.now) }
    requires rising { i < j }
    requires within { j < length list.now }
    ensures bad { let S = over F.field O.order space.now in
        IfOk result (λ b. IsTrue b → IsBadPair S (vectors_of S (λ m. m) list.now) (i + 1) (j + 1)) }
    ensures good { let S = over F.field O.order space.now in
        let members = listed S.field (vectors_of S (λ m. m) list.now) in
        IfOk result (λ b. b ≡ false → IsTreated S members i j) }
{
    let left = &list[i];
    let right = &list[j];
    let a = leading_term(space, left);
    let b = leading_term(space, right);
    if a.at.pos != b.at.pos {
        return Ok(false);
    }
    let v = s_vector(alloc, space, left, right)?;
    let remainder = divide(alloc, space, &v, list)?;
    Ok(lead(space, &remainder).is_some())
}

/// None exactly where the list is a Gröbner basis of what it generates; else two places, from 1 and
/// rising, of members whose S-vector has a remainder that is not 0. The members are homogeneous and
/// not 0. (Buchberger's criterion; Derksen and Kemper, section 1.1.)
pub fn first_bad_pair<F: Field, O: TermOrder>(
    alloc: Global,
    space: &Space<F, O>,
    list: &[Vector<F::Elem, Mono>],
) -> Result<Option<(u64, u64)>, Memory>
    requires positive { IsPositive (over F.field O.order space.now) }
    requires list { AreVectors (over F.field O.order space.now) (λ m. m) list.now }
    requires homogeneous { let S = over F.field O.order space.now in
        AreHomogeneousUpTo S cap_limit (vectors_of S (λ m. m) list.now) }
    requires nonzero { let S = over F.field O.order space.now in
        AreNonzero S.field (vectors_of S (λ m. m) list.now) }
    ensures none { let S = over F.field O.order space.now in
        let members = listed S.field (vectors_of S (λ m. m) list.now) in
        IfOk result (λ o. IsNone o ↔ IsGroebnerBasis S.field members (key_order S)) }
    ensures some { let S = over F.field O.order space.now in
        IfOk result (λ o. IfSome o (λ p. IsBadPair S (vectors_of S (λ m. m) list.now) p.0 p.1)) }
{
    for pair in (0..list.len()).tuple_combinations::<(usize, usize), Global>(alloc)? {
        let (i, j) = pair?;
        if is_bad(alloc, space, list, i, j)? {
            return Ok(Some((i as u64 + 1, j as u64 + 1)));
        }
    }
    Ok(None)
}

/// The greatest degree of a term of the vector, or 0.
fn degree_or_zero<F: Field, O: TermOrder>(space: &Space<F, O>, v: &Vector<F::Elem, Mono>) -> u32
    requires vector { IsVector (over F.field O.order space.now) (λ m. m) v.now }
    requires degree { let S = over F.field O.order space.now in
        IsUpTo S cap_limit (vector_of S (λ m. m) v.now) }
    ensures bound { let S = over F.field O.order space.now in IsUpTo S result (vector_of S (λ m. m) v.now) }
    ensures small { result ≤ cap_limit }
{
    match degree(space, v) {
        Some(d) => d as u32,
        None => 0,
    }
}

/// The greatest degree of a term of a member of the list, or 0.
fn greatest_degree<F: Field, O: TermOrder>(
    space: &Space<F, O>,
    list: &[Vector<F::Elem, Mono>],
) -> u32
    requires list { AreVectors (over F.field O.order space.now) (λ m. m) list.now }
    requires degrees { let S = over F.field O.order space.now in
        AreUpTo S cap_limit (vectors_of S (λ m. m) list.now) }
    ensures bound { let S = over F.field O.order space.now in AreUpTo S result (vectors_of S (λ m. m) list.now) }
    ensures small { result ≤ cap_limit }
{
    let mut most = 0;
    for i in 0..list.len() {
        let member = &list[i];
        let d = degree_or_zero(space, member);
        if most < d {
            most = d;
        }
    }
    most
}

/// Whether the two lists have equal vectors at all places.
fn are_same<F: Field, O: TermOrder>(
    space: &Space<F, O>,
    a: &[Vector<F::Elem, Mono>],
    b: &[Vector<F::Elem, Mono>],
) -> bool
    requires left { AreVectors (over F.field O.order space.now) (λ m. m) a.now }
    requires right { AreVectors (over F.field O.order space.now) (λ m. m) b.now }
    ensures exact { let S = over F.field O.order space.now in let of = vectors_of S (λ m. m) in
        IsTrue result ↔ (of a.now ≡ of b.now) }
{
    if a.len() != b.len() {
        return false;
    }
    for i in 0..a.len() {
        let left = &a[i];
        let right = &b[i];
        if !are_equal(space, left, right) {
            return false;
        }
    }
    true
}

/// Whether the list is the reduced basis of the module of the generators, which are homogeneous, by
/// falling lead. Of the list nothing is asked but that its degrees are not too great.
pub fn is_reduced_basis<F: Field, O: TermOrder>(
    alloc: Global,
    space: &Space<F, O>,
    list: &[Vector<F::Elem, Mono>],
    gens: &[Vector<F::Elem, Mono>],
) -> Result<bool, Memory>
    requires positive { IsPositive (over F.field O.order space.now) }
    requires list { AreVectors (over F.field O.order space.now) (λ m. m) list.now }
    requires degrees { let S = over F.field O.order space.now in
        AreUpTo S cap_limit (vectors_of S (λ m. m) list.now) }
    requires generators { AreVectors (over F.field O.order space.now) (λ m. m) gens.now }
    requires homogeneous { let S = over F.field O.order space.now in
        AreHomogeneousUpTo S degree_limit (vectors_of S (λ m. m) gens.now) }
    ensures exact { let S = over F.field O.order space.now in let of = vectors_of S (λ m. m) in
        IfOk result (λ b. IsTrue b ↔ IsReducedBasis S (listed S.field (of gens.now)) (of list.now)) }
{
    match reduced_basis(alloc, space, gens, greatest_degree(space, list)) {
        Ok(basis) => Ok(are_same(space, list, &basis)),
        Err(BasisFault::Above(_)) => Ok(false),
        Err(BasisFault::Memory) => Err(Memory),
    }
}
