ghost use Rattle.std.specs.Prelude.{◌≡◌, ◌<◌, ℕ, IsNone, IfSome, IfOk, length};
ghost use Rattle.alg_core.specs.Keys.{Key, key, KeyDivides};
ghost use Rattle.alg_core.specs.Spaces.{over, place, IsPlace};
ghost use Rattle.alg_core.specs.SpaceOrder.{key_order};
ghost use Rattle.poly_module.specs.Modules.{LeadBy, listed};
ghost use Rattle.poly_module.specs.SpaceVectors.{IsPositive, IsVector, AreVectors, vector_of, vectors_of, IsUpTo};
ghost use Rattle.module_groebner.specs.HomogeneousLists.{degree_limit, AreHomogeneous, AreNonzero};
ghost use Rattle.module_groebner.specs.Remainders.{IsRemainder, KeepsDegrees};

use crate::merge::copied_terms;
use crate::reduction::reduced_by;
use alg_core::{Field, Memory, ModTerm, Mono, Space, TermOrder};
use poly_module::{Vector, lead};
use std::alloc::Global;

/// The place of a member of the list whose lead divides the term, from 0, if there is one.
pub(crate) fn divisor<F: Field, O: TermOrder>(
    space: &Space<F, O>,
    list: &[Vector<F::Elem, Mono>],
    at: &ModTerm<Mono>,
) -> Option<usize>
    requires fit { AreVectors (over F.field O.order space.now) (λ m. m) list.now }
    requires place { IsPlace (over F.field O.order space.now) (place (λ m. m) at.now) }
    ensures none { let S = over F.field O.order space.now in
        IsNone result → (i : ℕ) (s : Key) → LeadBy S.field (key_order S) (listed S.field (vectors_of S (λ m. m) list.now) i) s
        → ¬ KeyDivides s (key (place (λ m. m) at.now)) }
    ensures within { IfSome result (λ i. i < length list.now) }
    ensures some { let S = over F.field O.order space.now in IfSome result (λ i. (s : Key)
        × LeadBy S.field (key_order S) (listed S.field (vectors_of S (λ m. m) list.now) i) s
        × KeyDivides s (key (place (λ m. m) at.now))) }
{
    for i in 0..list.len() {
        let member = &list[i];
        if let Some(term) = lead(space, member) {
            if term.at.divides(at) {
                return Some(i);
            }
        }
    }
    None
}

/// A remainder of v by the members of the list, which are homogeneous and not 0: no lead of a member
/// divides a term of it, and v less it is a sum of multiples of members with no lead above that of v.
/// The remainder of a homogeneous vector is 0 or homogeneous of its degree.
/// (Derksen and Kemper, Computational Invariant Theory, section 1.1.)
pub fn divide<F: Field, O: TermOrder>(
    alloc: Global,
    space: &Space<F, O>,
    v: &Vector<F::Elem, Mono>,
    list: &[Vector<F::Elem, Mono>],
) -> Result<Vector<F::Elem, Mono>, Memory>
    requires positive { IsPositive (over F.field O.order space.now) }
    requires vector { IsVector (over F.field O.order space.now) (λ m. m) v.now }
    requires degree { let S = over F.field O.order space.now in
        IsUpTo S degree_limit (vector_of S (λ m. m) v.now) }
    requires list { AreVectors (over F.field O.order space.now) (λ m. m) list.now }
    requires homogeneous { let S = over F.field O.order space.now in
        AreHomogeneous S (vectors_of S (λ m. m) list.now) }
    requires nonzero { let S = over F.field O.order space.now in
        AreNonzero S.field (vectors_of S (λ m. m) list.now) }
    ensures fits { IfOk result (IsVector (over F.field O.order space.now) (λ m. m)) }
    ensures remainder { let S = over F.field O.order space.now in
        let members = listed S.field (vectors_of S (λ m. m) list.now) in
        IfOk result (λ r. IsRemainder S members (vector_of S (λ m. m) v.now) (vector_of S (λ m. m) r)) }
    ensures degrees { let S = over F.field O.order space.now in
        IfOk result (λ r. KeepsDegrees S (vector_of S (λ m. m) v.now) (vector_of S (λ m. m) r)) }
{
    let mut rest = copied_terms(alloc, v.terms())?;
    let mut done = Vec::new(alloc);
    let mut start = 0;
    'steps: while start < rest.len() {
        let top = &rest[start];
        match divisor(space, list, &top.at) {
            None => {
                done.push(top.copy(alloc)?)?;
                start += 1;
            }
            Some(i) => {
                rest = reduced_by(alloc, space, top, &rest[start..], &list[i])?;
                start = 0;
            }
        }
    }
    Ok(Vector::of(done))
}
