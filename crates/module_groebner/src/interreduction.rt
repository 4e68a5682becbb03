ghost use Rattle.std.specs.Prelude.{◌≡◌, ◌<◌, ◌⊎◌, ℕ, length, false, IsTrue, IsNone, IfSome, IfOk};
ghost use Rattle.alg_core.specs.Keys.{Key};
ghost use Rattle.alg_core.specs.Lists.{In};
ghost use Rattle.alg_core.specs.Spaces.{over};
ghost use Rattle.alg_core.specs.SpaceOrder.{key_order};
ghost use Rattle.alg_core.specs.Vectors.{Vect, zero_vector};
ghost use Rattle.poly_module.specs.Modules.{LeadBy, listed, IsGroebnerBasis};
ghost use Rattle.poly_module.specs.ReducedLists.{LeadsFall, IsReducedBasis};
ghost use Rattle.poly_module.specs.SpaceVectors.{IsPositive, IsVector, AreVectors, vector_of, vectors_of};
ghost use Rattle.module_groebner.specs.HomogeneousLists.{cap_limit, AreHomogeneousUpTo, AreNonzero};
ghost use Rattle.module_groebner.specs.Interreductions.{HasLeadIn, IsDividedIn, HasMinimalLeads, IsPlaceFor, IsTailReduced};

use crate::division::{divide, divisor};
use crate::reduction::leading_term;
use alg_core::{Field, Memory, Mono, Space, TermOrder};
use poly_module::{Vector, add, copy, scale, single, sub};
use std::alloc::Global;
use std::cmp::Ordering;

/// How the leads of two vectors that are not 0 compare.
fn compare_leads<F: Field, O: TermOrder>(
    space: &Space<F, O>,
    a: &Vector<F::Elem, Mono>,
    b: &Vector<F::Elem, Mono>,
) -> Ordering
    requires left { IsVector (over F.field O.order space.now) (λ m. m) a.now }
    requires right { IsVector (over F.field O.order space.now) (λ m. m) b.now }
    requires left_not_zero { let S = over F.field O.order space.now in ¬ (vector_of S (λ m. m) a.now ≡ zero_vector S.field) }
    requires right_not_zero { let S = over F.field O.order space.now in ¬ (vector_of S (λ m. m) b.now ≡ zero_vector S.field) }
    ensures is { let S = over F.field O.order space.now in let of = vector_of S (λ m. m) in (s t : Key)
        → LeadBy S.field (key_order S) (of a.now) s → LeadBy S.field (key_order S) (of b.now) t
        → result ≡ (key_order S).compare s t }
{
    let left = leading_term(space, a);
    let right = leading_term(space, b);
    space.order.compare(&left.at, &right.at)
}

/// The place where the vector belongs in the list, whose leads fall. None where its lead is there.
fn place_for<F: Field, O: TermOrder>(
    space: &Space<F, O>,
    list: &[Vector<F::Elem, Mono>],
    v: &Vector<F::Elem, Mono>,
) -> Option<usize>
    requires list { AreVectors (over F.field O.order space.now) (λ m. m) list.now }
    requires nonzero { let S = over F.field O.order space.now in AreNonzero S.field (vectors_of S (λ m. m) list.now) }
    requires vector { IsVector (over F.field O.order space.now) (λ m. m) v.now }
    requires not_zero { let S = over F.field O.order space.now in ¬ (vector_of S (λ m. m) v.now ≡ zero_vector S.field) }
    ensures none { let S = over F.field O.order space.now in IsNone result → (s : Key)
        → LeadBy S.field (key_order S) (vector_of S (λ m. m) v.now) s → HasLeadIn S (vectors_of S (λ m. m) list.now) s }
    ensures some { let S = over F.field O.order space.now in
        IfSome result (IsPlaceFor S (vectors_of S (λ m. m) list.now) (vector_of S (λ m. m) v.now)) }
{
    for i in 0..list.len() {
        let member = &list[i];
        match compare_leads(space, member, v) {
            Ordering::Greater => {}
            Ordering::Equal => return None,
            Ordering::Less => return Some(i),
        }
    }
    Some(list.len())
}

/// Puts the vector where it belongs in the list, whose leads fall, unless its lead is there.
fn insert_by_lead<F: Field, O: TermOrder>(
    space: &Space<F, O>,
    list: &mut Vec<Vector<F::Elem, Mono>>,
    v: Vector<F::Elem, Mono>,
) -> Result<(), Memory>
    requires list { AreVectors (over F.field O.order space.now) (λ m. m) list.old.items }
    requires nonzero { let S = over F.field O.order space.now in AreNonzero S.field (vectors_of S (λ m. m) list.old.items) }
    requires falling { let S = over F.field O.order space.now in
        LeadsFall S.field (key_order S) (vectors_of S (λ m. m) list.old.items) }
    requires vector { IsVector (over F.field O.order space.now) (λ m. m) v }
    requires not_zero { let S = over F.field O.order space.now in ¬ (vector_of S (λ m. m) v ≡ zero_vector S.field) }
    ensures list { IfOk result (λ _. AreVectors (over F.field O.order space.now) (λ m. m) list.new.items) }
    ensures nonzero { let S = over F.field O.order space.now in
        IfOk result (λ _. AreNonzero S.field (vectors_of S (λ m. m) list.new.items)) }
    ensures falling { let S = over F.field O.order space.now in
        IfOk result (λ _. LeadsFall S.field (key_order S) (vectors_of S (λ m. m) list.new.items)) }
    ensures from { let S = over F.field O.order space.now in let of = vectors_of S (λ m. m) in IfOk result (λ _.
        (w : Vect S.field) → In w (of list.new.items) → (w ≡ vector_of S (λ m. m) v) ⊎ In w (of list.old.items)) }
    ensures kept { let S = over F.field O.order space.now in let of = vectors_of S (λ m. m) in IfOk result (λ _.
        (w : Vect S.field) → In w (of list.old.items) → In w (of list.new.items)) }
    ensures lead { let S = over F.field O.order space.now in IfOk result (λ _. (s : Key)
        → LeadBy S.field (key_order S) (vector_of S (λ m. m) v) s → HasLeadIn S (vectors_of S (λ m. m) list.new.items) s) }
{
    if let Some(i) = place_for(space, list, &v) {
        list.insert(i, v)?;
    }
    Ok(())
}

/// Copies of the members, by falling lead; of those with one lead the first.
fn by_falling_lead<F: Field, O: TermOrder>(
    alloc: Global,
    space: &Space<F, O>,
    members: &[Vector<F::Elem, Mono>],
) -> Result<Vec<Vector<F::Elem, Mono>>, Memory>
    requires members { AreVectors (over F.field O.order space.now) (λ m. m) members.now }
    requires nonzero { let S = over F.field O.order space.now in AreNonzero S.field (vectors_of S (λ m. m) members.now) }
    ensures fit { IfOk result (λ vs. AreVectors (over F.field O.order space.now) (λ m. m) vs.items) }
    ensures falling { let S = over F.field O.order space.now in
        IfOk result (λ vs. LeadsFall S.field (key_order S) (vectors_of S (λ m. m) vs.items)) }
    ensures from { let S = over F.field O.order space.now in let of = vectors_of S (λ m. m) in IfOk result (λ vs.
        (w : Vect S.field) → In w (of vs.items) → In w (of members.now)) }
    ensures leads { let S = over F.field O.order space.now in let of = vectors_of S (λ m. m) in IfOk result (λ vs.
        (i : ℕ) (s : Key) → LeadBy S.field (key_order S) (listed S.field (of members.now) i) s → HasLeadIn S (of vs.items) s) }
{
    let mut falling = Vec::new(alloc);
    for i in 0..members.len() {
        let member = copy(alloc, &members[i])?;
        insert_by_lead(space, &mut falling, member)?;
    }
    Ok(falling)
}

/// Whether the lead of a member of the list divides that of the vector, which is not 0.
fn is_divided<F: Field, O: TermOrder>(
    space: &Space<F, O>,
    list: &[Vector<F::Elem, Mono>],
    v: &Vector<F::Elem, Mono>,
) -> bool
    requires list { AreVectors (over F.field O.order space.now) (λ m. m) list.now }
    requires vector { IsVector (over F.field O.order space.now) (λ m. m) v.now }
    requires not_zero { let S = over F.field O.order space.now in ¬ (vector_of S (λ m. m) v.now ≡ zero_vector S.field) }
    ensures yes { let S = over F.field O.order space.now in let of = vectors_of S (λ m. m) in IsTrue result → (t : Key)
        → LeadBy S.field (key_order S) (vector_of S (λ m. m) v.now) t → IsDividedIn S (of list.now) t }
    ensures no { let S = over F.field O.order space.now in let of = vectors_of S (λ m. m) in result ≡ false → (t : Key)
        → LeadBy S.field (key_order S) (vector_of S (λ m. m) v.now) t → ¬ IsDividedIn S (of list.now) t }
{
    let lead = leading_term(space, v);
    match divisor(space, list, &lead.at) {
        None => false,
        Some(_) => true,
    }
}

/// The members whose lead the lead of no other divides.
fn minimal<F: Field, O: TermOrder>(
    alloc: Global,
    space: &Space<F, O>,
    mut falling: Vec<Vector<F::Elem, Mono>>,
) -> Result<Vec<Vector<F::Elem, Mono>>, Memory>
    requires positive { IsPositive (over F.field O.order space.now) }
    requires fit { AreVectors (over F.field O.order space.now) (λ m. m) falling.items }
    requires nonzero { let S = over F.field O.order space.now in AreNonzero S.field (vectors_of S (λ m. m) falling.items) }
    requires falling { let S = over F.field O.order space.now in
        LeadsFall S.field (key_order S) (vectors_of S (λ m. m) falling.items) }
    ensures fit { IfOk result (λ vs. AreVectors (over F.field O.order space.now) (λ m. m) vs.items) }
    ensures from { let S = over F.field O.order space.now in let of = vectors_of S (λ m. m) in IfOk result (λ vs.
        (w : Vect S.field) → In w (of vs.items) → In w (of falling.items)) }
    ensures apart { let S = over F.field O.order space.now in
        IfOk result (λ vs. HasMinimalLeads S (vectors_of S (λ m. m) vs.items)) }
    ensures covers { let S = over F.field O.order space.now in let of = vectors_of S (λ m. m) in IfOk result (λ vs.
        (w : Vect S.field) (s : Key) → In w (of falling.items) → LeadBy S.field (key_order S) w s → IsDividedIn S (of vs.items) s) }
{
    let mut kept = Vec::new(alloc);
    while let Some(v) = falling.pop() {
        if !is_divided(space, &kept, &v) {
            kept.push(v)?;
        }
    }
    Ok(kept)
}

/// The member at this place, monic, with the terms below its lead divided by the members.
fn tail_reduced<F: Field, O: TermOrder>(
    alloc: Global,
    space: &Space<F, O>,
    members: &[Vector<F::Elem, Mono>],
    i: usize,
) -> Result<Vector<F::Elem, Mono>, Memory>
    requires positive { IsPositive (over F.field O.order space.now) }
    requires members { AreVectors (over F.field O.order space.now) (λ m. m) members.now }
    requires homogeneous { let S = over F.field O.order space.now in
        AreHomogeneousUpTo S cap_limit (vectors_of S (λ m. m) members.now) }
    requires nonzero { let S = over F.field O.order space.now in AreNonzero S.field (vectors_of S (λ m. m) members.now) }
    requires within { i < length members.now }
    ensures fits { IfOk result (IsVector (over F.field O.order space.now) (λ m. m)) }
    ensures reduced { let S = over F.field O.order space.now in
        let g = listed S.field (vectors_of S (λ m. m) members.now) in
        IfOk result (λ n. IsTailReduced S g (g i) (vector_of S (λ m. m) n)) }
{
    let member = &members[i];
    let lead = leading_term(space, member);
    let first = single(alloc, space, lead)?;
    let tail = sub(alloc, space, member, &first)?;
    let remainder = divide(alloc, space, &tail, members)?;
    let whole = add(alloc, space, &first, &remainder)?;
    let inverse = space.field.inv(lead.coef).unwrap();
    let monic = scale(alloc, space, inverse, &whole)?;
    Ok(monic)
}

/// The members, monic and with their tails divided by all of them, by falling lead.
fn tails_reduced<F: Field, O: TermOrder>(
    alloc: Global,
    space: &Space<F, O>,
    members: &[Vector<F::Elem, Mono>],
) -> Result<Vec<Vector<F::Elem, Mono>>, Memory>
    requires positive { IsPositive (over F.field O.order space.now) }
    requires members { AreVectors (over F.field O.order space.now) (λ m. m) members.now }
    requires homogeneous { let S = over F.field O.order space.now in
        AreHomogeneousUpTo S cap_limit (vectors_of S (λ m. m) members.now) }
    requires nonzero { let S = over F.field O.order space.now in AreNonzero S.field (vectors_of S (λ m. m) members.now) }
    ensures fit { IfOk result (λ vs. AreVectors (over F.field O.order space.now) (λ m. m) vs.items) }
    ensures falling { let S = over F.field O.order space.now in
        IfOk result (λ vs. LeadsFall S.field (key_order S) (vectors_of S (λ m. m) vs.items)) }
    ensures from { let S = over F.field O.order space.now in let of = vectors_of S (λ m. m) in IfOk result (λ vs.
        (n : Vect S.field) → In n (of vs.items)
        → (i : ℕ) × (i < length members.now)
        × IsTailReduced S (listed S.field (of members.now)) (listed S.field (of members.now) i) n) }
    ensures leads { let S = over F.field O.order space.now in let of = vectors_of S (λ m. m) in IfOk result (λ vs.
        (i : ℕ) (s : Key) → LeadBy S.field (key_order S) (listed S.field (of members.now) i) s → HasLeadIn S (of vs.items) s) }
{
    let mut made = Vec::new(alloc);
    for i in 0..members.len() {
        let member = tail_reduced(alloc, space, members, i)?;
        insert_by_lead(space, &mut made, member)?;
    }
    Ok(made)
}

/// The reduced basis, by falling lead, of the module of a Gröbner basis.
pub(crate) fn interreduced<F: Field, O: TermOrder>(
    alloc: Global,
    space: &Space<F, O>,
    members: &[Vector<F::Elem, Mono>],
) -> Result<Vec<Vector<F::Elem, Mono>>, Memory>
    requires positive { IsPositive (over F.field O.order space.now) }
    requires members { AreVectors (over F.field O.order space.now) (λ m. m) members.now }
    requires homogeneous { let S = over F.field O.order space.now in
        AreHomogeneousUpTo S cap_limit (vectors_of S (λ m. m) members.now) }
    requires nonzero { let S = over F.field O.order space.now in AreNonzero S.field (vectors_of S (λ m. m) members.now) }
    requires basis { let S = over F.field O.order space.now in
        IsGroebnerBasis S.field (listed S.field (vectors_of S (λ m. m) members.now)) (key_order S) }
    ensures fit { IfOk result (λ vs. AreVectors (over F.field O.order space.now) (λ m. m) vs.items) }
    ensures reduced { let S = over F.field O.order space.now in let of = vectors_of S (λ m. m) in
        IfOk result (λ vs. IsReducedBasis S (listed S.field (of members.now)) (of vs.items)) }
    ensures homogeneous { let S = over F.field O.order space.now in let of = vectors_of S (λ m. m) in IfOk result (λ vs.
        (d : ℕ) → AreHomogeneousUpTo S d (of members.now) → AreHomogeneousUpTo S d (of vs.items)) }
{
    let falling = by_falling_lead(alloc, space, members)?;
    let kept = minimal(alloc, space, falling)?;
    let basis = tails_reduced(alloc, space, &kept)?;
    Ok(basis)
}
