ghost use Rattle.std.specs.Prelude.{◌≡◌, ◌≤◌, IfOk};
ghost use Rattle.alg_core.specs.Keys.{Key, key, times_key, KeyDivides};
ghost use Rattle.alg_core.specs.CommonMultiples.{common_multiple};
ghost use Rattle.alg_core.specs.Monomials.{Mon};
ghost use Rattle.alg_core.specs.SpaceGrading.{weight};
ghost use Rattle.alg_core.specs.Spaces.{over, place, IsPlace};
ghost use Rattle.alg_core.specs.SpaceOrder.{key_order};
ghost use Rattle.poly_module.specs.Modules.{LeadBy};
ghost use Rattle.poly_module.specs.SpaceVectors.{IsPositive, IsVector, vector_of, IsUpTo};
ghost use Rattle.module_groebner.specs.HomogeneousLists.{cap_limit};
ghost use Rattle.module_groebner.specs.SVectors.{IsSVector, IsMonicMultiple};

use crate::reduction::leading_term;
use alg_core::{Field, Memory, ModTerm, Mono, Space, TermOrder};
use poly_module::{Vector, mul_term, sub};
use std::alloc::Global;

/// The multiple of v, by a value and a monomial, that has the lead l and the lead coefficient 1.
fn monic_multiple<F: Field, O: TermOrder>(
    alloc: Global,
    space: &Space<F, O>,
    v: &Vector<F::Elem, Mono>,
    l: &ModTerm<Mono>,
) -> Result<Vector<F::Elem, Mono>, Memory>
    requires positive { IsPositive (over F.field O.order space.now) }
    requires vector { IsVector (over F.field O.order space.now) (λ m. m) v.now }
    requires place { IsPlace (over F.field O.order space.now) (place (λ m. m) l.now) }
    requires divides { let S = over F.field O.order space.now in (s : Key)
        × LeadBy S.field (key_order S) (vector_of S (λ m. m) v.now) s × KeyDivides s (key (place (λ m. m) l.now)) }
    requires degree { let S = over F.field O.order space.now in
        IsUpTo S cap_limit (vector_of S (λ m. m) v.now) }
    requires low { let S = over F.field O.order space.now in (m : Mon) (s : Key)
        → LeadBy S.field (key_order S) (vector_of S (λ m. m) v.now) s
        → times_key m s ≡ key (place (λ m. m) l.now) → weight S.weights 0 m.0 ≤ cap_limit }
    ensures fits { IfOk result (λ u. IsVector (over F.field O.order space.now) (λ m. m) u) }
    ensures is { let S = over F.field O.order space.now in IfOk result (λ u. (s : Key)
        × IsMonicMultiple S (vector_of S (λ m. m) v.now) s (key (place (λ m. m) l.now)) (vector_of S (λ m. m) u)) }
{
    let lead = leading_term(space, v);
    let monomial = l.quotient(alloc, &lead.at)?;
    let inverse = space.field.inv(lead.coef).unwrap();
    let multiple = mul_term(alloc, space, inverse, &monomial, v)?;
    Ok(multiple)
}

/// The least common multiple of the leads of a and b, which are not 0 and have them at one position.
pub(crate) fn lcm_of_leads<F: Field, O: TermOrder>(
    alloc: Global,
    space: &Space<F, O>,
    a: &Vector<F::Elem, Mono>,
    b: &Vector<F::Elem, Mono>,
) -> Result<ModTerm<Mono>, Memory>
    requires left { IsVector (over F.field O.order space.now) (λ m. m) a.now }
    requires right { IsVector (over F.field O.order space.now) (λ m. m) b.now }
    requires position { let S = over F.field O.order space.now in (s : Key) × (t : Key)
        × LeadBy S.field (key_order S) (vector_of S (λ m. m) a.now) s
        × LeadBy S.field (key_order S) (vector_of S (λ m. m) b.now) t × (s.0 ≡ t.0) }
    ensures place { let S = over F.field O.order space.now in IfOk result (λ l. IsPlace S (place (λ m. m) l)) }
    ensures is { let S = over F.field O.order space.now in let of = vector_of S (λ m. m) in
        IfOk result (λ l. (s t : Key) → LeadBy S.field (key_order S) (of a.now) s
        → LeadBy S.field (key_order S) (of b.now) t → key (place (λ m. m) l) ≡ common_multiple s t) }
{
    let s = leading_term(space, a);
    let t = leading_term(space, b);
    let l = s.at.lcm(alloc, &t.at)?;
    Ok(l)
}

/// The S-vector of a and b, which are not 0 and have their leads at one position: the difference of
/// their multiples that have the least common multiple of the leads as lead and 1 as its coefficient.
/// (Derksen and Kemper, Computational Invariant Theory, section 1.1; Buchberger.)
pub fn s_vector<F: Field, O: TermOrder>(
    alloc: Global,
    space: &Space<F, O>,
    a: &Vector<F::Elem, Mono>,
    b: &Vector<F::Elem, Mono>,
) -> Result<Vector<F::Elem, Mono>, Memory>
    requires positive { IsPositive (over F.field O.order space.now) }
    requires left { IsVector (over F.field O.order space.now) (λ m. m) a.now }
    requires right { IsVector (over F.field O.order space.now) (λ m. m) b.now }
    requires left_degree { let S = over F.field O.order space.now in
        IsUpTo S cap_limit (vector_of S (λ m. m) a.now) }
    requires right_degree { let S = over F.field O.order space.now in
        IsUpTo S cap_limit (vector_of S (λ m. m) b.now) }
    requires position { let S = over F.field O.order space.now in (s : Key) × (t : Key)
        × LeadBy S.field (key_order S) (vector_of S (λ m. m) a.now) s
        × LeadBy S.field (key_order S) (vector_of S (λ m. m) b.now) t × (s.0 ≡ t.0) }
    ensures fits { IfOk result (IsVector (over F.field O.order space.now) (λ m. m)) }
    ensures is { let S = over F.field O.order space.now in let of = vector_of S (λ m. m) in
        IfOk result (λ v. IsSVector S (of a.now) (of b.now) (of v)) }
{
    let s = leading_term(space, a);
    let t = leading_term(space, b);
    let l = s.at.lcm(alloc, &t.at)?;
    let left = monic_multiple(alloc, space, a, &l)?;
    let right = monic_multiple(alloc, space, b, &l)?;
    let difference = sub(alloc, space, &left, &right)?;
    Ok(difference)
}
