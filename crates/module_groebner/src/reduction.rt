ghost use Rattle.std.specs.Prelude.{◌≡◌, ℕ, IfOk};
ghost use Rattle.alg_core.specs.Fields.{scalar};
ghost use Rattle.alg_core.specs.Keys.{Key, key, KeyDivides};
ghost use Rattle.alg_core.specs.Spaces.{over, place, entry, IsTerm};
ghost use Rattle.alg_core.specs.SpaceOrder.{key_order};
ghost use Rattle.alg_core.specs.Vectors.{coef_at, zero_vector};
ghost use Rattle.poly_module.specs.Degrees.{IsHomogeneous};
ghost use Rattle.poly_module.specs.Modules.{LeadBy};
ghost use Rattle.poly_module.specs.SpaceVectors.{vector_of, IsVector, IsPositive, IsUpTo};
ghost use Rattle.module_groebner.specs.HomogeneousLists.{degree_limit};
ghost use Rattle.module_groebner.specs.Reductions.{IsReduction};

use crate::merge::sum_of_terms;
use alg_core::{Field, Memory, Mono, Space, Term, TermOrder};
use poly_module::{Vector, lead, mul_term};
use std::alloc::Global;

/// The leading term of a vector that is not 0.
pub(crate) fn leading_term<'a, F: Field, O: TermOrder>(
    space: &Space<F, O>,
    v: &'a Vector<F::Elem, Mono>,
) -> &'a Term<F::Elem, Mono>
    requires vector { IsVector (over F.field O.order space.now) (λ m. m) v.now }
    requires not_zero { let S = over F.field O.order space.now in ¬ (vector_of S (λ m. m) v.now ≡ zero_vector S.field) }
    ensures lead { let S = over F.field O.order space.now in
        LeadBy S.field (key_order S) (vector_of S (λ m. m) v.now) (key (place (λ m. m) result.now.at)) }
    ensures coefficient { let S = over F.field O.order space.now in
        coef_at S.field (vector_of S (λ m. m) v.now) (key (place (λ m. m) result.now.at)) ≡ scalar S.field result.now.coef }
    ensures term { IsTerm (over F.field O.order space.now) (entry (λ m. m) result.now) }
{
    match lead(space, v) {
        Some(term) => term,
        None => unreachable!(),
    }
}

/// The terms less the multiple of g that cancels the first of them.
pub(crate) fn reduced_by<F: Field, O: TermOrder>(
    alloc: Global,
    space: &Space<F, O>,
    top: &Term<F::Elem, Mono>,
    terms: &[Term<F::Elem, Mono>],
    g: &Vector<F::Elem, Mono>,
) -> Result<Vec<Term<F::Elem, Mono>>, Memory>
    requires positive { IsPositive (over F.field O.order space.now) }
    requires terms { IsVector (over F.field O.order space.now) (λ m. m) terms.now }
    requires degree { let S = over F.field O.order space.now in IsUpTo S degree_limit (vector_of S (λ m. m) terms.now) }
    requires vector { IsVector (over F.field O.order space.now) (λ m. m) g.now }
    requires homogeneous { let S = over F.field O.order space.now in
        (d : ℕ) × IsHomogeneous S d (vector_of S (λ m. m) g.now) }
    requires top { let S = over F.field O.order space.now in
        LeadBy S.field (key_order S) (vector_of S (λ m. m) terms.now) (key (place (λ m. m) top.now.at)) }
    requires value { let S = over F.field O.order space.now in
        coef_at S.field (vector_of S (λ m. m) terms.now) (key (place (λ m. m) top.now.at)) ≡ scalar S.field top.now.coef }
    requires term { IsTerm (over F.field O.order space.now) (entry (λ m. m) top.now) }
    requires divides { let S = over F.field O.order space.now in
        (s : Key) × LeadBy S.field (key_order S) (vector_of S (λ m. m) g.now) s × KeyDivides s (key (place (λ m. m) top.now.at)) }
    ensures fits { IfOk result (λ ts. IsVector (over F.field O.order space.now) (λ m. m) ts.items) }
    ensures step { let S = over F.field O.order space.now in
        IfOk result (λ ts. IsReduction S (vector_of S (λ m. m) terms.now) (vector_of S (λ m. m) g.now) (vector_of S (λ m. m) ts.items)) }
{
    let lead = leading_term(space, g);
    let monomial = top.at.quotient(alloc, &lead.at)?;
    let inverse = space.field.inv(lead.coef).unwrap();
    let factor = space.field.neg(space.field.mul(top.coef, inverse));
    let multiple = mul_term(alloc, space, factor, &monomial, g)?;
    let reduced = sum_of_terms(alloc, space, terms, multiple.terms())?;
    Ok(reduced)
}
