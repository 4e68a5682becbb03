ghost use Rattle.std.specs.Prelude.{◌≡◌, IfOk};
ghost use Rattle.alg_core.specs.ExponentLists.{lcm};
ghost use Rattle.alg_core.specs.KeyLists.{place_degree};
ghost use Rattle.alg_core.specs.Spaces.{over, entries};
ghost use Rattle.alg_core.specs.Vectors.{zero_vector};
ghost use Rattle.poly_module.specs.SpaceVectors.{IsVector, vector_of};
ghost use Rattle.module_groebner.specs.Progress.{lead_place};
ghost use Rattle.module_groebner.specs.Items.{first_degree};

use alg_core::{Field, Memory, Mono, Space, TermOrder, term_degree};
use poly_module::Vector;
use std::alloc::Global;

/// The position of the lead, 0 for the vector 0.
pub(crate) fn lead_position<E>(v: &Vector<E, Mono>) -> u64
    ensures is { result ≡ (lead_place (entries (λ m. m) v.now)).0 }
{
    let terms = v.terms();
    if terms.is_empty() {
        return 0;
    }
    let first = &terms[0];
    first.at.pos
}

/// The degree of the lead, 0 for the vector 0.
pub(crate) fn generator_degree<F: Field, O: TermOrder>(
    space: &Space<F, O>,
    v: &Vector<F::Elem, Mono>,
) -> u128
    requires vector { IsVector (over F.field O.order space.now) (λ m. m) v.now }
    ensures is { let S = over F.field O.order space.now in
        result ≡ first_degree S.weights S.shifts (entries (λ m. m) v.now) }
{
    let terms = v.terms();
    if terms.is_empty() {
        return 0;
    }
    let first = &terms[0];
    term_degree(space, &first.at)
}

/// The degree of the least common multiple of the leads of two vectors that are not 0 and have them at
/// one position.
pub(crate) fn pair_degree<F: Field, O: TermOrder>(
    alloc: Global,
    space: &Space<F, O>,
    a: &Vector<F::Elem, Mono>,
    b: &Vector<F::Elem, Mono>,
) -> Result<u128, Memory>
    requires left { IsVector (over F.field O.order space.now) (λ m. m) a.now }
    requires right { IsVector (over F.field O.order space.now) (λ m. m) b.now }
    requires left_not_zero { let S = over F.field O.order space.now in ¬ (vector_of S (λ m. m) a.now ≡ zero_vector S.field) }
    requires right_not_zero { let S = over F.field O.order space.now in ¬ (vector_of S (λ m. m) b.now ≡ zero_vector S.field) }
    requires position { (lead_place (entries (λ m. m) a.now)).0 ≡ (lead_place (entries (λ m. m) b.now)).0 }
    ensures is { let s = lead_place (entries (λ m. m) a.now) in let t = lead_place (entries (λ m. m) b.now) in
        let S = over F.field O.order space.now in IfOk result (λ d. d ≡ place_degree S.weights S.shifts (s.0, lcm s.1 t.1)) }
{
    let left = a.terms();
    let right = b.terms();
    let s = &left[0];
    let t = &right[0];
    let l = s.at.lcm(alloc, &t.at)?;
    Ok(term_degree(space, &l))
}
