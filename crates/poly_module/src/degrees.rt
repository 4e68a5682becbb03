ghost use Rattle.std.specs.Prelude.{◌≡◌, ◌↔◌, ◌≤◌, ◌-◌, ◌^◌, ℕ, IsTrue, IsNone, IfSome, All, Any};
ghost use Rattle.alg_core.specs.Keys.{key};
ghost use Rattle.alg_core.specs.Spaces.{over, entries};
ghost use Rattle.alg_core.specs.SpaceGrading.{degree};
ghost use Rattle.alg_core.specs.Vectors.{zero_vector};
ghost use Rattle.poly_module.specs.Degrees.{IsDegree, IsHomogeneous};
ghost use Rattle.poly_module.specs.SpaceVectors.{vector_of, IsVector, IsUpTo};

use crate::vector::Vector;
use alg_core::{Field, Monomial, Space, TermOrder, term_degree};

/// The greatest degree of a term. None exactly at zero.
pub fn degree<F: Field, O: TermOrder, M: Monomial>(
    space: &Space<F, O>,
    a: &Vector<F::Elem, M>,
) -> Option<u64>
    requires vector { IsVector (over F.field O.order space.now) M.exps a.now }
    requires small { let S = over F.field O.order space.now in IsUpTo S (2 ^ 64 - 1) (vector_of S M.exps a.now) }
    ensures none { let S = over F.field O.order space.now in IsNone result ↔ (vector_of S M.exps a.now ≡ zero_vector S.field) }
    ensures degree { let S = over F.field O.order space.now in IfSome result (IsDegree S (vector_of S M.exps a.now)) }
    ensures reached { let S = over F.field O.order space.now in
        IfSome result (λ d. Any (λ e. degree S (key e.0) ≡ d) (entries M.exps a.now)) }
    ensures greatest { let S = over F.field O.order space.now in
        IfSome result (λ d. All (λ e. degree S (key e.0) ≤ d) (entries M.exps a.now)) }
{
    let terms = a.terms();
    let mut greatest: Option<u64> = None;
    for i in 0..terms.len() {
        let t = &terms[i];
        let d = term_degree(space, &t.at) as u64;
        greatest = Some(greatest.unwrap_or(0).max(d));
    }
    greatest
}

/// Whether all terms have one degree; zero is homogeneous of every degree.
pub fn is_homogeneous<F: Field, O: TermOrder, M: Monomial>(
    space: &Space<F, O>,
    a: &Vector<F::Elem, M>,
) -> bool
    requires vector { IsVector (over F.field O.order space.now) M.exps a.now }
    ensures homogeneous { let S = over F.field O.order space.now in
        IsTrue result ↔ ((d : ℕ) × IsHomogeneous S d (vector_of S M.exps a.now)) }
    ensures terms { let S = over F.field O.order space.now in
        IsTrue result ↔ ((d : ℕ) × All (λ e. degree S (key e.0) ≡ d) (entries M.exps a.now)) }
{
    let terms = a.terms();
    if terms.is_empty() {
        return true;
    }
    let head = &terms[0];
    let first = term_degree(space, &head.at);
    for i in 0..terms.len() {
        let t = &terms[i];
        if term_degree(space, &t.at) != first {
            return false;
        }
    }
    true
}
