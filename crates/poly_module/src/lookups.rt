ghost use Rattle.std.specs.Prelude.{◌≡◌, ◌↔◌, IsTrue};
ghost use Rattle.alg_core.specs.Fields.{Has, scalar};
ghost use Rattle.alg_core.specs.Keys.{key};
ghost use Rattle.alg_core.specs.Spaces.{over, place, IsPlace};
ghost use Rattle.alg_core.specs.Vectors.{coef_at};
ghost use Rattle.poly_module.specs.SpaceVectors.{vector_of, IsVector};

use crate::vector::Vector;
use alg_core::{Field, ModTerm, Monomial, Space, TermOrder};
use std::cmp::Ordering;

/// Whether the two vectors are equal. Takes no memory.
pub fn are_equal<F: Field, O: TermOrder, M: Monomial>(
    space: &Space<F, O>,
    a: &Vector<F::Elem, M>,
    b: &Vector<F::Elem, M>,
) -> bool
    requires left { IsVector (over F.field O.order space.now) M.exps a.now }
    requires right { IsVector (over F.field O.order space.now) M.exps b.now }
    ensures exact { let S = over F.field O.order space.now in let x = M.exps in
        IsTrue result ↔ (vector_of S x a.now ≡ vector_of S x b.now) }
{
    let xs = a.terms();
    let ys = b.terms();
    if xs.len() != ys.len() {
        return false;
    }
    for i in 0..xs.len() {
        let x = &xs[i];
        let y = &ys[i];
        if x.coef != y.coef {
            return false;
        }
        match space.order.compare(&x.at, &y.at) {
            Ordering::Equal => {}
            _ => return false,
        }
    }
    true
}

/// The coefficient of the vector at a position and a monomial: 0 where there is no such term. The terms fall, so it is
/// sought by halves. Takes no memory.
pub fn coefficient<F: Field, O: TermOrder, M: Monomial>(
    space: &Space<F, O>,
    a: &Vector<F::Elem, M>,
    at: &ModTerm<M>,
) -> F::Elem
    requires vector { IsVector (over F.field O.order space.now) M.exps a.now }
    requires place { IsPlace (over F.field O.order space.now) (place M.exps at.now) }
    ensures has { Has (F.field space.now.field) result }
    ensures is { let S = over F.field O.order space.now in let x = M.exps in
        scalar S.field result ≡ coef_at S.field (vector_of S x a.now) (key (place x at.now)) }
{
    let terms = a.terms();
    let mut low = 0;
    let mut high = terms.len();
    while low < high {
        let middle = low + (high - low) / 2;
        let t = &terms[middle];
        match space.order.compare(&t.at, at) {
            Ordering::Equal => return t.coef,
            Ordering::Greater => low = middle + 1,
            Ordering::Less => high = middle,
        }
    }
    space.field.zero()
}
