ghost use Rattle.std.specs.Prelude.{◌≡◌, IfOk};
ghost use Rattle.alg_core.specs.Spaces.{over, entries};
ghost use Rattle.alg_core.specs.Vectors.{vec, plus};
ghost use Rattle.poly_module.specs.Signs.{signed_entries, minus};
ghost use Rattle.poly_module.specs.SpaceVectors.{vector_of, IsVector, IsVectorOf};

use crate::copies::term_at;
use crate::signs::{Sign, signed};
use crate::vector::Vector;
use alg_core::{Field, Memory, Monomial, Space, TermOrder};
use std::alloc::Global;
use std::cmp::Ordering;

/// The sum a + b.
pub fn add<F: Field, O: TermOrder, M: Monomial>(
    alloc: Global,
    space: &Space<F, O>,
    a: &Vector<F::Elem, M>,
    b: &Vector<F::Elem, M>,
) -> Result<Vector<F::Elem, M>, Memory>
    requires left { IsVector (over F.field O.order space.now) M.exps a.now }
    requires right { IsVector (over F.field O.order space.now) M.exps b.now }
    ensures sum { let S = over F.field O.order space.now in let x = M.exps in
        IfOk result (IsVectorOf S x (plus S.field (vector_of S x a.now) (vector_of S x b.now))) }
{
    let sum = merged(alloc, space, a, Sign::Plus, b)?;
    Ok(sum)
}

/// The difference a - b.
pub fn sub<F: Field, O: TermOrder, M: Monomial>(
    alloc: Global,
    space: &Space<F, O>,
    a: &Vector<F::Elem, M>,
    b: &Vector<F::Elem, M>,
) -> Result<Vector<F::Elem, M>, Memory>
    requires left { IsVector (over F.field O.order space.now) M.exps a.now }
    requires right { IsVector (over F.field O.order space.now) M.exps b.now }
    ensures difference { let S = over F.field O.order space.now in let x = M.exps in
        IfOk result (IsVectorOf S x (minus S.field (vector_of S x a.now) (vector_of S x b.now))) }
{
    let difference = merged(alloc, space, a, Sign::Minus, b)?;
    Ok(difference)
}

/// The first vector and the second one with a sign, merged: their terms in falling order, where those
/// at one place are added up and zeros left out.
fn merged<F: Field, O: TermOrder, M: Monomial>(
    alloc: Global,
    space: &Space<F, O>,
    a: &Vector<F::Elem, M>,
    sign: Sign,
    b: &Vector<F::Elem, M>,
) -> Result<Vector<F::Elem, M>, Memory>
    requires left { IsVector (over F.field O.order space.now) M.exps a.now }
    requires right { IsVector (over F.field O.order space.now) M.exps b.now }
    ensures fits { IfOk result (IsVector (over F.field O.order space.now) M.exps) }
    ensures sum { let S = over F.field O.order space.now in let x = M.exps in
        IfOk result (λ v. vector_of S x v
        ≡ plus S.field (vector_of S x a.now) (vec S.field (signed_entries S.field sign (entries x b.now)))) }
{
    let xs = a.terms();
    let ys = b.terms();
    let mut terms = Vec::new(alloc);
    let mut i = 0;
    let mut j = 0;
    'both: while i < xs.len() && j < ys.len() {
        let x = &xs[i];
        let y = &ys[j];
        match space.order.compare(&x.at, &y.at) {
            Ordering::Greater => {
                terms.push(term_at(alloc, x.coef, &x.at)?)?;
                i += 1;
            }
            Ordering::Less => {
                terms.push(term_at(alloc, signed(&space.field, sign, y.coef), &y.at)?)?;
                j += 1;
            }
            Ordering::Equal => {
                let c = space.field.add(x.coef, signed(&space.field, sign, y.coef));
                i += 1;
                j += 1;
                if c != space.field.zero() {
                    terms.push(term_at(alloc, c, &x.at)?)?;
                }
            }
        }
    }
    'left: while i < xs.len() {
        let x = &xs[i];
        terms.push(term_at(alloc, x.coef, &x.at)?)?;
        i += 1;
    }
    'right: while j < ys.len() {
        let y = &ys[j];
        terms.push(term_at(alloc, signed(&space.field, sign, y.coef), &y.at)?)?;
        j += 1;
    }
    Ok(Vector::of(terms))
}
