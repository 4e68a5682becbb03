ghost use Rattle.std.specs.Prelude.{◌≡◌, IfOk, All};
ghost use Rattle.alg_core.specs.Spaces.{over, entries, IsTerm};
ghost use Rattle.poly_module.specs.Polynomials.{product};
ghost use Rattle.poly_module.specs.SpaceVectors.{vector_of, IsVector, IsVectorOf, IsPoly};
ghost use Rattle.poly_module.specs.Sizes.{HasRoom};

use crate::merge::add;
use crate::multiple::mul_term;
use crate::vector::Vector;
use alg_core::{Field, Memory, Monomial, Space, Term, TermOrder};
use std::alloc::Global;

/// The product of the polynomial f, which has position 0 alone, and the vector a. The products with
/// single terms of f are added up by halves, so that the work is that of sorting all of them.
pub fn mul<F: Field, O: TermOrder, M: Monomial>(
    alloc: Global,
    space: &Space<F, O>,
    f: &Vector<F::Elem, M>,
    a: &Vector<F::Elem, M>,
) -> Result<Vector<F::Elem, M>, Memory>
    requires polynomial { IsPoly (over F.field O.order space.now) M.exps f.now }
    requires vector { IsVector (over F.field O.order space.now) M.exps a.now }
    requires room { HasRoom M.MAX_EXP M.exps f.now a.now }
    ensures product { let S = over F.field O.order space.now in let x = M.exps in
        IfOk result (IsVectorOf S x (product S.field (vector_of S x f.now) (vector_of S x a.now))) }
{
    let product = product_of_terms(alloc, space, f.terms(), a)?;
    Ok(product)
}

/// The product of the sum of some terms at position 0 and a vector.
fn product_of_terms<F: Field, O: TermOrder, M: Monomial>(
    alloc: Global,
    space: &Space<F, O>,
    factors: &[Term<F::Elem, M>],
    a: &Vector<F::Elem, M>,
) -> Result<Vector<F::Elem, M>, Memory>
    requires polynomial { All (λ e. e.0.0 ≡ 0) (entries M.exps factors.now) }
    requires terms { All (IsTerm (over F.field O.order space.now)) (entries M.exps factors.now) }
    requires vector { IsVector (over F.field O.order space.now) M.exps a.now }
    requires room { HasRoom M.MAX_EXP M.exps factors.now a.now }
    ensures product { let S = over F.field O.order space.now in let x = M.exps in
        IfOk result (IsVectorOf S x (product S.field (vector_of S x factors.now) (vector_of S x a.now))) }
{
    if factors.len() == 0 {
        return Ok(Vector::of(Vec::new(alloc)));
    }
    if factors.len() == 1 {
        let factor = &factors[0];
        let product = mul_term(alloc, space, factor.coef, &factor.at.mono, a)?;
        return Ok(product);
    }
    let (front, back) = factors.split_at(factors.len() / 2);
    let left = product_of_terms(alloc, space, front, a)?;
    let right = product_of_terms(alloc, space, back, a)?;
    let sum = add(alloc, space, &left, &right)?;
    Ok(sum)
}
