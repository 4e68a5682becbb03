ghost use Rattle.std.specs.Prelude.{◌≡◌, IfOk};
ghost use Rattle.alg_core.specs.Spaces.{over, entries};
ghost use Rattle.alg_core.specs.Vectors.{plus};
ghost use Rattle.poly_module.specs.SpaceVectors.{vector_of, IsVector};

use alg_core::{Field, Memory, Monomial, Space, Term, TermOrder};
use std::alloc::Global;
use std::cmp::Ordering;

/// The same terms, in memory of their own.
pub(crate) fn copied_terms<E: Copy, M: Monomial>(
    alloc: Global,
    xs: &[Term<E, M>],
) -> Result<Vec<Term<E, M>>, Memory>
    ensures same { IfOk result (λ v. entries M.exps v.items ≡ entries M.exps xs.now) }
{
    let mut terms = Vec::new(alloc);
    for i in 0..xs.len() {
        let x = &xs[i];
        terms.push(x.copy(alloc)?)?;
    }
    Ok(terms)
}

/// The sum of two vectors that are given by their terms.
pub(crate) fn sum_of_terms<F: Field, O: TermOrder, M: Monomial>(
    alloc: Global,
    space: &Space<F, O>,
    xs: &[Term<F::Elem, M>],
    ys: &[Term<F::Elem, M>],
) -> Result<Vec<Term<F::Elem, M>>, Memory>
    requires left { IsVector (over F.field O.order space.now) M.exps xs.now }
    requires right { IsVector (over F.field O.order space.now) M.exps ys.now }
    ensures fits { IfOk result (λ v. IsVector (over F.field O.order space.now) M.exps v.items) }
    ensures sum { let S = over F.field O.order space.now in let x = M.exps in
        IfOk result (λ v. vector_of S x v.items ≡ plus S.field (vector_of S x xs.now) (vector_of S x ys.now)) }
{
    let mut terms = Vec::new(alloc);
    let mut i = 0;
    let mut j = 0;
    'both: while i < xs.len() && j < ys.len() {
        let x = &xs[i];
        let y = &ys[j];
        match space.order.compare(&x.at, &y.at) {
            Ordering::Greater => {
                terms.push(x.copy(alloc)?)?;
                i += 1;
            }
            Ordering::Less => {
                terms.push(y.copy(alloc)?)?;
                j += 1;
            }
            Ordering::Equal => {
                let coef = space.field.add(x.coef, y.coef);
                i += 1;
                j += 1;
                if coef != space.field.zero() {
                    let at = x.at.copy(alloc)?;
                    terms.push(Term { coef, at })?;
                }
            }
        }
    }
    'left: while i < xs.len() {
        let x = &xs[i];
        terms.push(x.copy(alloc)?)?;
        i += 1;
    }
    'right: while j < ys.len() {
        let y = &ys[j];
        terms.push(y.copy(alloc)?)?;
        j += 1;
    }
    Ok(terms)
}
