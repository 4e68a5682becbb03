ghost use Rattle.std.specs.Prelude.{◌≡◌, IfOk, length};
ghost use Rattle.alg_core.specs.Fields.{Has};
ghost use Rattle.alg_core.specs.Monomials.{mono};
ghost use Rattle.alg_core.specs.Spaces.{over};
ghost use Rattle.alg_core.specs.Vectors.{scale, shift};
ghost use Rattle.poly_module.specs.SpaceVectors.{vector_of, IsVector, IsVectorOf};
ghost use Rattle.poly_module.specs.Sizes.{HasRoomAt};

use crate::copies::term_at;
use crate::vector::Vector;
use alg_core::{Field, Memory, ModTerm, Monomial, Space, Term, TermOrder, is_zero};
use std::alloc::Global;

/// The vector a times the value c.
pub fn scale<F: Field, O: TermOrder, M: Monomial>(
    alloc: Global,
    space: &Space<F, O>,
    c: F::Elem,
    a: &Vector<F::Elem, M>,
) -> Result<Vector<F::Elem, M>, Memory>
    requires value { Has (F.field space.now.field) c }
    requires vector { IsVector (over F.field O.order space.now) M.exps a.now }
    ensures multiple { let S = over F.field O.order space.now in let x = M.exps in
        IfOk result (IsVectorOf S x (scale S.field c (vector_of S x a.now))) }
{
    let xs = a.terms();
    let mut terms = Vec::new(alloc);
    if is_zero(&space.field, c) {
        return Ok(Vector::of(terms));
    }
    for i in 0..xs.len() {
        let x = &xs[i];
        let coef = space.field.mul(c, x.coef);
        terms.push(term_at(alloc, coef, &x.at)?)?;
    }
    Ok(Vector::of(terms))
}

/// The vector a times the value c and the monomial m.
pub fn mul_term<F: Field, O: TermOrder, M: Monomial>(
    alloc: Global,
    space: &Space<F, O>,
    c: F::Elem,
    m: &M,
    a: &Vector<F::Elem, M>,
) -> Result<Vector<F::Elem, M>, Memory>
    requires value { Has (F.field space.now.field) c }
    requires wide { length (M.exps m.now) ≡ length space.now.grading.weights.items }
    requires vector { IsVector (over F.field O.order space.now) M.exps a.now }
    requires room { HasRoomAt M.MAX_EXP M.exps (M.exps m.now) a.now }
    ensures multiple { let S = over F.field O.order space.now in let x = M.exps in
        IfOk result (IsVectorOf S x (scale S.field c (shift S.field (mono (x m.now)) (vector_of S x a.now)))) }
{
    let xs = a.terms();
    let mut terms = Vec::new(alloc);
    if is_zero(&space.field, c) {
        return Ok(Vector::of(terms));
    }
    for i in 0..xs.len() {
        let x = &xs[i];
        let coef = space.field.mul(c, x.coef);
        let mono = m.product(alloc, &x.at.mono)?;
        let at = ModTerm {
            pos: x.at.pos,
            mono,
        };
        terms.push(Term { coef, at })?;
    }
    Ok(Vector::of(terms))
}
