ghost use Rattle.std.specs.Prelude.{IfOk, ◌∷◌, []};
ghost use Rattle.alg_core.specs.Fields.{Has};
ghost use Rattle.alg_core.specs.Spaces.{over, entry, IsPlace};
ghost use Rattle.poly_module.specs.SpaceVectors.{vector_of, IsVectorOf, ArePlaced};

use crate::copies::term_at;
use crate::merge::add;
use crate::vector::Vector;
use alg_core::{Field, Memory, Monomial, Space, Term, TermOrder, is_zero};
use std::alloc::Global;

/// The sum of the terms, which may stand in any order, repeat places and have the coefficient 0.
pub fn make<F: Field, O: TermOrder, M: Monomial>(
    alloc: Global,
    space: &Space<F, O>,
    terms: &[Term<F::Elem, M>],
) -> Result<Vector<F::Elem, M>, Memory>
    requires given { ArePlaced (over F.field O.order space.now) M.exps terms.now }
    ensures sum { let S = over F.field O.order space.now in let x = M.exps in
        IfOk result (IsVectorOf S x (vector_of S x terms.now)) }
{
    if terms.len() == 0 {
        return Ok(Vector::of(Vec::new(alloc)));
    }
    if terms.len() == 1 {
        let made = single(alloc, space, &terms[0])?;
        return Ok(made);
    }
    let (front, back) = terms.split_at(terms.len() / 2);
    let left = make(alloc, space, front)?;
    let right = make(alloc, space, back)?;
    let sum = add(alloc, space, &left, &right)?;
    Ok(sum)
}

/// The vector of one term, whose coefficient may be 0.
pub fn single<F: Field, O: TermOrder, M: Monomial>(
    alloc: Global,
    space: &Space<F, O>,
    term: &Term<F::Elem, M>,
) -> Result<Vector<F::Elem, M>, Memory>
    requires given { ArePlaced (over F.field O.order space.now) M.exps (term.now ∷ []) }
    ensures sum { let S = over F.field O.order space.now in let x = M.exps in
        IfOk result (IsVectorOf S x (vector_of S x (term.now ∷ []))) }
{
    let mut made = Vec::new(alloc);
    if is_zero(&space.field, term.coef) {
        return Ok(Vector::of(made));
    }
    made.push(term_at(alloc, term.coef, &term.at)?)?;
    Ok(Vector::of(made))
}
