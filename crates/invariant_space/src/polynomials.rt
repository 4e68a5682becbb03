ghost use Rattle.std.specs.Prelude.{◌≡◌, All, IfOk, length, map};
ghost use Rattle.alg_core.specs.Spaces.{over};
ghost use Rattle.poly_module.specs.SpaceVectors.{vectors_of, ArePolys, IsPoly, IsPolyOf};
ghost use Rattle.lin_algebra.specs.Matrices.{IsMatrix};
ghost use Rattle.lin_algebra.specs.Matrices.{vectors_of as vectors_of_rows};
ghost use Rattle.lin_algebra.specs.Vectors.{vector, IsRow};
ghost use Rattle.invariant_space.specs.Equations.{row_polynomial};
ghost use Rattle.invariant_space.specs.Monomials.{keys_of};

use alg_core::{Field, Memory, Space, Term, TermOrder};
use lin_algebra::Matrix;
use poly_module::{Poly, make};
use std::alloc::Global;

/// The polynomial with these coefficients at the monomials, those of the terms of `monomials`.
fn polynomial<F: Field, O: TermOrder>(
    alloc: Global,
    space: &Space<F, O>,
    monomials: &Poly<F::Elem>,
    row: &[F::Elem],
) -> Result<Poly<F::Elem>, Memory>
    requires monomials { IsPoly (over F.field O.order space.now) (λ m. m) monomials.now }
    requires row { IsRow (F.field space.now.field) (length monomials.now) row.now }
    ensures polynomial { let S = over F.field O.order space.now in
        IfOk result (IsPolyOf S (λ m. m) (row_polynomial S.field (keys_of monomials.now) (vector S.field row.now))) }
{
    let places = monomials.terms();
    let mut terms = Vec::new(alloc);
    for l in 0..places.len() {
        let at = places[l].at.copy(alloc)?;
        terms.push(Term { coef: row[l], at })?;
    }
    let made = make(alloc, space, terms.as_slice())?;
    Ok(made)
}

/// The polynomials of the rows of a matrix.
pub(crate) fn polynomials<F: Field, O: TermOrder>(
    alloc: Global,
    space: &Space<F, O>,
    monomials: &Poly<F::Elem>,
    a: &Matrix<F::Elem>,
) -> Result<Vec<Poly<F::Elem>>, Memory>
    requires monomials { IsPoly (over F.field O.order space.now) (λ m. m) monomials.now }
    requires matrix { IsMatrix (F.field space.now.field) a.now }
    requires columns { a.now.cols ≡ length monomials.now }
    ensures polynomials { IfOk result (λ ps. ArePolys (over F.field O.order space.now) (λ m. m) ps.items) }
    ensures are { let S = over F.field O.order space.now in IfOk result (λ ps.
        vectors_of S (λ m. m) ps.items ≡ map (row_polynomial S.field (keys_of monomials.now)) (vectors_of_rows S.field a.now)) }
{
    let mut polynomials = Vec::new(alloc);
    for i in 0..a.rows as usize {
        polynomials.push(polynomial(alloc, space, monomials, a.row(i))?)?;
    }
    Ok(polynomials)
}
