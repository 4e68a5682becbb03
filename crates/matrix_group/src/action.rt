ghost use Rattle.std.specs.Prelude.{◌≡◌, ◌<◌, IfOk, length};
ghost use Rattle.alg_core.specs.Keys.{key};
ghost use Rattle.alg_core.specs.Monomials.{mono};
ghost use Rattle.alg_core.specs.Spaces.{over, entry, IsPlace};
ghost use Rattle.poly_module.specs.MonomialVariables.{variable};
ghost use Rattle.poly_module.specs.SpaceVectors.{vector_of, IsPoly, IsPolyOf, HasPolynomials};
ghost use Rattle.poly_module.specs.Sizes.{IsLow};
ghost use Rattle.lin_algebra.specs.Matrices.{entries as cells_of};
ghost use Rattle.matrix_group.specs.Actions.{linear_form, image, act_by, ActsOn};

use alg_core::{Field, Memory, ModTerm, Mono, Space, Term, TermOrder};
use lin_algebra::Matrix;
use poly_module::{Poly, make, substitute, variable};
use std::alloc::Global;

/// The exponents of variable i, of n variables.
fn exponents_of(alloc: Global, n: usize, i: usize) -> Result<Vec<u32>, Memory>
    requires within { i < n }
    ensures count { IfOk result (λ a. length a.items ≡ n) }
    ensures variable { IfOk result (λ a. mono a.items ≡ variable i) }
{
    let mut exponents = vec![in alloc; 0; n]?;
    exponents[i] = 1;
    Ok(exponents)
}

/// A multiple of variable i.
fn variable_term<F: Field, O: TermOrder>(
    alloc: Global,
    space: &Space<F, O>,
    coef: F::Elem,
    i: usize,
) -> Result<Term<F::Elem, Mono>, Memory>
    requires polynomials { HasPolynomials (over F.field O.order space.now) }
    requires within { i < length space.now.grading.weights.items }
    ensures coef { IfOk result (λ t. t.coef ≡ coef) }
    ensures place { IfOk result (λ t. IsPlace (over F.field O.order space.now) (entry (λ m. m) t).0) }
    ensures variable { IfOk result (λ t. key (entry (λ m. m) t).0 ≡ (0, variable i)) }
{
    let exponents = exponents_of(alloc, space.grading.weights.len(), i)?;
    let mono = Mono::from_exps(alloc, exponents.as_slice())?;
    let at = ModTerm { pos: 0, mono };
    Ok(Term { coef, at })
}

/// The linear form with the coefficients in row i, from 0: what is put for variable i.
pub fn row_form<F: Field, O: TermOrder>(
    alloc: Global,
    space: &Space<F, O>,
    m: &Matrix<F::Elem>,
    i: usize,
) -> Result<Poly<F::Elem>, Memory>
    requires polynomials { HasPolynomials (over F.field O.order space.now) }
    requires matrix { ActsOn (over F.field O.order space.now) m.now }
    requires row { i < m.now.rows }
    ensures form { let S = over F.field O.order space.now in
        IfOk result (IsPolyOf S (λ a. a) (linear_form S.field m.now.rows (cells_of S.field m.now i))) }
{
    let n = m.rows as usize;
    let mut terms = Vec::new(alloc);
    for j in 0..n {
        let coef = m.cells[i * n + j];
        terms.push(variable_term(alloc, space, coef, j)?)?;
    }
    let form = make(alloc, space, terms.as_slice())?;
    Ok(form)
}

/// What is put for variable i.
fn image_of<F: Field, O: TermOrder>(
    alloc: Global,
    space: &Space<F, O>,
    m: &Matrix<F::Elem>,
    i: usize,
) -> Result<Poly<F::Elem>, Memory>
    requires polynomials { HasPolynomials (over F.field O.order space.now) }
    requires matrix { ActsOn (over F.field O.order space.now) m.now }
    requires variable { i < length space.now.grading.weights.items }
    ensures image { let S = over F.field O.order space.now in
        IfOk result (IsPolyOf S (λ a. a) (image S.field m.now.rows (cells_of S.field m.now) i)) }
{
    if (i as u64) < m.rows {
        let form = row_form(alloc, space, m, i)?;
        Ok(form)
    } else {
        let variable = variable(alloc, space, i)?;
        Ok(variable)
    }
}

/// The image of f: for each of the first n variables the linear form in its row of m, where m is n by
/// n; the other variables stay.
pub fn act<F: Field, O: TermOrder>(
    alloc: Global,
    space: &Space<F, O>,
    f: &Poly<F::Elem>,
    m: &Matrix<F::Elem>,
) -> Result<Poly<F::Elem>, Memory>
    requires polynomials { HasPolynomials (over F.field O.order space.now) }
    requires polynomial { IsPoly (over F.field O.order space.now) (λ a. a) f.now }
    requires matrix { ActsOn (over F.field O.order space.now) m.now }
    requires low { IsLow 4294967295 (λ a. a) f.now }
    ensures image { let S = over F.field O.order space.now in
        IfOk result (IsPolyOf S (λ a. a) (act_by S.field m.now (vector_of S (λ a. a) f.now))) }
{
    let mut images = Vec::new(alloc);
    for i in 0..space.grading.weights.len() {
        images.push(image_of(alloc, space, m, i)?)?;
    }
    let image = substitute(alloc, space, f, images.as_slice())?;
    Ok(image)
}
