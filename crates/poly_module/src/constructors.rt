ghost use Rattle.std.specs.Prelude.{◌≡◌, ◌<◌, IfOk, length};
ghost use Rattle.alg_core.specs.Fields.{Has};
ghost use Rattle.alg_core.specs.Monomials.{mono};
ghost use Rattle.alg_core.specs.Spaces.{over};
ghost use Rattle.alg_core.specs.Vectors.{scale};
ghost use Rattle.poly_module.specs.Polynomials.{single_vector, one_vector};
ghost use Rattle.poly_module.specs.Substitutions.{variable_vector};
ghost use Rattle.poly_module.specs.SpaceVectors.{IsPolyOf, HasPolynomials};

use crate::vector::Poly;
use crate::whole::single;
use alg_core::{Field, Memory, ModTerm, Mono, Space, Term, TermOrder};
use std::alloc::Global;

/// The value c times the monomial with these exponents, that of the first variable first.
pub fn monomial<F: Field, O: TermOrder>(
    alloc: Global,
    space: &Space<F, O>,
    c: F::Elem,
    exponents: &[u32],
) -> Result<Poly<F::Elem>, Memory>
    requires value { Has (F.field space.now.field) c }
    requires polynomials { HasPolynomials (over F.field O.order space.now) }
    requires wide { length exponents.now ≡ length space.now.grading.weights.items }
    ensures monomial { let S = over F.field O.order space.now in
        IfOk result (IsPolyOf S (λ m. m) (scale S.field c (single_vector S.field (0, mono exponents.now)))) }
{
    let mono = Mono::from_exps(alloc, exponents)?;
    let at = ModTerm { pos: 0, mono };
    let term = Term { coef: c, at };
    let made = single(alloc, space, &term)?;
    Ok(made)
}

/// The polynomial 1.
pub fn one<F: Field, O: TermOrder>(
    alloc: Global,
    space: &Space<F, O>,
) -> Result<Poly<F::Elem>, Memory>
    requires polynomials { HasPolynomials (over F.field O.order space.now) }
    ensures one { let S = over F.field O.order space.now in IfOk result (IsPolyOf S (λ m. m) (one_vector S.field)) }
{
    let exponents = vec![in alloc; 0; space.grading.weights.len()]?;
    let one = monomial(alloc, space, space.field.one(), exponents.as_slice())?;
    Ok(one)
}

/// Variable i, from 0, as a polynomial.
pub fn variable<F: Field, O: TermOrder>(
    alloc: Global,
    space: &Space<F, O>,
    i: usize,
) -> Result<Poly<F::Elem>, Memory>
    requires polynomials { HasPolynomials (over F.field O.order space.now) }
    requires within { i < length space.now.grading.weights.items }
    ensures variable { let S = over F.field O.order space.now in
        IfOk result (IsPolyOf S (λ m. m) (variable_vector S.field i)) }
{
    let mut exponents = vec![in alloc; 0; space.grading.weights.len()]?;
    exponents[i] = 1;
    let variable = monomial(alloc, space, space.field.one(), exponents.as_slice())?;
    Ok(variable)
}
