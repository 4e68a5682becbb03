//! Polynomials in the variables and marks in which no mark occurs, as polynomials in the variables.

ghost use Rattle.std.specs.Prelude.{◌≡◌, ◌≤◌, IfOk, length};
ghost use Rattle.alg_core.specs.Monomials.{mono as monomial_of};
ghost use Rattle.alg_core.specs.Spaces.{over};
ghost use Rattle.poly_module.specs.SpaceVectors.{HasPolynomials, IsPolyOf, vector_of};
ghost use Rattle.primary_module.specs.WiderTerms.{IsWiderTerm};
ghost use Rattle.invring_app.specs.NarrowTerms.{AreNarrow};

use alg_core::{Field, Memory, ModTerm, Mono, Monomial, Space, Term, TermOrder};
use poly_module::{Poly, make};
use std::alloc::Global;

/// The term with the exponents of the first variables alone, where the others have the exponent 0.
fn narrower_term<E: Copy>(
    alloc: Global,
    variables: usize,
    t: &Term<E, Mono>,
) -> Result<Term<E, Mono>, Memory>
    requires long { variables ≤ length t.now.at.mono }
    requires unmarked { let m = monomial_of t.now.at.mono in length m.0 ≤ variables }
    ensures is { IfOk result (IsWiderTerm variables t.now) }
{
    let mono = &t.at.mono;
    let mut exponents = Vec::new(alloc);
    for i in 0..variables {
        exponents.push(mono.exp(i))?;
    }
    let narrower = Mono::from_exps(alloc, exponents.as_slice())?;
    let at = ModTerm {
        pos: t.at.pos,
        mono: narrower,
    };
    Ok(Term { coef: t.coef, at })
}

/// The polynomial in the space of the variables.
pub(crate) fn without_marks<F: Field, O: TermOrder>(
    alloc: Global,
    space: &Space<F, O>,
    f: &Poly<F::Elem>,
) -> Result<Poly<F::Elem>, Memory>
    requires polynomials { HasPolynomials (over F.field O.order space.now) }
    requires narrow { AreNarrow (F.field space.now.field) (length space.now.grading.weights.items) f.now }
    ensures same { let S = over F.field O.order space.now in IfOk result (IsPolyOf S (λ m. m) (vector_of S (λ m. m) f.now)) }
{
    let terms = f.terms();
    let variables = space.grading.weights.len();
    let mut narrower = Vec::new(alloc);
    for i in 0..terms.len() {
        let t = &terms[i];
        narrower.push(narrower_term(alloc, variables, t)?)?;
    }
    let made = make(alloc, space, narrower.as_slice())?;
    Ok(made)
}
