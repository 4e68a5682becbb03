//! Polynomials in the variables, as polynomials in the variables and marks.

ghost use Rattle.std.specs.Prelude.{◌≡◌, ◌≤◌, IfOk, All, length};
ghost use Rattle.poly_module.specs.SpaceVectors.{IsPolyOf, ArePolys, vector_of, vectors_of};
ghost use Rattle.finite_certificate.specs.MarkSpaces.{mark_space, IsMarkSpace};
ghost use Rattle.primary_module.specs.WiderTerms.{IsWiderTerm, IsUnmarked};

use alg_core::{BlockOrder, Field, Memory, ModTerm, Mono, Monomial, Space, Term};
use poly_module::{Poly, make};
use std::alloc::Global;

/// The term with an exponent for each variable and each mark of the space, those of the marks 0.
fn wider_term<F: Field>(
    alloc: Global,
    space: &Space<F, BlockOrder>,
    t: &Term<F::Elem, Mono>,
) -> Result<Term<F::Elem, Mono>, Memory>
    requires variables { length t.now.at.mono ≤ length space.now.grading.weights.items }
    ensures is { IfOk result (IsWiderTerm (length space.now.grading.weights.items) t.now) }
{
    let mono = &t.at.mono;
    let mut exponents = vec![in alloc; 0; space.grading.weights.len()]?;
    for i in 0..mono.len() {
        exponents[i] = mono.exp(i);
    }
    let wider = Mono::from_exps(alloc, exponents.as_slice())?;
    let at = ModTerm {
        pos: t.at.pos,
        mono: wider,
    };
    Ok(Term { coef: t.coef, at })
}

/// The polynomial in the space with marks.
fn with_marks<F: Field>(
    alloc: Global,
    space: &Space<F, BlockOrder>,
    f: &Poly<F::Elem>,
) -> Result<Poly<F::Elem>, Memory>
    requires space { IsMarkSpace (mark_space F.field space.now) space.now.order.vars space.now.order.weights.items }
    requires unmarked { IsUnmarked (F.field space.now.field) space.now.order.vars f.now }
    ensures same { let S = mark_space F.field space.now in IfOk result (IsPolyOf S (λ m. m) (vector_of S (λ m. m) f.now)) }
{
    let terms = f.terms();
    let mut wider = Vec::new(alloc);
    for i in 0..terms.len() {
        let t = &terms[i];
        wider.push(wider_term(alloc, space, t)?)?;
    }
    let made = make(alloc, space, wider.as_slice())?;
    Ok(made)
}

/// The polynomials, whose terms may lack the exponents of the marks, as polynomials in the space with marks, in their order.
pub fn all_with_marks<F: Field>(
    alloc: Global,
    space: &Space<F, BlockOrder>,
    fs: &[Poly<F::Elem>],
) -> Result<Vec<Poly<F::Elem>>, Memory>
    requires space { IsMarkSpace (mark_space F.field space.now) space.now.order.vars space.now.order.weights.items }
    requires unmarked { All (IsUnmarked (F.field space.now.field) space.now.order.vars) fs.now }
    ensures polynomials { IfOk result (λ ps. ArePolys (mark_space F.field space.now) (λ m. m) ps.items) }
    ensures same { let S = mark_space F.field space.now in
        IfOk result (λ ps. vectors_of S (λ m. m) ps.items ≡ vectors_of S (λ m. m) fs.now) }
{
    let mut made = Vec::new(alloc);
    for i in 0..fs.len() {
        let f = &fs[i];
        made.push(with_marks(alloc, space, f)?)?;
    }
    Ok(made)
}
