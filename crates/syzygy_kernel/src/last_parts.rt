ghost use Rattle.std.specs.Prelude.{◌≡◌, ◌↔◌, ◌≤◌, ◌+◌, ◌*◌, ◌++◌, IsTrue, IfOk, All, length};
ghost use Rattle.poly_module.specs.SpaceVectors.{HasPolynomials, IsPoly, IsPolyOf, IsVector, AreVectors, vector_of, vectors_of};
ghost use Rattle.finite_certificate.specs.MarkSpaces.{mark_space};
ghost use Rattle.syzygy_kernel.specs.Graphs.{graph_space, last_part};
ghost use Rattle.syzygy_kernel.specs.Kernels.{AreListedAs};

use crate::member::Member;
use alg_core::{BlockOrder, Field, Memory, ModTerm, Mono, Monomial, Space, Term};
use lin_algebra::Matrix;
use poly_module::{Poly, Vector, make};
use std::alloc::Global;

/// The product of the monomial in the variables and the monomial in the marks.
fn with_marks(alloc: Global, variables: &Mono, marks: &Mono) -> Result<Mono, Memory>
    ensures is { IfOk result (λ m. m ≡ variables.now ++ marks.now) }
{
    let mut exponents = Vec::new(alloc);
    for i in 0..variables.len() {
        exponents.push(variables.exp(i))?;
    }
    for i in 0..marks.len() {
        exponents.push(marks.exp(i))?;
    }
    let mono = Mono::from_exps(alloc, exponents.as_slice())?;
    Ok(mono)
}

/// The last part of the vector as a polynomial, where each position stands as its monomial; the last
/// part begins at `first`.
fn last_polynomial<F: Field>(
    alloc: Global,
    space: &Space<F, BlockOrder>,
    monomials: &[Mono],
    first: u64,
    gens: &[Matrix<F::Elem>],
    v: &Vector<F::Elem, Mono>,
) -> Result<Poly<F::Elem>, Memory>
    requires polynomials { HasPolynomials (mark_space F.field space.now) }
    requires wide { All (λ a. length a ≡ space.now.order.vars) monomials.now }
    requires weights { length space.now.grading.weights.items ≡ space.now.order.vars + length space.now.order.weights.items }
    requires first { first ≡ length gens.now * length monomials.now }
    requires vector { let k = F.field space.now.field in
        IsVector (graph_space k space.now.order.weights.items (length gens.now) monomials.now) (λ m. m) v.now }
    ensures polynomial { let S = mark_space F.field space.now in
        IfOk result (IsPolyOf S (λ m. m) (last_part S.field space.now.order.vars gens.now monomials.now (vector_of S (λ m. m) v.now))) }
{
    let given = v.terms();
    let mut terms = Vec::new(alloc);
    for i in 0..given.len() {
        let term = &given[i];
        if term.at.pos >= first {
            let place = (term.at.pos - first) as usize;
            let mono = with_marks(alloc, &monomials[place], &term.at.mono)?;
            let at = ModTerm { pos: 0, mono };
            terms.push(Term {
                coef: term.coef,
                at,
            })?;
        }
    }
    let made = make(alloc, space, terms.as_slice())?;
    Ok(made)
}

/// Whether the vector has no part before the last, which begins at `first`.
fn is_last<E>(v: &Vector<E, Mono>, first: u64) -> bool
    ensures exact { IsTrue result ↔ All (λ t. first ≤ t.at.pos) v.now }
{
    v.terms().iter().all(|t| t.at.pos >= first)
}

/// The members that list the vectors, in their order.
pub(crate) fn members<F: Field>(
    alloc: Global,
    space: &Space<F, BlockOrder>,
    monomials: &[Mono],
    first: u64,
    gens: &[Matrix<F::Elem>],
    basis: &[Vector<F::Elem, Mono>],
) -> Result<Vec<Member<F::Elem>>, Memory>
    requires polynomials { HasPolynomials (mark_space F.field space.now) }
    requires wide { All (λ a. length a ≡ space.now.order.vars) monomials.now }
    requires weights { length space.now.grading.weights.items ≡ space.now.order.vars + length space.now.order.weights.items }
    requires first { first ≡ length gens.now * length monomials.now }
    requires vectors { let k = F.field space.now.field in
        AreVectors (graph_space k space.now.order.weights.items (length gens.now) monomials.now) (λ m. m) basis.now }
    ensures polynomials { IfOk result (λ ms. All (λ m. IsPoly (mark_space F.field space.now) (λ m. m) m.u) ms.items) }
    ensures listed { let S = mark_space F.field space.now in let n = space.now.order.vars in
        IfOk result (λ ms. AreListedAs S.field n gens.now monomials.now (vectors_of S (λ m. m) basis.now) ms.items) }
{
    let mut members = Vec::new(alloc);
    for i in 0..basis.len() {
        let v = &basis[i];
        let u = last_polynomial(alloc, space, monomials, first, gens, v)?;
        let is_fixed = is_last(v, first);
        members.push(Member { u, is_fixed })?;
    }
    Ok(members)
}
