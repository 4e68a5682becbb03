//! Monomials, and their averages.

ghost use Rattle.std.specs.Prelude.{◌≡◌, ◌≤◌, IfOk, All, length};
ghost use Rattle.alg_core.specs.Monomials.{mono as monomial_of};
ghost use Rattle.alg_core.specs.Spaces.{over};
ghost use Rattle.poly_module.specs.Polynomials.{single_vector};
ghost use Rattle.poly_module.specs.SpaceVectors.{HasPolynomials, vector_of};
ghost use Rattle.matrix_group.specs.Groups.{size};
ghost use Rattle.reynolds_op.specs.Averages.{AveragesOn, reynolds};
ghost use Rattle.secondary_gens.specs.Forms.{IsSmallForm};
ghost use Rattle.secondary_gens.specs.Lists.{Each};
ghost use Rattle.invring_app.specs.SmallMonomials.{IsSmallMonomial};

use alg_core::{Field, Memory, ModTerm, Mono, Monomial, Space, Term, TermOrder};
use poly_module::{Poly, single};
use reynolds_op::Reynolds;
use std::alloc::Global;

/// The monomial as a polynomial.
fn as_polynomial<F: Field, O: TermOrder>(
    alloc: Global,
    space: &Space<F, O>,
    mono: &Mono,
) -> Result<Poly<F::Elem>, Memory>
    requires polynomials { HasPolynomials (over F.field O.order space.now) }
    requires small { IsSmallMonomial (length space.now.grading.weights.items) mono.now }
    ensures form { IfOk result (IsSmallForm (over F.field O.order space.now)) }
    ensures is { let S = over F.field O.order space.now in
        IfOk result (λ f. vector_of S (λ m. m) f ≡ single_vector S.field (0, monomial_of mono.now)) }
{
    let at = ModTerm {
        pos: 0,
        mono: mono.copy(alloc)?,
    };
    let coef = space.field.one();
    let made = single(alloc, space, &Term { coef, at })?;
    Ok(made)
}

/// The average of the monomial.
fn average_of<'g, F: Field, O: TermOrder>(
    alloc: Global,
    space: &Space<F, O>,
    averaging: &Reynolds<'g, F::Elem>,
    mono: &Mono,
) -> Result<Poly<F::Elem>, Memory>
    requires averaging { AveragesOn (over F.field O.order space.now) averaging.now }
    requires polynomials { HasPolynomials (over F.field O.order space.now) }
    requires small { IsSmallMonomial (length space.now.grading.weights.items) mono.now }
    ensures form { IfOk result (IsSmallForm (over F.field O.order space.now)) }
    ensures is { let S = over F.field O.order space.now in IfOk result (λ f. vector_of S (λ m. m) f
        ≡ reynolds S.field (size averaging.now.elements) averaging.now (single_vector S.field (0, monomial_of mono.now))) }
{
    let f = as_polynomial(alloc, space, mono)?;
    let average = averaging.apply(alloc, space, &f)?;
    Ok(average)
}

/// The averages of the monomials, in their order.
pub(crate) fn averages<'g, F: Field, O: TermOrder>(
    alloc: Global,
    space: &Space<F, O>,
    averaging: &Reynolds<'g, F::Elem>,
    monomials: &[Mono],
) -> Result<Vec<Poly<F::Elem>>, Memory>
    requires averaging { AveragesOn (over F.field O.order space.now) averaging.now }
    requires polynomials { HasPolynomials (over F.field O.order space.now) }
    requires small { All (IsSmallMonomial (length space.now.grading.weights.items)) monomials.now }
    ensures forms { IfOk result (λ fs. All (IsSmallForm (over F.field O.order space.now)) fs.items) }
    ensures each { let S = over F.field O.order space.now in let x = vector_of S (λ m. m) in
        let mean = reynolds S.field (size averaging.now.elements) averaging.now in
        IfOk result (λ fs. Each (λ b f. x f ≡ mean (single_vector S.field (0, monomial_of b))) monomials.now fs.items) }
{
    let mut images = Vec::new(alloc);
    for i in 0..monomials.len() {
        let mono = &monomials[i];
        images.push(average_of(alloc, space, averaging, mono)?)?;
    }
    Ok(images)
}
