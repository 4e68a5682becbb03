ghost use Rattle.std.specs.Prelude.{◌≡◌, ◌≤◌, ◌<◌, ℕ, [], IsTrue, IfSome, IfOk, All, length, slice_index_or};
ghost use Rattle.alg_core.specs.ExponentLists.{divides};
ghost use Rattle.alg_core.specs.Monomials.{mono as monomial_of};
ghost use Rattle.poly_module.specs.Polynomials.{single_vector};
ghost use Rattle.poly_module.specs.SpaceVectors.{HasPolynomials, IsPositive, IsPolyOf, vectors_of};
ghost use Rattle.matrix_group.specs.Actions.{IsSquare, act_by};
ghost use Rattle.finite_certificate.specs.MarkSpaces.{mark_space, IsMarkSpace};
ghost use Rattle.primary_module.specs.PrimaryModules.{StandsOver, IsLowMonomial};
ghost use Rattle.primary_module.specs.PrimaryModules.{IsStandardImage, AreStandardImages, AreStandardDifferences};

use crate::module::PrimaryModule;
use alg_core::{BlockOrder, Field, Memory, Mono, Monomial, Space};
use lin_algebra::Matrix;
use matrix_group::act;
use poly_module::{Poly, monomial, mul, sub};
use std::alloc::Global;

/// The last place before the given one with a monomial that divides the one there.
fn divisor_before(monomials: &[Mono], place: usize) -> Option<usize>
    requires within { place < length monomials.now }
    requires wide { (n : ℕ) × All (λ a. length a ≡ n) monomials.now }
    ensures before { IfSome result (λ j. j < place) }
    ensures divides { IfSome result (λ j. IsTrue (divides (slice_index_or monomials.now j []) (slice_index_or monomials.now place []))) }
{
    let monomial = &monomials[place];
    let mut j = place;
    while j > 0 {
        j -= 1;
        let before = &monomials[j];
        if before.divides(monomial) {
            return Some(j);
        }
    }
    None
}

/// The monomial in the variables as a polynomial in variables and marks.
fn with_marks<F: Field>(
    alloc: Global,
    space: &Space<F, BlockOrder>,
    mono: &Mono,
) -> Result<Poly<F::Elem>, Memory>
    requires polynomials { HasPolynomials (mark_space F.field space.now) }
    requires variables { length mono.now ≤ length space.now.grading.weights.items }
    ensures is { let S = mark_space F.field space.now in
        IfOk result (IsPolyOf S (λ m. m) (single_vector S.field (0, monomial_of mono.now))) }
{
    let mut exponents = vec![in alloc; 0; space.grading.weights.len()]?;
    for i in 0..mono.len() {
        exponents[i] = mono.exp(i);
    }
    let polynomial = monomial(alloc, space, space.field.one(), exponents.as_slice())?;
    Ok(polynomial)
}

/// The image of the monomial in the variables.
fn image_of<F: Field>(
    alloc: Global,
    space: &Space<F, BlockOrder>,
    m: &Matrix<F::Elem>,
    mono: &Mono,
) -> Result<Poly<F::Elem>, Memory>
    requires positive { IsPositive (mark_space F.field space.now) }
    requires space { IsMarkSpace (mark_space F.field space.now) space.now.order.vars space.now.order.weights.items }
    requires square { IsSquare (F.field space.now.field) space.now.order.vars m.now }
    requires mono { IsLowMonomial space.now.order.vars mono.now }
    ensures image { let S = mark_space F.field space.now in
        IfOk result (IsPolyOf S (λ m. m) (act_by S.field m.now (single_vector S.field (0, monomial_of mono.now)))) }
{
    let polynomial = with_marks(alloc, space, mono)?;
    let image = act(alloc, space, &polynomial, m)?;
    Ok(image)
}

impl<E: Copy> PrimaryModule<E> {
    /// The coordinates of the image of the monomial.
    fn direct_image<F: Field<Elem = E>>(
        &self,
        alloc: Global,
        space: &Space<F, BlockOrder>,
        m: &Matrix<E>,
        mono: &Mono,
    ) -> Result<Poly<E>, Memory>
        requires stands { StandsOver (mark_space F.field space.now) space.now.order.vars space.now.order.weights.items self.now }
        requires square { IsSquare (F.field space.now.field) space.now.order.vars m.now }
        requires mono { IsLowMonomial space.now.order.vars mono.now }
        ensures image { let S = mark_space F.field space.now in
            IfOk result (IsStandardImage S space.now.order.vars (vectors_of S (λ m. m) self.now.theta) m.now mono.now) }
    {
        let image = image_of(alloc, space, m, mono)?;
        let coordinates = self.coords(alloc, space, &image)?;
        Ok(coordinates)
    }

    /// The coordinates of the image of the monomial, from those of the image of a divisor.
    fn image_by_divisor<F: Field<Elem = E>>(
        &self,
        alloc: Global,
        space: &Space<F, BlockOrder>,
        m: &Matrix<E>,
        mono: &Mono,
        divisor: &Mono,
        known: &Poly<E>,
    ) -> Result<Poly<E>, Memory>
        requires stands { StandsOver (mark_space F.field space.now) space.now.order.vars space.now.order.weights.items self.now }
        requires square { IsSquare (F.field space.now.field) space.now.order.vars m.now }
        requires mono { IsLowMonomial space.now.order.vars mono.now }
        requires divisor { length divisor.now ≡ space.now.order.vars }
        requires divides { IsTrue (divides divisor.now mono.now) }
        requires known { let S = mark_space F.field space.now in
            IsStandardImage S space.now.order.vars (vectors_of S (λ m. m) self.now.theta) m.now divisor.now known.now }
        ensures image { let S = mark_space F.field space.now in
            IfOk result (IsStandardImage S space.now.order.vars (vectors_of S (λ m. m) self.now.theta) m.now mono.now) }
    {
        let rest = mono.quotient(alloc, divisor)?;
        let image = image_of(alloc, space, m, &rest)?;
        let product = mul(alloc, space, &image, known)?;
        let coordinates = self.coords(alloc, space, &product)?;
        Ok(coordinates)
    }

    /// The coordinates of the image of the standard monomial at a place, from those of the standard
    /// monomials before it.
    fn standard_image<F: Field<Elem = E>>(
        &self,
        alloc: Global,
        space: &Space<F, BlockOrder>,
        m: &Matrix<E>,
        images: &[Poly<E>],
        place: usize,
    ) -> Result<Poly<E>, Memory>
        requires stands { StandsOver (mark_space F.field space.now) space.now.order.vars space.now.order.weights.items self.now }
        requires square { IsSquare (F.field space.now.field) space.now.order.vars m.now }
        requires within { place < length self.now.monomials }
        requires many { place ≤ length images.now }
        requires images { let S = mark_space F.field space.now in (j : ℕ) → j < place
            → IsStandardImage S space.now.order.vars (vectors_of S (λ m. m) self.now.theta) m.now (slice_index_or self.now.monomials j [])
            (slice_index_or images.now j []) }
        ensures image { let S = mark_space F.field space.now in
            IfOk result (IsStandardImage S space.now.order.vars (vectors_of S (λ m. m) self.now.theta) m.now
            (slice_index_or self.now.monomials place [])) }
    {
        let monomials = self.monomials();
        let mono = &monomials[place];
        match divisor_before(monomials, place) {
            None => {
                let image = self.direct_image(alloc, space, m, mono)?;
                Ok(image)
            }
            Some(j) => {
                let image = self.image_by_divisor(
                    alloc,
                    space,
                    m,
                    mono,
                    &monomials[j],
                    &images[j],
                )?;
                Ok(image)
            }
        }
    }

    /// The coordinates of the images of the standard monomials, in their order.
    fn standard_images<F: Field<Elem = E>>(
        &self,
        alloc: Global,
        space: &Space<F, BlockOrder>,
        m: &Matrix<E>,
    ) -> Result<Vec<Poly<E>>, Memory>
        requires stands { StandsOver (mark_space F.field space.now) space.now.order.vars space.now.order.weights.items self.now }
        requires square { IsSquare (F.field space.now.field) space.now.order.vars m.now }
        ensures images { let S = mark_space F.field space.now in
            let θ = vectors_of S (λ m. m) self.now.theta in
            IfOk result (λ ps. AreStandardImages S space.now.order.vars θ m.now self.now.monomials ps.items) }
    {
        let mut images = Vec::new(alloc);
        for i in 0..self.monomials().len() {
            let image = self.standard_image(alloc, space, m, images.as_slice(), i)?;
            images.push(image)?;
        }
        Ok(images)
    }

    /// The coordinates of the image of each standard monomial under the matrix less the monomial, in their
    /// order. Each image is made from that of the last standard monomial before it that divides it, which
    /// leaves a variable, so that no product has high powers.
    pub fn differences<F: Field<Elem = E>>(
        &self,
        alloc: Global,
        space: &Space<F, BlockOrder>,
        m: &Matrix<E>,
    ) -> Result<Vec<Poly<E>>, Memory>
        requires stands { StandsOver (mark_space F.field space.now) space.now.order.vars space.now.order.weights.items self.now }
        requires square { IsSquare (F.field space.now.field) space.now.order.vars m.now }
        ensures differences { let S = mark_space F.field space.now in
            let θ = vectors_of S (λ m. m) self.now.theta in
            IfOk result (λ ps. AreStandardDifferences S space.now.order.vars θ m.now self.now.monomials ps.items) }
    {
        let images = self.standard_images(alloc, space, m)?;
        let mut differences = Vec::new(alloc);
        for i in 0..images.len() {
            let monomial = with_marks(alloc, space, &self.monomials()[i])?;
            let difference = sub(alloc, space, &images[i], &monomial)?;
            differences.push(difference)?;
        }
        Ok(differences)
    }
}
