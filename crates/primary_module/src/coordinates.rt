ghost use Rattle.std.specs.Prelude.{◌≡◌, ◌+◌, ◌++◌, ℕ, [], ◌∷◌, IfOk, All, length};
ghost use Rattle.poly_module.specs.Combinations.{mark_value};
ghost use Rattle.poly_module.specs.Degrees.{IsHomogeneous};
ghost use Rattle.poly_module.specs.Parts.{InVariables};
ghost use Rattle.poly_module.specs.Variables.{variables};
ghost use Rattle.poly_module.specs.SpaceVectors.{HasPolynomials, ArePolys, IsUpTo, vector_of, vectors_of};
ghost use Rattle.matrix_group.specs.Actions.{IsSquare, Invariant};
ghost use Rattle.finite_certificate.specs.MarkSpaces.{mark_space};
ghost use Rattle.finite_certificate.specs.StandardMonomials.{IsStandardForm, IsCoordinates};
ghost use Rattle.primary_module.specs.PrimaryModules.{IsDifference, IsLowPoly, StandsOver};

use crate::module::PrimaryModule;
use alg_core::{BlockOrder, Field, Memory, Space};
use lin_algebra::Matrix;
use matrix_group::act;
use module_groebner::divide;
use poly_module::{Poly, copy, sub, substitute, variable};
use std::alloc::Global;

/// The variables and the polynomials theta: the values of the variables and the marks.
fn images<F: Field>(
    alloc: Global,
    space: &Space<F, BlockOrder>,
    theta: &[Poly<F::Elem>],
) -> Result<Vec<Poly<F::Elem>>, Memory>
    requires polynomials { HasPolynomials (mark_space F.field space.now) }
    requires variables { length space.now.grading.weights.items ≡ space.now.order.vars + length theta.now }
    requires theta { ArePolys (mark_space F.field space.now) (λ m. m) theta.now }
    ensures polys { IfOk result (λ ps. ArePolys (mark_space F.field space.now) (λ m. m) ps.items) }
    ensures are { let S = mark_space F.field space.now in
        IfOk result (λ ps. vectors_of S (λ m. m) ps.items ≡ variables S.field space.now.order.vars ++ vectors_of S (λ m. m) theta.now) }
{
    let mut images = Vec::new(alloc);
    for i in 0..space.order.vars {
        images.push(variable(alloc, space, i as usize)?)?;
    }
    for i in 0..theta.len() {
        let member = &theta[i];
        images.push(copy(alloc, member)?)?;
    }
    Ok(images)
}

impl<E: Copy> PrimaryModule<E> {
    /// The coordinates of the value of f: the remainder of f by the lifts. They are unique, and keep
    /// degrees.
    pub fn coords<F: Field<Elem = E>>(
        &self,
        alloc: Global,
        space: &Space<F, BlockOrder>,
        f: &Poly<E>,
    ) -> Result<Poly<E>, Memory>
        requires stands { StandsOver (mark_space F.field space.now) space.now.order.vars space.now.order.weights.items self.now }
        requires f { IsLowPoly (mark_space F.field space.now) f.now }
        ensures fits { IfOk result (IsLowPoly (mark_space F.field space.now)) }
        ensures coordinates { let S = mark_space F.field space.now in let n = space.now.order.vars in
            let θ = vectors_of S (λ m. m) self.now.theta in
            IfOk result (λ u. IsCoordinates S.field n θ (mark_value S.field n θ (vector_of S (λ m. m) f.now)) (vector_of S (λ m. m) u)) }
        ensures homogeneous { let S = mark_space F.field space.now in
            IfOk result (λ u. (d : ℕ) → IsHomogeneous S d (vector_of S (λ m. m) f.now) → IsHomogeneous S d (vector_of S (λ m. m) u)) }
        ensures degrees { let S = mark_space F.field space.now in
            IfOk result (λ u. (d : ℕ) → IsUpTo S d (vector_of S (λ m. m) f.now) → IsUpTo S d (vector_of S (λ m. m) u)) }
    {
        let remainder = divide(alloc, space, f, self.lifts())?;
        Ok(remainder)
    }

    /// The value of u: each mark replaced by its polynomial. It keeps degrees, and standard forms are the
    /// coordinates of their value.
    pub fn value<F: Field<Elem = E>>(
        &self,
        alloc: Global,
        space: &Space<F, BlockOrder>,
        u: &Poly<E>,
    ) -> Result<Poly<E>, Memory>
        requires stands { StandsOver (mark_space F.field space.now) space.now.order.vars space.now.order.weights.items self.now }
        requires u { IsLowPoly (mark_space F.field space.now) u.now }
        ensures fits { IfOk result (IsLowPoly (mark_space F.field space.now)) }
        ensures variables { let S = mark_space F.field space.now in
            IfOk result (λ f. InVariables S.field space.now.order.vars (vector_of S (λ m. m) f)) }
        ensures value { let S = mark_space F.field space.now in let n = space.now.order.vars in
            let θ = vectors_of S (λ m. m) self.now.theta in
            IfOk result (λ f. vector_of S (λ m. m) f ≡ mark_value S.field n θ (vector_of S (λ m. m) u.now)) }
        ensures homogeneous { let S = mark_space F.field space.now in
            IfOk result (λ f. (d : ℕ) → IsHomogeneous S d (vector_of S (λ m. m) u.now) → IsHomogeneous S d (vector_of S (λ m. m) f)) }
        ensures degrees { let S = mark_space F.field space.now in
            IfOk result (λ f. (d : ℕ) → IsUpTo S d (vector_of S (λ m. m) u.now) → IsUpTo S d (vector_of S (λ m. m) f)) }
        ensures back { let S = mark_space F.field space.now in let n = space.now.order.vars in
            let θ = vectors_of S (λ m. m) self.now.theta in
            IfOk result (λ f. IsStandardForm S.field n θ (vector_of S (λ m. m) u.now)
            → IsCoordinates S.field n θ (vector_of S (λ m. m) f) (vector_of S (λ m. m) u.now)) }
    {
        let images = images(alloc, space, self.theta())?;
        let value = substitute(alloc, space, u, images.as_slice())?;
        Ok(value)
    }

    /// The coordinates of the image of the value of u under the matrix, less that value. The polynomials
    /// theta are invariant under the matrix.
    pub fn difference<F: Field<Elem = E>>(
        &self,
        alloc: Global,
        space: &Space<F, BlockOrder>,
        u: &Poly<E>,
        m: &Matrix<E>,
    ) -> Result<Poly<E>, Memory>
        requires stands { StandsOver (mark_space F.field space.now) space.now.order.vars space.now.order.weights.items self.now }
        requires u { IsLowPoly (mark_space F.field space.now) u.now }
        requires square { IsSquare (F.field space.now.field) space.now.order.vars m.now }
        requires invariant { let S = mark_space F.field space.now in
            All (Invariant S.field (m.now ∷ [])) (vectors_of S (λ m. m) self.now.theta) }
        ensures fits { IfOk result (IsLowPoly (mark_space F.field space.now)) }
        ensures difference { let S = mark_space F.field space.now in let n = space.now.order.vars in
            let θ = vectors_of S (λ m. m) self.now.theta in
            IfOk result (λ v. IsDifference S.field n θ m.now (mark_value S.field n θ (vector_of S (λ m. m) u.now))
            (vector_of S (λ m. m) v)) }
        ensures homogeneous { let S = mark_space F.field space.now in
            IfOk result (λ v. (d : ℕ) → IsHomogeneous S d (vector_of S (λ m. m) u.now) → IsHomogeneous S d (vector_of S (λ m. m) v)) }
    {
        let image = act(alloc, space, u, m)?;
        let moved = sub(alloc, space, &image, u)?;
        let difference = self.coords(alloc, space, &moved)?;
        Ok(difference)
    }
}
