ghost use Rattle.std.specs.Prelude.{◌≡◌, ◌↔◌, IfOk, IsTrue, All};
ghost use Rattle.alg_core.specs.Spaces.{over};
ghost use Rattle.poly_module.specs.SpaceVectors.{vector_of, IsPoly, HasPolynomials};
ghost use Rattle.poly_module.specs.Sizes.{IsLow};
ghost use Rattle.matrix_group.specs.Actions.{act_by, Invariant, ActsOn};

use crate::action::act;
use alg_core::{Field, Memory, Space, TermOrder};
use lin_algebra::Matrix;
use poly_module::{Poly, are_equal};
use std::alloc::Global;

/// Whether f is its own image.
fn is_fixed<F: Field, O: TermOrder>(
    alloc: Global,
    space: &Space<F, O>,
    f: &Poly<F::Elem>,
    m: &Matrix<F::Elem>,
) -> Result<bool, Memory>
    requires polynomials { HasPolynomials (over F.field O.order space.now) }
    requires polynomial { IsPoly (over F.field O.order space.now) (λ a. a) f.now }
    requires matrix { ActsOn (over F.field O.order space.now) m.now }
    requires low { IsLow 4294967295 (λ a. a) f.now }
    ensures exact { let S = over F.field O.order space.now in let u = vector_of S (λ a. a) f.now in
        IfOk result (λ b. IsTrue b ↔ (act_by S.field m.now u ≡ u)) }
{
    let image = act(alloc, space, f, m)?;
    Ok(are_equal(space, &image, f))
}

/// Whether f is its own image under each of the matrices.
pub fn is_invariant<F: Field, O: TermOrder>(
    alloc: Global,
    space: &Space<F, O>,
    f: &Poly<F::Elem>,
    gens: &[Matrix<F::Elem>],
) -> Result<bool, Memory>
    requires polynomials { HasPolynomials (over F.field O.order space.now) }
    requires polynomial { IsPoly (over F.field O.order space.now) (λ a. a) f.now }
    requires matrices { All (ActsOn (over F.field O.order space.now)) gens.now }
    requires low { IsLow 4294967295 (λ a. a) f.now }
    ensures exact { let S = over F.field O.order space.now in
        IfOk result (λ b. IsTrue b ↔ Invariant S.field gens.now (vector_of S (λ a. a) f.now)) }
{
    for i in 0..gens.len() {
        let m = &gens[i];
        if !is_fixed(alloc, space, f, m)? {
            return Ok(false);
        }
    }
    Ok(true)
}
