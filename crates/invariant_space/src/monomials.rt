ghost use Rattle.std.specs.Prelude.{◌≡◌, ◌<◌, ℕ, suc, IfOk};
ghost use Rattle.alg_core.specs.Spaces.{over};
ghost use Rattle.poly_module.specs.SpaceVectors.{HasPolynomials};
ghost use Rattle.invariant_space.specs.Monomials.{AreSums};

use alg_core::{Field, Memory, Space, TermOrder};
use poly_module::{Poly, Vector, add, mul, one, variable};
use std::alloc::Global;

/// For 0, 1, .. variables, up to all of the space, the sum of the monomials of degree 0, which is 1.
pub(crate) fn first_sums<F: Field, O: TermOrder>(
    alloc: Global,
    space: &Space<F, O>,
) -> Result<Vec<Poly<F::Elem>>, Memory>
    requires polynomials { HasPolynomials (over F.field O.order space.now) }
    ensures sums { IfOk result (λ b. AreSums (over F.field O.order space.now) 0 b.items) }
{
    let mut sums = Vec::new(alloc);
    sums.push(one(alloc, space)?)?;
    for _variable in 0..space.grading.weights.len() {
        sums.push(one(alloc, space)?)?;
    }
    Ok(sums)
}

/// The sums of the next degree. A monomial in the first i + 1 variables is a multiple of variable i or
/// has only those before it.
pub(crate) fn next_sums<F: Field, O: TermOrder>(
    alloc: Global,
    space: &Space<F, O>,
    sums: &[Poly<F::Elem>],
) -> Result<Vec<Poly<F::Elem>>, Memory>
    requires polynomials { HasPolynomials (over F.field O.order space.now) }
    requires sums { (d : ℕ) × (d < 12288) × AreSums (over F.field O.order space.now) d sums.now }
    ensures sums { let S = over F.field O.order space.now in
        IfOk result (λ b. (d : ℕ) → AreSums S d sums.now → AreSums S (suc d) b.items) }
{
    let mut above = Vec::new(alloc);
    above.push(Vector::zero(alloc))?;
    for i in 0..space.grading.weights.len() {
        let x = variable(alloc, space, i)?;
        let multiples = mul(alloc, space, &x, &sums[i + 1])?;
        let sum = add(alloc, space, &multiples, &above[i])?;
        above.push(sum)?;
    }
    Ok(above)
}
