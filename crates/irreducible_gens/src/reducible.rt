ghost use Rattle.std.specs.Prelude.{◌≡◌, ◌<◌, ◌++◌, IfOk, IfNone, IfSome, All, length, map, remove};
ghost use Rattle.alg_core.specs.Spaces.{over, entries};
ghost use Rattle.poly_module.specs.SpaceVectors.{vectors_of, HasPolynomials};
ghost use Rattle.secondary_gens.specs.Forms.{IsPositiveForm};
ghost use Rattle.irreducible_gens.specs.Irreducibles.{AreNeeded, IsFirstReducible};

use crate::algebra::{joined, rows_in_degree};
use alg_core::{Field, Memory, Space, TermOrder};
use poly_module::Poly;
use secondary_gens::degrees::degree;
use secondary_gens::elimination::absorb;
use secondary_gens::redundance::others;
use std::alloc::Global;

/// The primary invariants, and all irreducible generators but that at the place `l`, from 0.
fn other_generators<F: Field, O: TermOrder>(
    alloc: Global,
    _space: &Space<F, O>,
    theta: &[Poly<F::Elem>],
    irr: &[Poly<F::Elem>],
    l: usize,
) -> Result<Vec<Poly<F::Elem>>, Memory>
    requires place { l < length irr.now }
    requires primaries { All (IsPositiveForm (over F.field O.order _space.now)) theta.now }
    requires irreducibles { All (IsPositiveForm (over F.field O.order _space.now)) irr.now }
    ensures positive { IfOk result (λ ps. All (IsPositiveForm (over F.field O.order _space.now)) ps.items) }
    ensures copies { let a = map (entries (λ m. m)) in IfOk result (λ ps. a ps.items ≡ a (theta.now ++ remove irr.now l)) }
{
    let others = others(alloc, irr, l)?;
    let joined = joined(alloc, theta, others.as_slice())?;
    Ok(joined)
}

/// The first place, from 1, whose member is a polynomial in the primary invariants and the other members;
/// None exactly where there is none.
pub fn first_reducible<F: Field, O: TermOrder>(
    alloc: Global,
    space: &Space<F, O>,
    theta: &[Poly<F::Elem>],
    irr: &[Poly<F::Elem>],
) -> Result<Option<u64>, Memory>
    requires polynomials { HasPolynomials (over F.field O.order space.now) }
    requires primaries { All (IsPositiveForm (over F.field O.order space.now)) theta.now }
    requires irreducibles { All (IsPositiveForm (over F.field O.order space.now)) irr.now }
    ensures none { let S = over F.field O.order space.now in let x = vectors_of S (λ m. m) in
        IfOk result (λ o. IfNone o (AreNeeded S.field (x theta.now) (x irr.now))) }
    ensures some { let S = over F.field O.order space.now in let x = vectors_of S (λ m. m) in
        IfOk result (λ o. IfSome o (IsFirstReducible S.field (x theta.now) (x irr.now))) }
{
    for l in 0..irr.len() {
        let generators = other_generators(alloc, space, theta, irr, l)?;
        let member = &irr[l];
        let d = degree(space, member);
        let mut levels = Vec::new(alloc);
        let mut rows = rows_in_degree(alloc, space, generators.as_slice(), &mut levels, d)?;
        let fresh = absorb(alloc, space, &mut rows, member)?;
        if !fresh {
            return Ok(Some(l as u64 + 1));
        }
    }
    Ok(None)
}
