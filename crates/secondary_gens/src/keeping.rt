ghost use Rattle.std.specs.Prelude.{◌≡◌, ◌≤◌, All, OnOk, map};
ghost use Rattle.alg_core.specs.Spaces.{over};
ghost use Rattle.poly_module.specs.Combinations.{Over};
ghost use Rattle.poly_module.specs.Forms.{IsForm};
ghost use Rattle.poly_module.specs.SpaceVectors.{vector_of, vectors_of, ArePolys, HasPolynomials};
ghost use Rattle.poly_module.specs.Walks.{Keeps};
ghost use Rattle.secondary_gens.specs.Choices.{IsLongerBy};
ghost use Rattle.secondary_gens.specs.Columns.{AreLevels};
ghost use Rattle.secondary_gens.specs.Forms.{degrees_of, unit_weights, IsSmallForm, IsPositiveForm};

use crate::columns::{Column, columns, rows_of};
use crate::degrees::degrees;
use crate::elimination::absorb;
use alg_core::{Dp, Field, Memory, Space, TermOrder};
use poly_module::{Poly, copy};
use std::alloc::Global;

/// Keeps those candidates of degree `d`, in order, that are no combinations over the primary invariants and
/// what is kept before.
pub(crate) fn keep<F: Field, O: TermOrder>(
    alloc: Global,
    space: &Space<F, O>,
    order: &Dp,
    theta: &[Poly<F::Elem>],
    levels: &mut Vec<Vec<Column<F::Elem>>>,
    candidates: &[Poly<F::Elem>],
    d: u32,
    kept: &mut Vec<Poly<F::Elem>>,
) -> Result<(), Memory>
    requires polynomials { HasPolynomials (over F.field O.order space.now) }
    requires primaries { All (IsPositiveForm (over F.field O.order space.now)) theta.now }
    requires weights { order.now.weights.items ≡ degrees_of theta.now }
    requires degree { d ≤ 12288 }
    requires candidates { ArePolys (over F.field O.order space.now) (λ m. m) candidates.now }
    requires forms { let S = over F.field O.order space.now in
        All (λ p. IsForm S.field (unit_weights S) d (vector_of S (λ m. m) p)) candidates.now }
    requires kept { All (IsSmallForm (over F.field O.order space.now)) kept.old.items }
    requires levels { let S = over F.field O.order space.now in
        AreLevels S (vectors_of S (λ m. m) theta.now) (degrees_of theta.now) (map (λ l. l.items) levels.old.items) }
    ensures levels { let S = over F.field O.order space.now in OnOk result
        (AreLevels S (vectors_of S (λ m. m) theta.now) (degrees_of theta.now) (map (λ l. l.items) levels.new.items)) }
    ensures small { OnOk result (All (IsSmallForm (over F.field O.order space.now)) kept.new.items) }
    ensures longer { OnOk result (IsLongerBy d kept.old.items kept.new.items) }
    ensures kept { let S = over F.field O.order space.now in let x = vectors_of S (λ m. m) in OnOk result
        (Keeps (Over S.field (x theta.now)) (x kept.old.items) (x candidates.now) (x kept.new.items)) }
{
    let degrees = degrees(alloc, space, kept.as_slice())?;
    let columns = columns(
        alloc,
        space,
        order,
        theta,
        levels,
        kept.as_slice(),
        degrees.as_slice(),
        d,
    )?;
    let mut rows = rows_of(alloc, space, columns.as_slice())?;
    for i in 0..candidates.len() {
        let candidate = &candidates[i];
        let fresh = absorb(alloc, space, &mut rows, candidate)?;
        if fresh {
            let copied = copy(alloc, candidate)?;
            kept.push(copied)?;
        }
    }
    Ok(())
}
