ghost use Rattle.std.specs.Prelude.{◌≡◌, ◌≢◌, ◌↔◌, ◌∷◌, [], ◌++◌, List, All, IsTrue, IsFalse, IfOk, IfNone, IfSome, OnOk, map};
ghost use Rattle.alg_core.specs.Fields.{Has, scalar, scalars};
ghost use Rattle.alg_core.specs.Keys.{key};
ghost use Rattle.alg_core.specs.Spaces.{over, place};
ghost use Rattle.alg_core.specs.Vectors.{Vect, vectors, coef_at, zero_vector, scale as times};
ghost use Rattle.poly_module.specs.Echelons.{Spans};
ghost use Rattle.poly_module.specs.Signs.{minus};
ghost use Rattle.poly_module.specs.SpaceVectors.{vector_of, IsPoly};
ghost use Rattle.secondary_gens.specs.Eliminations.{IsTriangular, IsReducedBy, IsEchelonOf, line_of, lines_of, IsRowOver};

use alg_core::{Field, Memory, ModTerm, Mono, Space, TermOrder, is_zero};
use poly_module::{Poly, add, coefficient, copy, lead, scale, sub};
use std::alloc::Global;

/// A polynomial that is 1 at the pivot; each later row is 0 there.
#[derive(Drop)]
pub struct Row<E> {
    pub(crate) pivot: ModTerm<Mono>,
    pub(crate) vector: Poly<E>,
}

/// What is left of a polynomial, which is 0 at all pivots, and the multiples of the rows that were taken away.
#[derive(Drop)]
pub(crate) struct Reduced<E> {
    pub(crate) rest: Poly<E>,
    pub(crate) factors: Vec<E>,
}

/// A polynomial less a multiple of a row.
fn less_multiple<F: Field, O: TermOrder>(
    alloc: Global,
    space: &Space<F, O>,
    v: Poly<F::Elem>,
    factor: F::Elem,
    row: &Row<F::Elem>,
) -> Result<Poly<F::Elem>, Memory>
    requires row { IsRowOver (over F.field O.order space.now) row.now }
    requires polynomial { IsPoly (over F.field O.order space.now) (λ m. m) v }
    requires factor { Has (F.field space.now.field) factor }
    ensures polynomial { IfOk result (IsPoly (over F.field O.order space.now) (λ m. m)) }
    ensures difference { let S = over F.field O.order space.now in let x = vector_of S (λ m. m) in
        IfOk result (λ w. x w ≡ minus S.field (x v) (times S.field factor (x row.now.vector))) }
{
    if is_zero(&space.field, factor) {
        return Ok(v);
    }
    let multiple = scale(alloc, space, factor, &row.vector)?;
    let left = sub(alloc, space, &v, &multiple)?;
    Ok(left)
}

/// Takes multiples of the rows away from a polynomial, in order.
pub(crate) fn reduce<F: Field, O: TermOrder>(
    alloc: Global,
    space: &Space<F, O>,
    rows: &[Row<F::Elem>],
    v: &Poly<F::Elem>,
) -> Result<Reduced<F::Elem>, Memory>
    requires rows { All (IsRowOver (over F.field O.order space.now)) rows.now }
    requires triangular { let S = over F.field O.order space.now in IsTriangular S.field (lines_of S rows.now) }
    requires polynomial { IsPoly (over F.field O.order space.now) (λ m. m) v.now }
    ensures polynomial { IfOk result (λ r. IsPoly (over F.field O.order space.now) (λ m. m) r.rest) }
    ensures factors { IfOk result (λ r. All (Has (F.field space.now.field)) r.factors.items) }
    ensures reduced { let S = over F.field O.order space.now in let x = vector_of S (λ m. m) in IfOk result (λ r.
        IsReducedBy S.field (lines_of S rows.now) (x v.now) (x r.rest) (map (scalar S.field) r.factors.items)) }
{
    let mut rest = copy(alloc, v)?;
    let mut factors = Vec::new(alloc);
    for i in 0..rows.len() {
        let row = &rows[i];
        let factor = coefficient(space, &rest, &row.pivot);
        rest = less_multiple(alloc, space, rest, factor, row)?;
        factors.push(factor)?;
    }
    Ok(Reduced { rest, factors })
}

/// The row that a polynomial gives: its multiple that is 1 at its lead, by the factor that stands beside; None
/// exactly at 0.
pub(crate) fn row_of<F: Field, O: TermOrder>(
    alloc: Global,
    space: &Space<F, O>,
    w: &Poly<F::Elem>,
) -> Result<Option<(Row<F::Elem>, F::Elem)>, Memory>
    requires polynomial { IsPoly (over F.field O.order space.now) (λ m. m) w.now }
    ensures none { let S = over F.field O.order space.now in
        IfOk result (λ o. IfNone o (vector_of S (λ m. m) w.now ≡ zero_vector S.field)) }
    ensures row { IfOk result (λ o. IfSome o (λ r. IsRowOver (over F.field O.order space.now) r.0)) }
    ensures factor { IfOk result (λ o. IfSome o (λ r. Has (F.field space.now.field) r.1)) }
    ensures multiple { let S = over F.field O.order space.now in IfOk result (λ o. IfSome o (λ r.
        vector_of S (λ m. m) r.0.vector ≡ (vectors S.field).◌·◌ (scalar S.field r.1) (vector_of S (λ m. m) w.now))) }
    ensures one { let S = over F.field O.order space.now in IfOk result (λ o. IfSome o (λ r.
        coef_at S.field (vector_of S (λ m. m) r.0.vector) (line_of S r.0).0 ≡ (scalars S.field).one)) }
{
    let Some(first) = lead(space, w) else {
        return Ok(None);
    };
    let Some(factor) = space.field.inv(first.coef) else {
        return Ok(None);
    };
    let pivot = first.at.copy(alloc)?;
    let vector = scale(alloc, space, factor, w)?;
    Ok(Some((Row { pivot, vector }, factor)))
}

/// Adds a row for a polynomial that is not in the span of the rows, and tells whether it was not.
pub fn absorb<F: Field, O: TermOrder>(
    alloc: Global,
    space: &Space<F, O>,
    rows: &mut Vec<Row<F::Elem>>,
    v: &Poly<F::Elem>,
) -> Result<bool, Memory>
    requires rows { All (IsRowOver (over F.field O.order space.now)) rows.old.items }
    requires triangular { let S = over F.field O.order space.now in IsTriangular S.field (lines_of S rows.old.items) }
    requires polynomial { IsPoly (over F.field O.order space.now) (λ m. m) v.now }
    ensures rows { OnOk result (All (IsRowOver (over F.field O.order space.now)) rows.new.items) }
    ensures new { let S = over F.field O.order space.now in IfOk result (λ b. (vs : List (Vect S.field))
        → IsEchelonOf S.field vs (lines_of S rows.old.items)
        → IsEchelonOf S.field (vs ++ vector_of S (λ m. m) v.now ∷ []) (lines_of S rows.new.items)) }
    ensures fresh { let S = over F.field O.order space.now in IfOk result (λ b. IsTrue b → (vs : List (Vect S.field))
        → IsEchelonOf S.field vs (lines_of S rows.old.items) → ¬ Spans S.field vs (vector_of S (λ m. m) v.now)) }
    ensures spanned { let S = over F.field O.order space.now in IfOk result (λ b. IsFalse b → (vs : List (Vect S.field))
        → IsEchelonOf S.field vs (lines_of S rows.old.items) → Spans S.field vs (vector_of S (λ m. m) v.now)) }
    ensures same { IfOk result (λ b. IsFalse b → rows.new.items ≡ rows.old.items) }
{
    let reduced = reduce(alloc, space, rows.as_slice(), v)?;
    match row_of(alloc, space, &reduced.rest)? {
        Some((row, _)) => {
            rows.push(row)?;
            Ok(true)
        }
        None => Ok(false),
    }
}
