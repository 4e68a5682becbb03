ghost use Rattle.std.specs.Prelude.{◌≤◌, ◌<◌, ℕ, IfOk, All, length, map};
ghost use Rattle.alg_core.specs.SpaceGrading.{height};
ghost use Rattle.alg_core.specs.Spaces.{over};
ghost use Rattle.poly_module.specs.SpaceVectors.{vectors_of, HasPolynomials};
ghost use Rattle.secondary_gens.specs.Columns.{AreLevels};
ghost use Rattle.secondary_gens.specs.Eliminations.{IsRowOver, lines_of};
ghost use Rattle.secondary_gens.specs.Forms.{degrees_of, unit_weights, IsSmallForm, IsPositiveForm};
ghost use Rattle.irreducible_gens.specs.Algebras.{IsAlgebraEchelon};
ghost use Rattle.irreducible_gens.specs.Irreducibles.{members, IsIrreducible, AreIrreducibles};

use crate::algebra::rows_in_degree;
use alg_core::{Field, Memory, Space, TermOrder};
use poly_module::{Poly, copy};
use secondary_gens::columns::Column;
use secondary_gens::degrees::degree;
use secondary_gens::elimination::{Row, absorb};
use secondary_gens::redundance::push_copies;
use std::alloc::Global;

/// The rows of degree `e`, where those of degree `d` are given: they are made only where the degree is another.
fn rows_at<F: Field, O: TermOrder>(
    alloc: Global,
    space: &Space<F, O>,
    generators: &[Poly<F::Elem>],
    levels: &mut Vec<Vec<Column<F::Elem>>>,
    rows: Vec<Row<F::Elem>>,
    d: u32,
    e: u32,
) -> Result<Vec<Row<F::Elem>>, Memory>
    requires polynomials { HasPolynomials (over F.field O.order space.now) }
    requires generators { All (IsPositiveForm (over F.field O.order space.now)) generators.now }
    requires degree { e ≤ 12288 }
    requires levels { let S = over F.field O.order space.now in
        AreLevels S (vectors_of S (λ m. m) generators.now) (degrees_of generators.now) (map (λ l. l.items) levels.old.items) }
    requires rows { All (IsRowOver (over F.field O.order space.now)) rows.items }
    requires exact { let S = over F.field O.order space.now in
        IsAlgebraEchelon S (vectors_of S (λ m. m) generators.now) d (lines_of S rows.items) }
    ensures levels { let S = over F.field O.order space.now in IfOk result (λ _.
        AreLevels S (vectors_of S (λ m. m) generators.now) (degrees_of generators.now) (map (λ l. l.items) levels.new.items)) }
    ensures rows { IfOk result (λ rs. All (IsRowOver (over F.field O.order space.now)) rs.items) }
    ensures exact { let S = over F.field O.order space.now in
        IfOk result (λ rs. IsAlgebraEchelon S (vectors_of S (λ m. m) generators.now) e (lines_of S rs.items)) }
{
    if e == d {
        return Ok(rows);
    }
    let rows = rows_in_degree(alloc, space, generators, levels, e)?;
    Ok(rows)
}

/// The places, from 1, of the irreducible generators: of the secondary invariants, in their order, those
/// that are no polynomial in the primary invariants and the ones kept before.
/// (Derksen and Kemper, Computational Invariant Theory, section 3.6.)
pub fn choose<F: Field, O: TermOrder>(
    alloc: Global,
    space: &Space<F, O>,
    theta: &[Poly<F::Elem>],
    secs: &[Poly<F::Elem>],
) -> Result<Vec<u64>, Memory>
    requires polynomials { HasPolynomials (over F.field O.order space.now) }
    requires primaries { All (IsPositiveForm (over F.field O.order space.now)) theta.now }
    requires secondaries { All (IsSmallForm (over F.field O.order space.now)) secs.now }
    requires rise { let es = degrees_of secs.now in
        (i j : ℕ) → i ≤ j → j < length es → height es i ≤ height es j }
    ensures places { let S = over F.field O.order space.now in let x = vectors_of S (λ m. m) in
        IfOk result (λ ps. AreIrreducibles S.field (x theta.now) (x secs.now) ps.items) }
    ensures within { IfOk result (λ ps. All (λ p. (0 < p) × (p ≤ length secs.now)) ps.items) }
    ensures irreducible { let S = over F.field O.order space.now in let x = vectors_of S (λ m. m) in
        IfOk result (λ ps. IsIrreducible S.field (x theta.now) (unit_weights S) (x secs.now)
        (members S.field (x secs.now) ps.items)) }
{
    let mut generators = Vec::new(alloc);
    push_copies(alloc, &mut generators, theta)?;
    let mut places = Vec::new(alloc);
    let mut levels = Vec::new(alloc);
    let mut d = 0;
    let mut rows = rows_in_degree(alloc, space, generators.as_slice(), &mut levels, d)?;
    for i in 0..secs.len() {
        let candidate = &secs[i];
        let e = degree(space, candidate);
        rows = rows_at(alloc, space, generators.as_slice(), &mut levels, rows, d, e)?;
        d = e;
        let fresh = absorb(alloc, space, &mut rows, candidate)?;
        if fresh {
            let copied = copy(alloc, candidate)?;
            generators.push(copied)?;
            levels = Vec::new(alloc);
            places.push(i as u64 + 1)?;
        }
    }
    Ok(places)
}
