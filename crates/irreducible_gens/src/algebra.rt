ghost use Rattle.std.specs.Prelude.{◌≡◌, ◌≤◌, ◌++◌, All, IfOk, map};
ghost use Rattle.alg_core.specs.Spaces.{over, entries};
ghost use Rattle.poly_module.specs.SpaceVectors.{vectors_of, HasPolynomials};
ghost use Rattle.secondary_gens.specs.Columns.{AreLevels};
ghost use Rattle.secondary_gens.specs.Eliminations.{IsRowOver, lines_of};
ghost use Rattle.secondary_gens.specs.Forms.{degrees_of, IsPositiveForm};
ghost use Rattle.irreducible_gens.specs.Algebras.{IsAlgebraEchelon};

use alg_core::{Dp, Field, Memory, Space, TermOrder};
use poly_module::{Poly, one};
use secondary_gens::columns::{Column, columns, rows_of};
use secondary_gens::degrees::degrees;
use secondary_gens::elimination::Row;
use secondary_gens::redundance::push_copies;
use std::alloc::Global;

/// Copies of both lists of polynomials, one after the other.
pub(crate) fn joined<E: Copy>(
    alloc: Global,
    front: &[Poly<E>],
    back: &[Poly<E>],
) -> Result<Vec<Poly<E>>, Memory>
    ensures copies { let a = map (entries (λ m. m)) in IfOk result (λ ps. a ps.items ≡ a (front.now ++ back.now)) }
{
    let mut joined = Vec::new(alloc);
    push_copies(alloc, &mut joined, front)?;
    push_copies(alloc, &mut joined, back)?;
    Ok(joined)
}

/// The generators of both lists, one after the other.
pub(crate) fn all_generators<F: Field, O: TermOrder>(
    alloc: Global,
    _space: &Space<F, O>,
    front: &[Poly<F::Elem>],
    back: &[Poly<F::Elem>],
) -> Result<Vec<Poly<F::Elem>>, Memory>
    requires front { All (IsPositiveForm (over F.field O.order _space.now)) front.now }
    requires back { All (IsPositiveForm (over F.field O.order _space.now)) back.now }
    ensures positive { IfOk result (λ ps. All (IsPositiveForm (over F.field O.order _space.now)) ps.items) }
    ensures copies { let a = map (entries (λ m. m)) in IfOk result (λ ps. a ps.items ≡ a (front.now ++ back.now)) }
{
    let joined = joined(alloc, front, back)?;
    Ok(joined)
}

/// The rows of the values of all monomials of degree `d` in the generators. The products of generators that
/// they need are added to `levels`.
pub(crate) fn rows_in_degree<F: Field, O: TermOrder>(
    alloc: Global,
    space: &Space<F, O>,
    generators: &[Poly<F::Elem>],
    levels: &mut Vec<Vec<Column<F::Elem>>>,
    d: u32,
) -> Result<Vec<Row<F::Elem>>, Memory>
    requires polynomials { HasPolynomials (over F.field O.order space.now) }
    requires generators { All (IsPositiveForm (over F.field O.order space.now)) generators.now }
    requires degree { d ≤ 12288 }
    requires levels { let S = over F.field O.order space.now in
        AreLevels S (vectors_of S (λ m. m) generators.now) (degrees_of generators.now) (map (λ l. l.items) levels.old.items) }
    ensures levels { let S = over F.field O.order space.now in IfOk result (λ _.
        AreLevels S (vectors_of S (λ m. m) generators.now) (degrees_of generators.now) (map (λ l. l.items) levels.new.items)) }
    ensures rows { IfOk result (λ rs. All (IsRowOver (over F.field O.order space.now)) rs.items) }
    ensures exact { let S = over F.field O.order space.now in
        IfOk result (λ rs. IsAlgebraEchelon S (vectors_of S (λ m. m) generators.now) d (lines_of S rs.items)) }
{
    let order = Dp {
        weights: degrees(alloc, space, generators)?,
    };
    let mut unit = Vec::new(alloc);
    unit.push(one(alloc, space)?)?;
    let shifts = degrees(alloc, space, unit.as_slice())?;
    let columns = columns(
        alloc,
        space,
        &order,
        generators,
        levels,
        unit.as_slice(),
        shifts.as_slice(),
        d,
    )?;
    let rows = rows_of(alloc, space, columns.as_slice())?;
    Ok(rows)
}
