ghost use Rattle.std.specs.Prelude.{◌≡◌, ◌≤◌, ◌<◌, ◌++◌, ℕ, All, IfOk, OnOk, length, map};
ghost use Rattle.alg_core.specs.Spaces.{over};
ghost use Rattle.poly_module.specs.Polynomials.{product};
ghost use Rattle.poly_module.specs.Sizes.{HasRoom};
ghost use Rattle.poly_module.specs.SpaceVectors.{vector_of, vectors_of, IsPoly, HasPolynomials};
ghost use Rattle.secondary_gens.specs.Forms.{degrees_of, IsSmallForm, IsPositiveForm};
ghost use Rattle.secondary_gens.specs.Columns.{AreLevels, IsColumns, key_of, keys_of};
ghost use Rattle.secondary_gens.specs.Eliminations.{IsEchelonOf, IsRowOver, lines_of};

use crate::elimination::{Row, absorb};
use crate::products::extend;
use alg_core::{Dp, Field, Memory, ModTerm, Mono, Monomial, Space, TermOrder};
use poly_module::{Poly, mul};
use std::alloc::Global;

/// A term of a combination, and its value.
#[derive(Drop)]
pub struct Column<E> {
    pub(crate) at: ModTerm<Mono>,
    pub(crate) value: Poly<E>,
}

/// Adds the products of a level of products of primary invariants with the polynomial at position `j`.
fn add_columns<F: Field, O: TermOrder>(
    alloc: Global,
    space: &Space<F, O>,
    level: &[Column<F::Elem>],
    polynomial: &Poly<F::Elem>,
    j: usize,
    columns: &mut Vec<Column<F::Elem>>,
) -> Result<(), Memory>
    requires level { All (λ c. IsPoly (over F.field O.order space.now) (λ m. m) c.value) level.now }
    requires polynomial { IsPoly (over F.field O.order space.now) (λ m. m) polynomial.now }
    requires room { All (λ c. HasRoom 4294967295 (λ m. m) c.value polynomial.now) level.now }
    requires columns { All (λ c. IsPoly (over F.field O.order space.now) (λ m. m) c.value) columns.old.items }
    ensures polynomials { OnOk result (All (λ c. IsPoly (over F.field O.order space.now) (λ m. m) c.value) columns.new.items) }
    ensures wide { OnOk result ((n : ℕ) → All (λ c. length c.at.mono ≡ n) level.now
        → All (λ c. length c.at.mono ≡ n) columns.old.items → All (λ c. length c.at.mono ≡ n) columns.new.items) }
    ensures keys { OnOk result (keys_of columns.new.items
        ≡ keys_of columns.old.items ++ map (λ c. (j, (key_of c).1)) level.now) }
    ensures values { let S = over F.field O.order space.now in let x = vector_of S (λ m. m) in
        OnOk result (map (λ c. x c.value) columns.new.items
        ≡ map (λ c. x c.value) columns.old.items ++ map (λ c. product S.field (x c.value) (x polynomial.now)) level.now) }
{
    for i in 0..level.len() {
        let product = &level[i];
        let value = mul(alloc, space, &product.value, polynomial)?;
        let mono = product.at.mono.copy(alloc)?;
        let at = ModTerm {
            pos: j as u64,
            mono,
        };
        columns.push(Column { at, value })?;
    }
    Ok(())
}

/// The terms of degree `d` of combinations over primary invariants and the polynomials, in the order in which
/// a combination is chosen, with their values. The products of primary invariants that it needs are added to
/// `levels`.
pub fn columns<F: Field, O: TermOrder>(
    alloc: Global,
    space: &Space<F, O>,
    order: &Dp,
    theta: &[Poly<F::Elem>],
    levels: &mut Vec<Vec<Column<F::Elem>>>,
    polynomials: &[Poly<F::Elem>],
    degrees: &[u32],
    d: u32,
) -> Result<Vec<Column<F::Elem>>, Memory>
    requires polynomials { HasPolynomials (over F.field O.order space.now) }
    requires primaries { All (IsPositiveForm (over F.field O.order space.now)) theta.now }
    requires forms { All (IsSmallForm (over F.field O.order space.now)) polynomials.now }
    requires weights { order.now.weights.items ≡ degrees_of theta.now }
    requires degrees { degrees.now ≡ degrees_of polynomials.now }
    requires degree { d ≤ 12288 }
    requires levels { let S = over F.field O.order space.now in
        AreLevels S (vectors_of S (λ m. m) theta.now) (degrees_of theta.now) (map (λ l. l.items) levels.old.items) }
    ensures levels { let S = over F.field O.order space.now in IfOk result (λ _.
        AreLevels S (vectors_of S (λ m. m) theta.now) (degrees_of theta.now) (map (λ l. l.items) levels.new.items)) }
    ensures columns { let S = over F.field O.order space.now in let x = vectors_of S (λ m. m) in IfOk result (λ cs.
        IsColumns S (x theta.now) (degrees_of theta.now) (x polynomials.now) (degrees_of polynomials.now) d cs.items) }
{
    extend(alloc, space, order, theta, levels, d)?;
    let mut columns = Vec::new(alloc);
    for j in 0..polynomials.len() {
        let degree = degrees[j];
        if degree <= d {
            let level = levels[(d - degree) as usize].as_slice();
            add_columns(alloc, space, level, &polynomials[j], j, &mut columns)?;
        }
    }
    Ok(columns)
}

/// The rows of the values of columns.
pub fn rows_of<F: Field, O: TermOrder>(
    alloc: Global,
    space: &Space<F, O>,
    columns: &[Column<F::Elem>],
) -> Result<Vec<Row<F::Elem>>, Memory>
    requires columns { All (λ c. IsPoly (over F.field O.order space.now) (λ m. m) c.value) columns.now }
    ensures rows { IfOk result (λ rs. All (IsRowOver (over F.field O.order space.now)) rs.items) }
    ensures echelon { let S = over F.field O.order space.now in IfOk result (λ rs.
        IsEchelonOf S.field (map (λ c. vector_of S (λ m. m) c.value) columns.now) (lines_of S rs.items)) }
{
    let mut rows = Vec::new(alloc);
    for i in 0..columns.len() {
        let column = &columns[i];
        absorb(alloc, space, &mut rows, &column.value)?;
    }
    Ok(rows)
}
