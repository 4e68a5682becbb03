ghost use Rattle.std.specs.Prelude.{◌≡◌, ◌<◌, ◌≤◌, ℕ, suc, List, All, IfNone, IfOk, IfSome, Some, length, slice_index_or};
ghost use Rattle.alg_core.specs.Fields.{Has, scalar};
ghost use Rattle.alg_core.specs.Keys.{Key, times_key};
ghost use Rattle.alg_core.specs.Lists.{In};
ghost use Rattle.alg_core.specs.Spaces.{over};
ghost use Rattle.alg_core.specs.Vectors.{Vect, coef_at, shift};
ghost use Rattle.poly_module.specs.MonomialVariables.{variable};
ghost use Rattle.poly_module.specs.Parts.{Supp};
ghost use Rattle.poly_module.specs.Polynomials.{product};
ghost use Rattle.poly_module.specs.SpaceVectors.{HasPolynomials};
ghost use Rattle.lin_algebra.specs.Vectors.{vector, IsRow};
ghost use Rattle.lin_algebra.specs.declared.matrix.Matrix.{Matrix};
ghost use Rattle.matrix_group.specs.Actions.{linear_form, IsSquare};
ghost use Rattle.invariant_space.specs.Equations.{coordinates};
ghost use Rattle.invariant_space.specs.Images.{IsQuotient, IsTable, IsStep, IsCoordinates, AreImages, AllImages, IsLevel};

use crate::monomials::{first_sums, next_sums};
use crate::quotients::table;
use alg_core::{Field, Memory, Space, TermOrder, is_zero};
use lin_algebra::Matrix;
use poly_module::Poly;
use std::alloc::Global;

/// The monomials of one degree and their images.
#[derive(Drop)]
pub(crate) struct Level<E> {
    /// For 0, 1, .. variables the sum of all monomials of the degree in them. The terms of the last
    /// are the monomials in all variables, in falling order.
    pub(crate) sums: Vec<Poly<E>>,
    /// For each matrix the coordinates of the images of these monomials, a row for each monomial.
    pub(crate) images: Vec<Vec<Vec<E>>>,
}

/// The coordinate at a place; 0 where there is none.
fn coordinate<F: Field>(field: &F, row: &[F::Elem], place: Option<usize>) -> F::Elem
    requires row { All (Has (F.field field.now)) row.now }
    requires within { IfSome place (λ u. u < length row.now) }
    ensures has { Has (F.field field.now) result }
    ensures multiple { let k = F.field field.now in (below : List Key) (j : ℕ) (t : Key) (f : Vect k)
        → IsQuotient below j t place → Supp k (λ v. In v below) f → vector k row.now ≡ coordinates k below f
        → scalar k result ≡ coef_at k (shift k (variable j) f) t }
{
    match place {
        Some(u) => row[u],
        None => field.zero(),
    }
}

/// The coefficient at monomial s of the product of a linear form and the polynomial with the
/// coordinates `row`. Most coefficients of a form are 0, and are passed over.
fn product_coefficient<F: Field>(
    field: &F,
    form: &[F::Elem],
    table: &[Vec<Option<usize>>],
    row: &[F::Elem],
    s: usize,
) -> F::Elem
    requires form { IsRow (F.field field.now) (length table.now) form.now }
    requires row { All (Has (F.field field.now)) row.now }
    requires table { (ts below : List Key) × IsTable ts below table.now × (s < length ts) × (length below ≡ length row.now) }
    ensures has { Has (F.field field.now) result }
    ensures coefficient { let k = F.field field.now in (ts below : List Key) (f : Vect k) (t : Key)
        → IsTable ts below table.now → s < length ts → slice_index_or ts s t ≡ t
        → Supp k (λ v. In v below) f → vector k row.now ≡ coordinates k below f
        → scalar k result ≡ coef_at k (product k (linear_form k (length form.now) (vector k form.now)) f) t }
{
    let mut sum = field.zero();
    for j in 0..table.len() {
        let coefficient = form[j];
        if is_zero(field, coefficient) {
            continue;
        }
        let quotients = &table[j];
        let value = coordinate(field, row, quotients[s]);
        sum = field.add(sum, field.mul(coefficient, value));
    }
    sum
}

/// The coordinates of the product of a linear form and the polynomial with the coordinates `row`.
fn product_row<F: Field>(
    alloc: Global,
    field: &F,
    form: &[F::Elem],
    table: &[Vec<Option<usize>>],
    row: &[F::Elem],
    count: usize,
) -> Result<Vec<F::Elem>, Memory>
    requires form { IsRow (F.field field.now) (length table.now) form.now }
    requires row { All (Has (F.field field.now)) row.now }
    requires table { (ts below : List Key) × IsTable ts below table.now × (length ts ≡ count) × (length below ≡ length row.now) }
    ensures product { let k = F.field field.now in IfOk result (λ r. (ts below : List Key) (f : Vect k)
        → IsTable ts below table.now → length ts ≡ count
        → Supp k (λ v. In v below) f → vector k row.now ≡ coordinates k below f
        → IsCoordinates k ts (product k (linear_form k (length form.now) (vector k form.now)) f) r.items) }
{
    let mut coordinates = Vec::new(alloc);
    for s in 0..count {
        coordinates.push(product_coefficient(field, form, table, row, s))?;
    }
    Ok(coordinates)
}

/// The first variable that divides monomial l, and the place of the quotient.
fn first_quotient(table: &[Vec<Option<usize>>], l: usize) -> Option<(usize, usize)>
    requires table { (ts below : List Key) × IsTable ts below table.now × (l < length ts) }
    ensures within { IfSome result (λ p. p.0 < length table.now) }
    ensures some { IfSome result (λ p. (ts below : List Key) (t : Key)
        → IsTable ts below table.now → slice_index_or ts l t ≡ t → IsQuotient below p.0 t (Some p.1)) }
    ensures none { IfNone result ((ts below : List Key) (t : Key)
        → IsTable ts below table.now → slice_index_or ts l t ≡ t
        → (j : ℕ) (v : Key) → j < length table.now → In v below → ¬ (times_key (variable j) v ≡ t)) }
{
    for j in 0..table.len() {
        let quotients = &table[j];
        match quotients[l] {
            Some(u) => return Some((j, u)),
            None => {}
        }
    }
    None
}

/// The images of the monomials under a matrix from those of the degree below: that of a variable times
/// a monomial is the product of their images.
fn next_rows<F: Field, O: TermOrder>(
    alloc: Global,
    space: &Space<F, O>,
    m: &Matrix<F::Elem>,
    table: &[Vec<Option<usize>>],
    rows: &[Vec<F::Elem>],
    count: usize,
) -> Result<Vec<Vec<F::Elem>>, Memory>
    requires square { IsSquare (F.field space.now.field) (length space.now.grading.weights.items) m.now }
    requires step { let S = over F.field O.order space.now in (d : ℕ) × (ts : List Key) × (below : List Key)
        × IsStep S d ts below table.now × (length ts ≡ count) × AreImages S.field m.now below rows.now }
    ensures images { let S = over F.field O.order space.now in IfOk result (λ r. (d : ℕ) (ts below : List Key)
        → IsStep S d ts below table.now → length ts ≡ count → AreImages S.field m.now below rows.now
        → AreImages S.field m.now ts r.items) }
{
    let mut images = Vec::new(alloc);
    for l in 0..count {
        let (variable, place) = first_quotient(table, l).unwrap();
        let form = m.row(variable);
        images.push(product_row(alloc, &space.field, form, table, &rows[place], count)?)?;
    }
    Ok(images)
}

/// The same under each matrix.
fn next_images<F: Field, O: TermOrder>(
    alloc: Global,
    space: &Space<F, O>,
    gens: &[Matrix<F::Elem>],
    table: &[Vec<Option<usize>>],
    images: &[Vec<Vec<F::Elem>>],
    count: usize,
) -> Result<Vec<Vec<Vec<F::Elem>>>, Memory>
    requires square { All (IsSquare (F.field space.now.field) (length space.now.grading.weights.items)) gens.now }
    requires step { let S = over F.field O.order space.now in (d : ℕ) × (ts : List Key) × (below : List Key)
        × IsStep S d ts below table.now × (length ts ≡ count) × AllImages S.field gens.now below images.now }
    ensures images { let S = over F.field O.order space.now in IfOk result (λ r. (d : ℕ) (ts below : List Key)
        → IsStep S d ts below table.now → length ts ≡ count → AllImages S.field gens.now below images.now
        → AllImages S.field gens.now ts r.items) }
{
    let mut next = Vec::new(alloc);
    for i in 0..gens.len() {
        next.push(next_rows(alloc, space, &gens[i], table, &images[i], count)?)?;
    }
    Ok(next)
}

/// The monomial 1, which is its own image.
fn first_level<F: Field, O: TermOrder>(
    alloc: Global,
    space: &Space<F, O>,
    gens: &[Matrix<F::Elem>],
) -> Result<Level<F::Elem>, Memory>
    requires polynomials { HasPolynomials (over F.field O.order space.now) }
    ensures level { let S = over F.field O.order space.now in IfOk result (IsLevel S gens.now 0) }
{
    let sums = first_sums(alloc, space)?;
    let mut images = Vec::new(alloc);
    for _generator in gens {
        let mut row = Vec::new(alloc);
        row.push(space.field.one())?;
        let mut rows = Vec::new(alloc);
        rows.push(row)?;
        images.push(rows)?;
    }
    Ok(Level { sums, images })
}

/// The next degree.
fn next_level<F: Field, O: TermOrder>(
    alloc: Global,
    space: &Space<F, O>,
    gens: &[Matrix<F::Elem>],
    level: &Level<F::Elem>,
) -> Result<Level<F::Elem>, Memory>
    requires polynomials { HasPolynomials (over F.field O.order space.now) }
    requires square { All (IsSquare (F.field space.now.field) (length space.now.grading.weights.items)) gens.now }
    requires level { (d : ℕ) × (d < 12288) × IsLevel (over F.field O.order space.now) gens.now d level.now }
    ensures level { let S = over F.field O.order space.now in
        IfOk result (λ b. (d : ℕ) → IsLevel S gens.now d level.now → IsLevel S gens.now (suc d) b) }
{
    let n = space.grading.weights.len();
    let sums = next_sums(alloc, space, &level.sums)?;
    let monomials = &sums[n];
    let table = table(alloc, space, monomials, &level.sums[n])?;
    let count = monomials.terms().len();
    let images = next_images(alloc, space, gens, &table, &level.images, count)?;
    Ok(Level { sums, images })
}

/// The monomials of degree `d` and their images.
pub(crate) fn level_of_degree<F: Field, O: TermOrder>(
    alloc: Global,
    space: &Space<F, O>,
    gens: &[Matrix<F::Elem>],
    d: u32,
) -> Result<Level<F::Elem>, Memory>
    requires polynomials { HasPolynomials (over F.field O.order space.now) }
    requires square { All (IsSquare (F.field space.now.field) (length space.now.grading.weights.items)) gens.now }
    requires degree { d ≤ 12288 }
    ensures level { let S = over F.field O.order space.now in IfOk result (IsLevel S gens.now d) }
{
    let mut level = first_level(alloc, space, gens)?;
    for _below in 0..d {
        level = next_level(alloc, space, gens, &level)?;
    }
    Ok(level)
}
