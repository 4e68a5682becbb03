ghost use Rattle.std.specs.Prelude.{◌≡◌, ◌≤◌, List, All, IfOk, length, map};
ghost use Rattle.alg_core.specs.DpOrder.{dp_order};
ghost use Rattle.alg_core.specs.Fields.{Has, scalar};
ghost use Rattle.alg_core.specs.Keys.{key};
ghost use Rattle.alg_core.specs.Spaces.{over, place, IsPlace};
ghost use Rattle.alg_core.specs.Spans.{combine};
ghost use Rattle.alg_core.specs.Vectors.{Vect, vectors};
ghost use Rattle.poly_module.specs.Combinations.{term_value, combination_value};
ghost use Rattle.poly_module.specs.Polynomials.{single_vector};
ghost use Rattle.poly_module.specs.Signs.{minus};
ghost use Rattle.poly_module.specs.SpaceVectors.{vector_of, vectors_of, IsVector, AreVectors, IsPoly, HasPolynomials};
ghost use Rattle.secondary_gens.specs.Columns.{AreLevels, keys_of};
ghost use Rattle.secondary_gens.specs.Combined.{IsEliminated};
ghost use Rattle.secondary_gens.specs.Eliminations.{IsEchelonOf, IsTracked, IsRowOver, lines_of};
ghost use Rattle.secondary_gens.specs.Forms.{degrees_of, IsSmallForm, IsPositiveForm};
ghost use Rattle.secondary_gens.specs.PrintedCombinations.{combination_space};

use crate::columns::{Column, columns};
use crate::elimination::{Row, reduce, row_of};
use alg_core::{Dp, Field, Grading, Memory, ModTerm, Mono, Space, Term, TermOrder};
use poly_module::{Poly, Vector, add, scale, single, sub};
use std::alloc::Global;

/// The rows of an elimination, and for each the combination whose value it is.
#[derive(Drop)]
pub(crate) struct Tracked<E> {
    pub(crate) rows: Vec<Row<E>>,
    pub(crate) combinations: Vec<Poly<E>>,
}

/// The space of combinations over primary invariants and polynomials of these degrees.
pub(crate) fn marks<F: Field>(
    alloc: Global,
    field: F,
    order: Dp,
    shifts: Vec<u32>,
) -> Result<Space<F, Dp>, Memory>
    ensures space { IfOk result (λ s. over F.field (λ o. dp_order o.weights.items) s
        ≡ combination_space (F.field field) order.weights.items shifts.items) }
    ensures weights { IfOk result (λ s. s.order.weights.items ≡ order.weights.items) }
    ensures shifts { IfOk result (λ s. s.grading.shifts.items ≡ shifts.items) }
{
    let weights = Vec::from_slice(alloc, order.weights.as_slice())?;
    let grading = Grading { weights, shifts };
    Ok(Space {
        field,
        order,
        grading,
    })
}

/// The sum of the multiples of combinations by the factors.
pub(crate) fn combined<F: Field>(
    alloc: Global,
    marks: &Space<F, Dp>,
    factors: &[F::Elem],
    combinations: &[Poly<F::Elem>],
) -> Result<Poly<F::Elem>, Memory>
    requires factors { All (Has (F.field marks.now.field)) factors.now }
    requires combinations { AreVectors (over F.field (λ o. dp_order o.weights.items) marks.now) (λ m. m) combinations.now }
    requires each { length factors.now ≡ length combinations.now }
    ensures fits { IfOk result (IsVector (over F.field (λ o. dp_order o.weights.items) marks.now) (λ m. m)) }
    ensures sum { let C = over F.field (λ o. dp_order o.weights.items) marks.now in IfOk result (λ c. vector_of C (λ m. m) c
        ≡ combine (vectors C.field) (map (scalar C.field) factors.now) (vectors_of C (λ m. m) combinations.now)) }
{
    let mut sum = Vector::zero(alloc);
    for i in 0..factors.len() {
        let factor = factors[i];
        let combination = &combinations[i];
        let multiple = scale(alloc, marks, factor, combination)?;
        sum = add(alloc, marks, &sum, &multiple)?;
    }
    Ok(sum)
}

/// A term less the sum of multiples of combinations, all times a factor.
fn combination_of<F: Field>(
    alloc: Global,
    marks: &Space<F, Dp>,
    at: &ModTerm<Mono>,
    factor: F::Elem,
    factors: &[F::Elem],
    combinations: &[Poly<F::Elem>],
) -> Result<Poly<F::Elem>, Memory>
    requires place { IsPlace (over F.field (λ o. dp_order o.weights.items) marks.now) (place (λ m. m) at.now) }
    requires factor { Has (F.field marks.now.field) factor }
    requires factors { All (Has (F.field marks.now.field)) factors.now }
    requires combinations { AreVectors (over F.field (λ o. dp_order o.weights.items) marks.now) (λ m. m) combinations.now }
    requires each { length factors.now ≡ length combinations.now }
    ensures fits { IfOk result (IsVector (over F.field (λ o. dp_order o.weights.items) marks.now) (λ m. m)) }
    ensures is { let C = over F.field (λ o. dp_order o.weights.items) marks.now in let k = C.field in
        IfOk result (λ c. vector_of C (λ m. m) c ≡ (vectors k).◌·◌ (scalar k factor)
        (minus k (single_vector k (key (place (λ m. m) at.now)))
        (combine (vectors k) (map (scalar k) factors.now) (vectors_of C (λ m. m) combinations.now)))) }
{
    let taken = combined(alloc, marks, factors, combinations)?;
    let at = at.copy(alloc)?;
    let term = single(
        alloc,
        marks,
        &Term {
            coef: marks.field.one(),
            at,
        },
    )?;
    let left = sub(alloc, marks, &term, &taken)?;
    let combination = scale(alloc, marks, factor, &left)?;
    Ok(combination)
}

/// The rows of the values of columns, with their combinations.
fn eliminate<F: Field, O: TermOrder>(
    alloc: Global,
    space: &Space<F, O>,
    marks: &Space<F, Dp>,
    columns: &[Column<F::Elem>],
) -> Result<Tracked<F::Elem>, Memory>
    requires columns { All (λ c. IsPoly (over F.field O.order space.now) (λ m. m) c.value) columns.now }
    requires field { F.field marks.now.field ≡ F.field space.now.field }
    requires places { let C = over F.field (λ o. dp_order o.weights.items) marks.now in
        All (λ c. IsPlace C (place (λ m. m) c.at)) columns.now }
    ensures rows { IfOk result (λ t. All (IsRowOver (over F.field O.order space.now)) t.rows.items) }
    ensures fits { let C = over F.field (λ o. dp_order o.weights.items) marks.now in
        IfOk result (λ t. AreVectors C (λ m. m) t.combinations.items) }
    ensures each { IfOk result (λ t. length t.combinations.items ≡ length t.rows.items) }
    ensures echelon { let S = over F.field O.order space.now in IfOk result (λ t.
        IsEchelonOf S.field (map (λ c. vector_of S (λ m. m) c.value) columns.now) (lines_of S t.rows.items)) }
    ensures tracked { let S = over F.field O.order space.now in IfOk result (λ t. (θ T : List (Vect S.field))
        → map (λ c. vector_of S (λ m. m) c.value) columns.now ≡ map (term_value S.field θ T) (keys_of columns.now)
        → IsTracked S.field (term_value S.field θ T) (keys_of columns.now) (combination_value S.field θ T)
        (lines_of S t.rows.items) (vectors_of S (λ m. m) t.combinations.items)) }
{
    let mut rows = Vec::new(alloc);
    let mut combinations = Vec::new(alloc);
    for i in 0..columns.len() {
        let column = &columns[i];
        let reduced = reduce(alloc, space, rows.as_slice(), &column.value)?;
        match row_of(alloc, space, &reduced.rest)? {
            Some((row, factor)) => {
                let factors = reduced.factors.as_slice();
                let own = combination_of(alloc, marks, &column.at, factor, factors, &combinations)?;
                rows.push(row)?;
                combinations.push(own)?;
            }
            None => {}
        }
    }
    Ok(Tracked { rows, combinations })
}

/// The elimination of the terms of degree `d`. The products of primary invariants that it needs are added to
/// `levels`.
pub(crate) fn eliminate_degree<F: Field, O: TermOrder>(
    alloc: Global,
    space: &Space<F, O>,
    marks: &Space<F, Dp>,
    theta: &[Poly<F::Elem>],
    secs: &[Poly<F::Elem>],
    levels: &mut Vec<Vec<Column<F::Elem>>>,
    d: u32,
) -> Result<Tracked<F::Elem>, Memory>
    requires polynomials { HasPolynomials (over F.field O.order space.now) }
    requires primaries { All (IsPositiveForm (over F.field O.order space.now)) theta.now }
    requires secondaries { All (IsSmallForm (over F.field O.order space.now)) secs.now }
    requires degree { d ≤ 12288 }
    requires weights { marks.now.order.weights.items ≡ degrees_of theta.now }
    requires shifts { marks.now.grading.shifts.items ≡ degrees_of secs.now }
    requires marks { over F.field (λ o. dp_order o.weights.items) marks.now
        ≡ combination_space (F.field space.now.field) (degrees_of theta.now) (degrees_of secs.now) }
    requires levels { let S = over F.field O.order space.now in
        AreLevels S (vectors_of S (λ m. m) theta.now) (degrees_of theta.now) (map (λ l. l.items) levels.old.items) }
    ensures levels { let S = over F.field O.order space.now in IfOk result (λ _.
        AreLevels S (vectors_of S (λ m. m) theta.now) (degrees_of theta.now) (map (λ l. l.items) levels.new.items)) }
    ensures eliminated { IfOk result (λ t.
        IsEliminated (over F.field O.order space.now) theta.now secs.now d t.rows.items t.combinations.items) }
{
    let shifts = marks.grading.shifts.as_slice();
    let columns = columns(alloc, space, &marks.order, theta, levels, secs, shifts, d)?;
    let tracked = eliminate(alloc, space, marks, columns.as_slice())?;
    Ok(tracked)
}
