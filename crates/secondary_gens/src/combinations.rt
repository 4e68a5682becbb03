ghost use Rattle.std.specs.Prelude.{◌≡◌, ◌≤◌, ◌<◌, All, IfOk, IfNone, IfSome, length, map, get_or};
ghost use Rattle.alg_core.specs.DpOrder.{dp_order};
ghost use Rattle.alg_core.specs.Spaces.{over};
ghost use Rattle.poly_module.specs.Combinations.{Over};
ghost use Rattle.poly_module.specs.SpaceVectors.{vector_of, vectors_of, IsVector, HasPolynomials};
ghost use Rattle.secondary_gens.specs.Columns.{AreLevels};
ghost use Rattle.secondary_gens.specs.Combined.{IsEliminated, IsCombined};
ghost use Rattle.secondary_gens.specs.Forms.{degrees_of, IsSmallForm, IsPositiveForm};
ghost use Rattle.secondary_gens.specs.Lists.{Each};
ghost use Rattle.secondary_gens.specs.PrintedCombinations.{combination_space, IsPrintedCombination};

use crate::columns::Column;
use crate::combination::{Tracked, combined, eliminate_degree, marks};
use crate::degrees::{degree, degrees};
use crate::elimination::reduce;
use alg_core::{Dp, Field, Memory, Space, TermOrder};
use poly_module::{Comb, Poly};
use std::alloc::Global;

/// The elimination of one degree.
#[derive(Drop)]
pub struct Solved<E> {
    degree: u32,
    tracked: Tracked<E>,
}

/// The place of the elimination of degree `d`; None where it is not there.
fn place_of<E>(solved: &[Solved<E>], d: u32) -> Option<usize>
    ensures within { IfSome result (λ i. i < length solved.now) }
    ensures degree { IfSome result (λ i. get_or (map (λ s. s.degree) solved.now) i 0 ≡ d) }
{
    for i in 0..solved.len() {
        let one = &solved[i];
        if one.degree == d {
            return Some(i);
        }
    }
    None
}

/// The place of the elimination of degree `d`, which is made where it is not there.
fn place_of_degree<F: Field, O: TermOrder>(
    alloc: Global,
    space: &Space<F, O>,
    marks: &Space<F, Dp>,
    theta: &[Poly<F::Elem>],
    secs: &[Poly<F::Elem>],
    levels: &mut Vec<Vec<Column<F::Elem>>>,
    solved: &mut Vec<Solved<F::Elem>>,
    d: u32,
) -> Result<usize, Memory>
    requires polynomials { HasPolynomials (over F.field O.order space.now) }
    requires primaries { All (IsPositiveForm (over F.field O.order space.now)) theta.now }
    requires secondaries { All (IsSmallForm (over F.field O.order space.now)) secs.now }
    requires degree { d ≤ 12288 }
    requires weights { marks.now.order.weights.items ≡ degrees_of theta.now }
    requires shifts { marks.now.grading.shifts.items ≡ degrees_of secs.now }
    requires marks { over F.field (λ o. dp_order o.weights.items) marks.now
        ≡ combination_space (F.field space.now.field) (degrees_of theta.now) (degrees_of secs.now) }
    requires levels { let S = over F.field O.order space.now in
        AreLevels S (vectors_of S (λ m. m) theta.now) (degrees_of theta.now) (map (λ l. l.items) levels.old.items) }
    requires solved { let S = over F.field O.order space.now in All
        (λ s. IsEliminated S theta.now secs.now s.degree s.tracked.rows.items s.tracked.combinations.items) solved.old.items }
    ensures levels { let S = over F.field O.order space.now in IfOk result (λ _.
        AreLevels S (vectors_of S (λ m. m) theta.now) (degrees_of theta.now) (map (λ l. l.items) levels.new.items)) }
    ensures solved { let S = over F.field O.order space.now in IfOk result (λ _. All
        (λ s. IsEliminated S theta.now secs.now s.degree s.tracked.rows.items s.tracked.combinations.items) solved.new.items) }
    ensures within { IfOk result (λ i. i < length solved.new.items) }
    ensures degree { IfOk result (λ i. get_or (map (λ s. s.degree) solved.new.items) i 0 ≡ d) }
{
    match place_of(solved.as_slice(), d) {
        Some(i) => Ok(i),
        None => {
            let tracked = eliminate_degree(alloc, space, marks, theta, secs, levels, d)?;
            let place = solved.len();
            solved.push(Solved { degree: d, tracked })?;
            Ok(place)
        }
    }
}

/// The combination that is printed for f, by the elimination of its degree, which is made where it is not there.
/// `marks` is the space of combinations; `levels` and `solved` are empty at first, and are for one list of
/// secondary invariants.
pub fn combination<F: Field, O: TermOrder>(
    alloc: Global,
    space: &Space<F, O>,
    marks: &Space<F, Dp>,
    theta: &[Poly<F::Elem>],
    secs: &[Poly<F::Elem>],
    levels: &mut Vec<Vec<Column<F::Elem>>>,
    solved: &mut Vec<Solved<F::Elem>>,
    f: &Poly<F::Elem>,
) -> Result<Option<Comb<F::Elem>>, Memory>
    requires polynomials { HasPolynomials (over F.field O.order space.now) }
    requires primaries { All (IsPositiveForm (over F.field O.order space.now)) theta.now }
    requires secondaries { All (IsSmallForm (over F.field O.order space.now)) secs.now }
    requires form { IsSmallForm (over F.field O.order space.now) f.now }
    requires weights { marks.now.order.weights.items ≡ degrees_of theta.now }
    requires shifts { marks.now.grading.shifts.items ≡ degrees_of secs.now }
    requires marks { over F.field (λ o. dp_order o.weights.items) marks.now
        ≡ combination_space (F.field space.now.field) (degrees_of theta.now) (degrees_of secs.now) }
    requires levels { let S = over F.field O.order space.now in
        AreLevels S (vectors_of S (λ m. m) theta.now) (degrees_of theta.now) (map (λ l. l.items) levels.old.items) }
    requires solved { let S = over F.field O.order space.now in All
        (λ s. IsEliminated S theta.now secs.now s.degree s.tracked.rows.items s.tracked.combinations.items) solved.old.items }
    ensures levels { let S = over F.field O.order space.now in IfOk result (λ _.
        AreLevels S (vectors_of S (λ m. m) theta.now) (degrees_of theta.now) (map (λ l. l.items) levels.new.items)) }
    ensures solved { let S = over F.field O.order space.now in IfOk result (λ _. All
        (λ s. IsEliminated S theta.now secs.now s.degree s.tracked.rows.items s.tracked.combinations.items) solved.new.items) }
    ensures combined { IfOk result (IsCombined (over F.field O.order space.now) theta.now secs.now f.now) }
{
    let d = degree(space, f);
    let place = place_of_degree(alloc, space, marks, theta, secs, levels, solved, d)?;
    let one = &solved[place];
    let reduced = reduce(alloc, space, one.tracked.rows.as_slice(), f)?;
    if !reduced.rest.terms().is_empty() {
        return Ok(None);
    }
    let factors = reduced.factors.as_slice();
    let vector = combined(alloc, marks, factors, one.tracked.combinations.as_slice())?;
    Ok(Some(Comb { vector }))
}

/// The combinations that are printed for the polynomials of a list, as `combine` gives them: None exactly where
/// a polynomial is no combination over the primary and the secondary invariants. One elimination serves all
/// that have the same degree.
pub fn combine_all<F: Field, O: TermOrder>(
    alloc: Global,
    space: &Space<F, O>,
    theta: &[Poly<F::Elem>],
    secs: &[Poly<F::Elem>],
    fs: &[Poly<F::Elem>],
) -> Result<Vec<Option<Comb<F::Elem>>>, Memory>
    requires polynomials { HasPolynomials (over F.field O.order space.now) }
    requires primaries { All (IsPositiveForm (over F.field O.order space.now)) theta.now }
    requires secondaries { All (IsSmallForm (over F.field O.order space.now)) secs.now }
    requires forms { All (IsSmallForm (over F.field O.order space.now)) fs.now }
    ensures each { IfOk result (λ cs. Each (IsCombined (over F.field O.order space.now) theta.now secs.now) fs.now cs.items) }
{
    let order = Dp {
        weights: degrees(alloc, space, theta)?,
    };
    let shifts = degrees(alloc, space, secs)?;
    let marks = marks(alloc, space.field, order, shifts)?;
    let mut levels = Vec::new(alloc);
    let mut solved = Vec::new(alloc);
    let mut combinations = Vec::new(alloc);
    for i in 0..fs.len() {
        let f = &fs[i];
        let one = combination(
            alloc,
            space,
            &marks,
            theta,
            secs,
            &mut levels,
            &mut solved,
            f,
        )?;
        combinations.push(one)?;
    }
    Ok(combinations)
}

/// The combination that is printed for f: of all whose value is f the one in which no term has a value in the
/// span of the values of the terms of its degree before it. Terms stand by rising position, those at one
/// position by rising monomial. None exactly where f is no combination over the primary and the
/// secondary invariants.
pub fn combine<F: Field, O: TermOrder>(
    alloc: Global,
    space: &Space<F, O>,
    theta: &[Poly<F::Elem>],
    secs: &[Poly<F::Elem>],
    f: &Poly<F::Elem>,
) -> Result<Option<Comb<F::Elem>>, Memory>
    requires polynomials { HasPolynomials (over F.field O.order space.now) }
    requires primaries { All (IsPositiveForm (over F.field O.order space.now)) theta.now }
    requires secondaries { All (IsSmallForm (over F.field O.order space.now)) secs.now }
    requires form { IsSmallForm (over F.field O.order space.now) f.now }
    ensures none { let S = over F.field O.order space.now in let x = vectors_of S (λ m. m) in
        IfOk result (λ o. IfNone o (¬ Over S.field (x theta.now) (x secs.now) (vector_of S (λ m. m) f.now))) }
    ensures fits { let C = combination_space (F.field space.now.field) (degrees_of theta.now) (degrees_of secs.now) in
        IfOk result (λ o. IfSome o (λ c. IsVector C (λ m. m) c.vector)) }
    ensures printed { let S = over F.field O.order space.now in let x = vectors_of S (λ m. m) in
        IfOk result (λ o. IfSome o (λ c. IsPrintedCombination S.field (degrees_of theta.now) (degrees_of secs.now)
        (x theta.now) (x secs.now) (vector_of S (λ m. m) f.now) (vector_of S (λ m. m) c.vector))) }
{
    let order = Dp {
        weights: degrees(alloc, space, theta)?,
    };
    let shifts = degrees(alloc, space, secs)?;
    let marks = marks(alloc, space.field, order, shifts)?;
    let mut levels = Vec::new(alloc);
    let mut solved = Vec::new(alloc);
    let combined = combination(
        alloc,
        space,
        &marks,
        theta,
        secs,
        &mut levels,
        &mut solved,
        f,
    )?;
    Ok(combined)
}
