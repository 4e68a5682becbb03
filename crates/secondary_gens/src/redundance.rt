ghost use Rattle.std.specs.Prelude.{◌≡◌, ◌↔◌, ◌<◌, ◌++◌, IsTrue, All, IfOk, IfNone, IfSome, OnOk, length, map, remove};
ghost use Rattle.alg_core.specs.Spaces.{over, entries};
ghost use Rattle.poly_module.specs.Combinations.{Over};
ghost use Rattle.poly_module.specs.SpaceVectors.{vector_of, vectors_of, HasPolynomials};
ghost use Rattle.secondary_gens.specs.Columns.{AreLevels};
ghost use Rattle.secondary_gens.specs.Forms.{degrees_of, IsSmallForm, IsPositiveForm};
ghost use Rattle.secondary_gens.specs.Secondaries.{IsIrredundant, IsFirstRedundant};

use crate::columns::{Column, columns, rows_of};
use crate::degrees::{degree, degrees};
use crate::elimination::reduce;
use alg_core::{Dp, Field, Memory, Space, TermOrder};
use poly_module::{Poly, copy};
use std::alloc::Global;

/// Whether a homogeneous polynomial is a combination over primary invariants and the polynomials.
fn is_over<F: Field, O: TermOrder>(
    alloc: Global,
    space: &Space<F, O>,
    order: &Dp,
    theta: &[Poly<F::Elem>],
    levels: &mut Vec<Vec<Column<F::Elem>>>,
    polynomials: &[Poly<F::Elem>],
    f: &Poly<F::Elem>,
) -> Result<bool, Memory>
    requires constants { HasPolynomials (over F.field O.order space.now) }
    requires primaries { All (IsPositiveForm (over F.field O.order space.now)) theta.now }
    requires polynomials { All (IsSmallForm (over F.field O.order space.now)) polynomials.now }
    requires form { IsSmallForm (over F.field O.order space.now) f.now }
    requires weights { order.now.weights.items ≡ degrees_of theta.now }
    requires levels { let S = over F.field O.order space.now in
        AreLevels S (vectors_of S (λ m. m) theta.now) (degrees_of theta.now) (map (λ l. l.items) levels.old.items) }
    ensures levels { let S = over F.field O.order space.now in IfOk result (λ _.
        AreLevels S (vectors_of S (λ m. m) theta.now) (degrees_of theta.now) (map (λ l. l.items) levels.new.items)) }
    ensures exact { let S = over F.field O.order space.now in let x = vectors_of S (λ m. m) in IfOk result (λ b.
        IsTrue b ↔ Over S.field (x theta.now) (x polynomials.now) (vector_of S (λ m. m) f.now)) }
{
    let degrees = degrees(alloc, space, polynomials)?;
    let d = degree(space, f);
    let columns = columns(
        alloc,
        space,
        order,
        theta,
        levels,
        polynomials,
        degrees.as_slice(),
        d,
    )?;
    let rows = rows_of(alloc, space, columns.as_slice())?;
    let reduced = reduce(alloc, space, rows.as_slice(), f)?;
    Ok(reduced.rest.terms().is_empty())
}

/// Adds copies of polynomials.
pub fn push_copies<E: Copy>(
    alloc: Global,
    copies: &mut Vec<Poly<E>>,
    polynomials: &[Poly<E>],
) -> Result<(), Memory>
    ensures copies { let a = map (entries (λ m. m)) in OnOk result (a copies.new.items ≡ a copies.old.items ++ a polynomials.now) }
{
    for i in 0..polynomials.len() {
        copies.push(copy(alloc, &polynomials[i])?)?;
    }
    Ok(())
}

/// Copies of the polynomials but that at a place, from 0.
pub fn others<E: Copy>(
    alloc: Global,
    polynomials: &[Poly<E>],
    j: usize,
) -> Result<Vec<Poly<E>>, Memory>
    requires place { j < length polynomials.now }
    ensures copies { let a = map (entries (λ m. m)) in IfOk result (λ ps. a ps.items ≡ a (remove polynomials.now j)) }
{
    let mut others = Vec::new(alloc);
    push_copies(alloc, &mut others, &polynomials[..j])?;
    push_copies(alloc, &mut others, &polynomials[j + 1..])?;
    Ok(others)
}

/// The first place, from 1, whose member is a combination over the primary invariants and the other
/// members; None exactly where there is none. A member may be 0, which is one.
pub fn first_redundant<F: Field, O: TermOrder>(
    alloc: Global,
    space: &Space<F, O>,
    theta: &[Poly<F::Elem>],
    secs: &[Poly<F::Elem>],
) -> Result<Option<u64>, Memory>
    requires polynomials { HasPolynomials (over F.field O.order space.now) }
    requires primaries { All (IsPositiveForm (over F.field O.order space.now)) theta.now }
    requires secondaries { All (IsSmallForm (over F.field O.order space.now)) secs.now }
    ensures none { let S = over F.field O.order space.now in let x = vectors_of S (λ m. m) in
        IfOk result (λ o. IfNone o (IsIrredundant S.field (x theta.now) (x secs.now))) }
    ensures some { let S = over F.field O.order space.now in let x = vectors_of S (λ m. m) in
        IfOk result (λ o. IfSome o (λ i. IsFirstRedundant S.field (x theta.now) (x secs.now) i)) }
{
    let order = Dp {
        weights: degrees(alloc, space, theta)?,
    };
    let mut levels = Vec::new(alloc);
    for j in 0..secs.len() {
        let others = others(alloc, secs, j)?;
        if is_over(
            alloc,
            space,
            &order,
            theta,
            &mut levels,
            others.as_slice(),
            &secs[j],
        )? {
            return Ok(Some(j as u64 + 1));
        }
    }
    Ok(None)
}
