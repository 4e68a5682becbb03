ghost use Rattle.std.specs.Prelude.{◌≡◌, ◌≤◌, ◌<◌, ◌+◌, ◌∷◌, ◌++◌, ℕ, All, IfSome, IfNone, IfOk, OnOk, length, map, replicate, slice_set, take, drop};
ghost use Rattle.std.specs.List.{insert};
ghost use Rattle.alg_core.specs.KeyLists.{Falls, inserted};
ghost use Rattle.alg_core.specs.Keys.{key};
ghost use Rattle.alg_core.specs.Lists.{In};
ghost use Rattle.alg_core.specs.Spaces.{over, place};
ghost use Rattle.poly_module.specs.SpaceVectors.{vectors_of, HasPolynomials};
ghost use Rattle.secondary_gens.specs.Forms.{degrees_of, IsPositiveForm};
ghost use Rattle.secondary_gens.specs.Columns.{turned, mark_order, keys_of, IsProduct, IsLevel, IsPart, AreLevels};

use crate::columns::Column;
use alg_core::{Dp, Field, Memory, ModTerm, Mono, Monomial, Space, TermOrder};
use poly_module::{Poly, mul, one};
use std::alloc::Global;
use std::cmp::Ordering;

/// The i-th of so many marks as a monomial.
fn mark(alloc: Global, marks: usize, i: usize) -> Result<Mono, Memory>
    requires mark { i < marks }
    ensures is { IfOk result (λ m. m ≡ slice_set (replicate marks 0) i 1) }
{
    let mut exponents = vec![in alloc; 0; marks]?;
    exponents[i] = 1;
    let mono = Mono::from_exps(alloc, exponents.as_slice())?;
    Ok(mono)
}

/// Where a monomial belongs among rising ones; None where it is one of theirs.
fn place_of<E>(order: &Dp, columns: &[Column<E>], at: &ModTerm<Mono>) -> Option<usize>
    requires wide { length at.now.mono ≡ length order.now.weights.items }
    requires columns { All (λ c. length c.at.mono ≡ length order.now.weights.items) columns.now }
    ensures within { IfSome result (λ j. j ≤ length columns.now) }
    ensures some { let o = turned (mark_order order.now.weights.items) in let t = key (place (λ m. m) at.now) in
        IfSome result (λ j. inserted o t (keys_of columns.now) ≡ insert (keys_of columns.now) j t) }
    ensures none { let o = turned (mark_order order.now.weights.items) in
        IfNone result (inserted o (key (place (λ m. m) at.now)) (keys_of columns.now) ≡ keys_of columns.now) }
{
    for j in 0..columns.len() {
        let column = &columns[j];
        match order.compare(&column.at, at) {
            Ordering::Less => {}
            Ordering::Equal => return None,
            Ordering::Greater => return Some(j),
        }
    }
    Some(columns.len())
}

/// Adds the products of degree `e` that have the i-th mark, each in its place: the products of the i-th
/// primary invariant and those of the degree below.
fn add_products<F: Field, O: TermOrder>(
    alloc: Global,
    space: &Space<F, O>,
    order: &Dp,
    theta: &[Poly<F::Elem>],
    levels: &[Vec<Column<F::Elem>>],
    e: usize,
    i: usize,
    level: &mut Vec<Column<F::Elem>>,
) -> Result<(), Memory>
    requires primaries { All (IsPositiveForm (over F.field O.order space.now)) theta.now }
    requires weights { order.now.weights.items ≡ degrees_of theta.now }
    requires mark { i < length theta.now }
    requires degree { e ≤ 12288 }
    requires count { e ≤ length levels.now }
    requires levels { let S = over F.field O.order space.now in
        AreLevels S (vectors_of S (λ m. m) theta.now) (degrees_of theta.now) (map (λ l. l.items) levels.now) }
    requires part { let S = over F.field O.order space.now in
        IsPart S (vectors_of S (λ m. m) theta.now) (degrees_of theta.now) e i level.old.items }
    ensures part { let S = over F.field O.order space.now in
        OnOk result (IsPart S (vectors_of S (λ m. m) theta.now) (degrees_of theta.now) e (i + 1) level.new.items) }
{
    let degree = order.weights[i] as usize;
    if degree > e {
        return Ok(());
    }
    let mark = mark(alloc, theta.len(), i)?;
    let lower = levels[e - degree].as_slice();
    for j in 0..lower.len() {
        let product = &lower[j];
        let mono = product.at.mono.product(alloc, &mark)?;
        let at = ModTerm { pos: 0, mono };
        match place_of(order, level.as_slice(), &at) {
            Some(l) => {
                let value = mul(alloc, space, &product.value, &theta[i])?;
                level.insert(l, Column { at, value })?;
            }
            None => {}
        }
    }
    Ok(())
}

/// The monomial 1, with the value 1.
fn constant<F: Field, O: TermOrder>(
    alloc: Global,
    space: &Space<F, O>,
    theta: &[Poly<F::Elem>],
) -> Result<Column<F::Elem>, Memory>
    requires polynomials { HasPolynomials (over F.field O.order space.now) }
    ensures product { let S = over F.field O.order space.now in
        IfOk result (IsProduct S (vectors_of S (λ m. m) theta.now) (degrees_of theta.now) 0) }
{
    let zeros = vec![in alloc; 0; theta.len()]?;
    let mono = Mono::from_exps(alloc, zeros.as_slice())?;
    let value = one(alloc, space)?;
    Ok(Column {
        at: ModTerm { pos: 0, mono },
        value,
    })
}

/// All products of degree `e`, where those of the lower degrees are given.
fn level<F: Field, O: TermOrder>(
    alloc: Global,
    space: &Space<F, O>,
    order: &Dp,
    theta: &[Poly<F::Elem>],
    levels: &[Vec<Column<F::Elem>>],
    e: usize,
) -> Result<Vec<Column<F::Elem>>, Memory>
    requires polynomials { HasPolynomials (over F.field O.order space.now) }
    requires primaries { All (IsPositiveForm (over F.field O.order space.now)) theta.now }
    requires weights { order.now.weights.items ≡ degrees_of theta.now }
    requires degree { e ≤ 12288 }
    requires count { e ≤ length levels.now }
    requires levels { let S = over F.field O.order space.now in
        AreLevels S (vectors_of S (λ m. m) theta.now) (degrees_of theta.now) (map (λ l. l.items) levels.now) }
    ensures level { let S = over F.field O.order space.now in
        IfOk result (λ l. IsLevel S (vectors_of S (λ m. m) theta.now) (degrees_of theta.now) e l.items) }
{
    let mut level = Vec::new(alloc);
    if e == 0 {
        level.push(constant(alloc, space, theta)?)?;
        return Ok(level);
    }
    for i in 0..theta.len() {
        add_products(alloc, space, order, theta, levels, e, i, &mut level)?;
    }
    Ok(level)
}

/// Makes the products of primary invariants up to degree `d`, where those of some degrees from 0 on are
/// made.
pub(crate) fn extend<F: Field, O: TermOrder>(
    alloc: Global,
    space: &Space<F, O>,
    order: &Dp,
    theta: &[Poly<F::Elem>],
    levels: &mut Vec<Vec<Column<F::Elem>>>,
    d: u32,
) -> Result<(), Memory>
    requires polynomials { HasPolynomials (over F.field O.order space.now) }
    requires primaries { All (IsPositiveForm (over F.field O.order space.now)) theta.now }
    requires weights { order.now.weights.items ≡ degrees_of theta.now }
    requires degree { d ≤ 12288 }
    requires levels { let S = over F.field O.order space.now in
        AreLevels S (vectors_of S (λ m. m) theta.now) (degrees_of theta.now) (map (λ l. l.items) levels.old.items) }
    ensures levels { let S = over F.field O.order space.now in OnOk result
        (AreLevels S (vectors_of S (λ m. m) theta.now) (degrees_of theta.now) (map (λ l. l.items) levels.new.items)) }
    ensures count { OnOk result (d < length levels.new.items) }
{
    for e in levels.len()..d as usize + 1 {
        let next = level(alloc, space, order, theta, levels.as_slice(), e)?;
        levels.push(next)?;
    }
    Ok(())
}
