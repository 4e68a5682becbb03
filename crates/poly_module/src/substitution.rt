ghost use Rattle.std.specs.Prelude.{◌≡◌, ◌≤◌, ◌<◌, ◌+◌, ◌*◌, ℕ, IfOk, All, map, length, get_or};
ghost use Rattle.alg_core.specs.Spaces.{over, entries};
ghost use Rattle.poly_module.specs.Polynomials.{one_vector, vector_ring};
ghost use Rattle.poly_module.specs.Substitutions.{monomial_value, substitute};
ghost use Rattle.poly_module.specs.GreatestExponents.{total, peak, highest};
ghost use Rattle.poly_module.specs.PowerTables.{IsPowers, IsTable, Covers};
ghost use Rattle.poly_module.specs.SpaceVectors.{
  vector_of,
  vectors_of,
  IsVectorOf,
  IsPoly,
  IsPolyOf,
  ArePolys,
  HasVariables,
  HasPolynomials,
};
ghost use Rattle.poly_module.specs.Sizes.{HasRoomIn};

use crate::constructors::one;
use crate::copies::copy;
use crate::merge::add;
use crate::multiple::scale;
use crate::product::mul;
use crate::vector::{Poly, Vector};
use alg_core::{Field, Memory, Monomial, Space, Term, TermOrder};
use std::alloc::Global;
use std::marker::Model;

/// Powers of one vector, from the 0th on.
#[derive(Drop)]
pub(crate) struct Powers<E, M> {
    values: Vec<Vector<E, M>>,
}

impl<E, M> Model for Powers<E, M> {
    ghost use Rattle.std.specs.Prelude.{List};
    ghost use Rattle.alg_core.specs.declared.term.Term.{Term};

    ghost Value = { List (List (Term E M)) };

    ghost view = { λ p. p.values.items };
}

/// The powers of an image from the 0th to the last.
fn powers_of<F: Field, O: TermOrder, M: Monomial>(
    alloc: Global,
    space: &Space<F, O>,
    one: &Vector<F::Elem, M>,
    image: &Vector<F::Elem, M>,
    last: usize,
) -> Result<Powers<F::Elem, M>, Memory>
    requires one { let S = over F.field O.order space.now in IsVectorOf S M.exps (one_vector S.field) one.now }
    requires image { IsPoly (over F.field O.order space.now) M.exps image.now }
    requires small { last * peak (entries M.exps image.now) ≤ M.MAX_EXP }
    ensures powers { let S = over F.field O.order space.now in IfOk result (IsPowers S M.exps (vector_of S M.exps image.now)) }
    ensures count { IfOk result (λ p. length p ≡ last + 1) }
{
    let mut values = Vec::new(alloc);
    values.push(copy(alloc, one)?)?;
    for i in 0..last {
        let next = mul(alloc, space, image, &values[i])?;
        values.push(next)?;
    }
    Ok(Powers { values })
}

/// The greatest exponent that variable i has in f.
fn greatest_exponent<E, M: Monomial>(f: &Vector<E, M>, i: usize) -> u32
    requires within { All (λ e. i < length e.0.1) (entries M.exps f.now) }
    ensures covers { All (λ e. get_or e.0.1 i 0 ≤ result) (entries M.exps f.now) }
    ensures least { (n cap : ℕ) → All (λ e. get_or e.0.1 i 0 * n ≤ cap) (entries M.exps f.now) → result * n ≤ cap }
{
    let terms = f.terms();
    let mut greatest = 0;
    for j in 0..terms.len() {
        let t = &terms[j];
        let exponent = t.at.mono.exp(i);
        if exponent > greatest {
            greatest = exponent;
        }
    }
    greatest
}

/// For each image its powers, as far as f needs them.
fn power_table<F: Field, O: TermOrder, M: Monomial>(
    alloc: Global,
    space: &Space<F, O>,
    one: &Vector<F::Elem, M>,
    f: &Vector<F::Elem, M>,
    images: &[Vector<F::Elem, M>],
) -> Result<Vec<Powers<F::Elem, M>>, Memory>
    requires one { let S = over F.field O.order space.now in IsVectorOf S M.exps (one_vector S.field) one.now }
    requires variables { All (λ e. length e.0.1 ≡ length images.now) (entries M.exps f.now) }
    requires images { ArePolys (over F.field O.order space.now) M.exps images.now }
    requires room { HasRoomIn M.MAX_EXP M.exps f.now images.now }
    ensures table { let S = over F.field O.order space.now in IfOk result (λ t. IsTable S M.exps images.now t.items) }
    ensures covers { IfOk result (λ t. All (λ e. Covers t.items e.0.1) (entries M.exps f.now)) }
{
    let mut table = Vec::new(alloc);
    for i in 0..images.len() {
        let last = greatest_exponent(f, i) as usize;
        let image = &images[i];
        let row = powers_of(alloc, space, one, image, last)?;
        table.push(row)?;
    }
    Ok(table)
}

/// The product of the powers of the images to the exponents of a monomial.
fn value_of_monomial<F: Field, O: TermOrder, M: Monomial>(
    alloc: Global,
    space: &Space<F, O>,
    one: &Vector<F::Elem, M>,
    images: &[Vector<F::Elem, M>],
    table: &[Powers<F::Elem, M>],
    mono: &M,
) -> Result<Vector<F::Elem, M>, Memory>
    requires one { let S = over F.field O.order space.now in IsVectorOf S M.exps (one_vector S.field) one.now }
    requires images { ArePolys (over F.field O.order space.now) M.exps images.now }
    requires table { IsTable (over F.field O.order space.now) M.exps images.now table.now }
    requires covers { Covers table.now (M.exps mono.now) }
    requires variables { length (M.exps mono.now) ≡ length images.now }
    requires small { total (M.exps mono.now) * highest (map (entries M.exps) images.now) ≤ M.MAX_EXP }
    ensures value { let S = over F.field O.order space.now in let x = M.exps in
        IfOk result (IsVectorOf S x (monomial_value (vector_ring S.field) (vectors_of S x images.now) (x mono.now))) }
{
    let mut value = copy(alloc, one)?;
    let mut i = images.len();
    while i > 0 {
        i -= 1;
        let exponent = mono.exp(i) as usize;
        if exponent > 0 {
            let row = &table[i];
            let power = &row.values[exponent];
            value = mul(alloc, space, power, &value)?;
        }
    }
    Ok(value)
}

/// The sum of the values of some terms.
fn value_of_terms<F: Field, O: TermOrder, M: Monomial>(
    alloc: Global,
    space: &Space<F, O>,
    one: &Vector<F::Elem, M>,
    images: &[Vector<F::Elem, M>],
    table: &[Powers<F::Elem, M>],
    terms: &[Term<F::Elem, M>],
) -> Result<Vector<F::Elem, M>, Memory>
    requires one { let S = over F.field O.order space.now in IsVectorOf S M.exps (one_vector S.field) one.now }
    requires images { ArePolys (over F.field O.order space.now) M.exps images.now }
    requires table { IsTable (over F.field O.order space.now) M.exps images.now table.now }
    requires variables { HasVariables (F.field space.now.field) M.exps (length images.now) terms.now }
    requires covers { All (λ e. Covers table.now e.0.1) (entries M.exps terms.now) }
    requires room { HasRoomIn M.MAX_EXP M.exps terms.now images.now }
    ensures value { let S = over F.field O.order space.now in let x = M.exps in
        IfOk result (IsVectorOf S x (substitute S.field (vectors_of S x images.now) (vector_of S x terms.now))) }
{
    if terms.len() == 0 {
        return Ok(Vector::of(Vec::new(alloc)));
    }
    if terms.len() == 1 {
        let term = &terms[0];
        let monomial = value_of_monomial(alloc, space, one, images, table, &term.at.mono)?;
        let value = scale(alloc, space, term.coef, &monomial)?;
        return Ok(value);
    }
    let (front, back) = terms.split_at(terms.len() / 2);
    let left = value_of_terms(alloc, space, one, images, table, front)?;
    let right = value_of_terms(alloc, space, one, images, table, back)?;
    let sum = add(alloc, space, &left, &right)?;
    Ok(sum)
}

/// The value of f where the images stand for the variables, in order: the value at f of the
/// homomorphism that sends variable i to image i. Each power of an image is made once.
pub fn substitute<F: Field, O: TermOrder>(
    alloc: Global,
    space: &Space<F, O>,
    f: &Poly<F::Elem>,
    images: &[Poly<F::Elem>],
) -> Result<Poly<F::Elem>, Memory>
    requires variables { HasVariables (F.field space.now.field) (λ m. m) (length images.now) f.now }
    requires images { ArePolys (over F.field O.order space.now) (λ m. m) images.now }
    requires polynomials { HasPolynomials (over F.field O.order space.now) }
    requires room { HasRoomIn 4294967295 (λ m. m) f.now images.now }
    ensures value { let S = over F.field O.order space.now in
        IfOk result (IsPolyOf S (λ m. m) (substitute S.field (vectors_of S (λ m. m) images.now) (vector_of S (λ m. m) f.now))) }
{
    let one = one(alloc, space)?;
    let table = power_table(alloc, space, &one, f, images)?;
    let value = value_of_terms(alloc, space, &one, images, table.as_slice(), f.terms())?;
    Ok(value)
}
