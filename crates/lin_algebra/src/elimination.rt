ghost use Rattle.std.specs.Prelude.{◌≡◌, ◌≢◌, ℕ, ◌<◌, ◌≤◌, ◌∷◌, max, All, length, map, slice_index_or, IfOk, OnOk, vec_len};
ghost use Rattle.alg_core.specs.Fields.{Has, scalars};
ghost use Rattle.lin_algebra.specs.Vectors.{vectors, vector, IsRow};
ghost use Rattle.alg_core.specs.Spans.{SameSpan};
ghost use Rattle.lin_algebra.specs.Bases.{basis_rows, rows_of_basis, IsBasis, cleared_at, cleared, reduced_by, IsMonicMultiple, IsPutIn};

use crate::rows::{add_multiple, first_nonzero, scale};
use alg_core::{Field, Memory, is_zero};
use std::alloc::Global;

/// A row of a list in reduced echelon form, with the column of its first nonzero entry, which is 1.
#[derive(Debug, Drop)]
pub(crate) struct BasisRow<E> {
    pub pivot: usize,
    pub entries: Vec<E>,
}

/// Makes a row zero at `column` by a multiple of a row that is 1 there, and else 0 before the column
/// `from`.
fn clear_at<F: Field>(field: &F, row: &mut [F::Elem], by: &[F::Elem], column: usize, from: usize)
    requires same { length row.old ≡ length by.now }
    requires column { column < length row.old }
    requires row_has { All (Has (F.field field.now)) row.old }
    requires by_has { All (Has (F.field field.now)) by.now }
    requires before { let k = F.field field.now in (j : ℕ) → j < from → j ≢ column → vector k by.now j ≡ (scalars k).zero }
    ensures has { All (Has (F.field field.now)) row.new }
    ensures cleared { let k = F.field field.now in
        vector k row.new ≡ cleared_at (scalars k) column (vector k by.now) (vector k row.old) }
{
    let factor = field.neg(row[column]);
    if !is_zero(field, factor) {
        add_multiple(field, row, factor, by, column, from);
    }
}

/// How many rows in front have the pivots 0, 1, ..
fn front<E>(basis: &[BasisRow<E>]) -> usize
    ensures within { result ≤ length basis.now }
    ensures pivots { (i : ℕ) (d : _) → i < result → (slice_index_or basis.now i d).pivot ≡ i }
{
    for i in 0..basis.len() {
        if basis[i].pivot != i {
            return i;
        }
    }
    basis.len()
}

/// The greater of two columns.
fn greater(a: usize, b: usize) -> usize
    ensures is { result ≡ max a b }
{
    if a < b { b } else { a }
}

/// Makes a row zero at the pivots of the others. Where the pivots in front are 0, 1, .., each of these
/// is 0 in those columns but at its own pivot, and only the columns after them are gone through.
fn reduce<F: Field>(field: &F, basis: &[BasisRow<F::Elem>], row: &mut [F::Elem])
    requires basis { IsBasis (F.field field.now) (length row.old) basis.now }
    requires has { All (Has (F.field field.now)) row.old }
    ensures has { All (Has (F.field field.now)) row.new }
    ensures reduced { let k = F.field field.now in
        vector k row.new ≡ reduced_by (scalars k) (vector k row.old) (basis_rows k basis.now) }
{
    let front = front(basis);
    for old in basis {
        let from = greater(front, old.pivot);
        clear_at(field, row, &old.entries, old.pivot, from);
    }
}

/// Makes the rows zero at the pivot of a new one.
fn clear_column<F: Field>(field: &F, basis: &mut [BasisRow<F::Elem>], new: &[F::Elem], pivot: usize)
    requires column { pivot < length new.now }
    requires has { All (Has (F.field field.now)) new.now }
    requires before { let k = F.field field.now in (j : ℕ) → j < pivot → vector k new.now j ≡ (scalars k).zero }
    requires rows { All (λ e. IsRow (F.field field.now) (length new.now) e.entries.items) basis.old }
    ensures rows { All (λ e. IsRow (F.field field.now) (length new.now) e.entries.items) basis.new }
    ensures cleared { let k = F.field field.now in
        basis_rows k basis.new ≡ map (cleared (scalars k) pivot (vector k new.now)) (basis_rows k basis.old) }
{
    for i in 0..basis.len() {
        let old = &mut basis[i];
        clear_at(field, &mut old.entries, new, pivot, pivot);
    }
}

/// How many rows have a smaller pivot, where the pivots rise.
fn place<E>(basis: &[BasisRow<E>], pivot: usize) -> usize
    ensures within { result ≤ length basis.now }
    ensures before { (i : ℕ) (d : _) → i < result → (slice_index_or basis.now i d).pivot < pivot }
    ensures after { (d : _) → result < length basis.now → pivot ≤ (slice_index_or basis.now result d).pivot }
{
    for i in 0..basis.len() {
        if pivot <= basis[i].pivot {
            return i;
        }
    }
    basis.len()
}

/// Takes the multiple of a row that is 1 at `pivot`.
fn normalize<F: Field>(field: &F, row: &mut [F::Elem], pivot: usize)
    requires column { pivot < length row.old }
    requires has { All (Has (F.field field.now)) row.old }
    requires not_zero { let k = F.field field.now in slice_index_or row.old pivot k.zero ≢ k.zero }
    ensures has { All (Has (F.field field.now)) row.new }
    ensures monic { let k = F.field field.now in IsMonicMultiple (scalars k) pivot (vector k row.old) (vector k row.new) }
{
    let factor = field.inv(row[pivot]).unwrap();
    scale(field, row, factor);
}

/// Clears the column of a new row in the others, and puts it between those with smaller and greater pivots.
fn put_in<F: Field>(
    field: &F,
    basis: &mut Vec<BasisRow<F::Elem>>,
    pivot: usize,
    entries: Vec<F::Elem>,
) -> Result<(), Memory>
    requires column { pivot < vec_len entries }
    requires has { All (Has (F.field field.now)) entries.items }
    requires before { let k = F.field field.now in (j : ℕ) → j < pivot → vector k entries.items j ≡ (scalars k).zero }
    requires rows { All (λ e. IsRow (F.field field.now) (vec_len entries) e.entries.items) basis.old.items }
    requires inside { All (λ e. e.pivot < vec_len entries) basis.old.items }
    ensures rows { OnOk result (All (λ e. IsRow (F.field field.now) (vec_len entries) e.entries.items) basis.new.items) }
    ensures inside { OnOk result (All (λ e. e.pivot < vec_len entries) basis.new.items) }
    ensures put { let k = F.field field.now in OnOk result
        (IsPutIn (scalars k) pivot (vector k entries.items) (basis_rows k basis.old.items) (basis_rows k basis.new.items)) }
{
    clear_column(field, basis, &entries, pivot);
    let at = place(basis, pivot);
    basis.insert(at, BasisRow { pivot, entries })?;
    Ok(())
}

/// Adds a row to a list in reduced echelon form, unless it is a combination of its rows.
pub(crate) fn insert<F: Field>(
    field: &F,
    basis: &mut Vec<BasisRow<F::Elem>>,
    mut row: Vec<F::Elem>,
) -> Result<(), Memory>
    requires basis { IsBasis (F.field field.now) (vec_len row) basis.old.items }
    requires has { All (Has (F.field field.now)) row.items }
    ensures basis { OnOk result (IsBasis (F.field field.now) (vec_len row) basis.new.items) }
    ensures span { let k = F.field field.now in OnOk result (SameSpan (vectors (scalars k))
        (rows_of_basis k basis.new.items)
        (vector k row.items ∷ rows_of_basis k basis.old.items)) }
{
    reduce(field, basis, &mut row);
    let Some(pivot) = first_nonzero(field, &row) else {
        return Ok(());
    };
    normalize(field, &mut row, pivot);
    put_in(field, basis, pivot, row)?;
    Ok(())
}

/// The reduced echelon list of all rows.
pub(crate) fn eliminate<F: Field>(
    alloc: Global,
    field: &F,
    n: usize,
    mut rows: Vec<Vec<F::Elem>>,
) -> Result<Vec<BasisRow<F::Elem>>, Memory>
    requires rows { All (λ r. IsRow (F.field field.now) n r.items) rows.items }
    ensures basis { IfOk result (λ b. IsBasis (F.field field.now) n b.items) }
    ensures span { let k = F.field field.now in IfOk result (λ b. SameSpan (vectors (scalars k))
        (rows_of_basis k b.items) (map (λ r. vector k r.items) rows.items)) }
{
    let mut basis = Vec::new(alloc);
    while let Some(row) = rows.pop() {
        insert(field, &mut basis, row)?;
    }
    Ok(basis)
}
