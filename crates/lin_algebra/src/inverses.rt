ghost use Rattle.std.specs.Prelude.{◌≡◌, ℕ, ◌<◌, length, true, IfNone, IfOk, IfSome, slice_index_or};
ghost use Rattle.alg_core.specs.Fields.{Scalar, scalars};
ghost use Rattle.lin_algebra.specs.Vectors.{IsRow, unit, vector};
ghost use Rattle.lin_algebra.specs.Matrices.{IsMatrix, IsInverse, entries};

use crate::elimination::BasisRow;
use crate::forms::matrix_of;
use crate::matrix::Matrix;
use crate::rows::{add_at, zeros};
use crate::systems::eliminate_beside;
use alg_core::{Field, Memory};
use std::alloc::Global;

/// The inverse of a square matrix; None exactly where it is singular.
pub fn inverse<F: Field>(
    alloc: Global,
    field: &F,
    a: &Matrix<F::Elem>,
) -> Result<Option<Matrix<F::Elem>>, Memory>
    requires matrix { IsMatrix (F.field field.now) a.now }
    requires square { a.now.rows ≡ a.now.cols }
    ensures singular { let k = F.field field.now in IfOk result (λ o.
        IfNone o ((b : ℕ → ℕ → Scalar k) → ¬ IsInverse (scalars k) a.now.rows (entries k a.now) b)) }
    ensures matrix { IfOk result (λ o. IfSome o (IsMatrix (F.field field.now))) }
    ensures rows { IfOk result (λ o. IfSome o (λ b. b.rows ≡ a.now.rows)) }
    ensures cols { IfOk result (λ o. IfSome o (λ b. b.cols ≡ a.now.rows)) }
    ensures inverse { let k = F.field field.now in IfOk result (λ o.
        IfSome o (λ b. IsInverse (scalars k) a.now.rows (entries k a.now) (entries k b))) }
{
    let n = a.rows as usize;
    let right = identity(alloc, field, a.rows)?;
    let basis = eliminate_beside(alloc, field, a, &right)?;
    if !has_all_pivots(&basis, n) {
        return Ok(None);
    }
    let inverse = matrix_of(alloc, n, a.rows, &basis)?;
    Ok(Some(inverse))
}

/// Whether the pivots are the columns 0 to n - 1.
fn has_all_pivots<E>(basis: &[BasisRow<E>], n: usize) -> bool
    ensures count { result ≡ true → length basis.now ≡ n }
    ensures pivots { result ≡ true → (i : ℕ) (d : _) → i < n → (slice_index_or basis.now i d).pivot ≡ i }
    ensures all { length basis.now ≡ n → ((i : ℕ) (d : _) → i < n → (slice_index_or basis.now i d).pivot ≡ i) → result ≡ true }
{
    if basis.len() != n {
        return false;
    }
    for i in 0..n {
        if basis[i].pivot != i {
            return false;
        }
    }
    true
}

/// The identity matrix of n rows.
pub fn identity<F: Field>(alloc: Global, field: &F, n: u64) -> Result<Matrix<F::Elem>, Memory>
    ensures matrix { IfOk result (IsMatrix (F.field field.now)) }
    ensures rows { IfOk result (λ m. m.rows ≡ n) }
    ensures cols { IfOk result (λ m. m.cols ≡ n) }
    ensures unit { let k = F.field field.now in
        IfOk result (λ m. (i : ℕ) → i < n → entries k m i ≡ unit (scalars k) i) }
{
    let mut cells = Vec::new(alloc);
    for i in 0..n as usize {
        let row = unit_row(alloc, field, n as usize, i)?;
        cells.extend_from_slice(&row)?;
    }
    Ok(Matrix {
        rows: n,
        cols: n,
        cells,
    })
}

/// The row of `n` entries that is 1 at the column `i` and 0 elsewhere.
fn unit_row<F: Field>(alloc: Global, field: &F, n: usize, i: usize) -> Result<Vec<F::Elem>, Memory>
    requires column { i < n }
    ensures row { IfOk result (λ r. IsRow (F.field field.now) n r.items) }
    ensures unit { let k = F.field field.now in IfOk result (λ r. vector k r.items ≡ unit (scalars k) i) }
{
    let mut row = zeros(alloc, field, n)?;
    add_at(field, &mut row, i, field.one());
    Ok(row)
}
