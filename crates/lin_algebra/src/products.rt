ghost use Rattle.std.specs.Prelude.{◌≡◌, IfOk};
ghost use Rattle.alg_core.specs.Fields.{scalars};
ghost use Rattle.lin_algebra.specs.Vectors.{IsRow, vector, dot};
ghost use Rattle.lin_algebra.specs.Matrices.{IsMatrix, entries, product};

use crate::matrix::Matrix;
use crate::rows::{add_multiple, zeros};
use alg_core::{Field, Memory};
use std::alloc::Global;

/// The product of two matrices.
pub fn multiply<F: Field>(
    alloc: Global,
    field: &F,
    a: &Matrix<F::Elem>,
    b: &Matrix<F::Elem>,
) -> Result<Matrix<F::Elem>, Memory>
    requires left { IsMatrix (F.field field.now) a.now }
    requires right { IsMatrix (F.field field.now) b.now }
    requires fit { a.now.cols ≡ b.now.rows }
    ensures matrix { IfOk result (IsMatrix (F.field field.now)) }
    ensures rows { IfOk result (λ p. p.rows ≡ a.now.rows) }
    ensures cols { IfOk result (λ p. p.cols ≡ b.now.cols) }
    ensures product { let k = F.field field.now in IfOk result (λ p.
        entries k p ≡ product (scalars k) a.now.cols (entries k a.now) (entries k b.now)) }
{
    let mut cells = Vec::new(alloc);
    for i in 0..a.rows as usize {
        let row = product_row(alloc, field, a.row(i), b)?;
        cells.extend_from_slice(&row)?;
    }
    Ok(Matrix {
        rows: a.rows,
        cols: b.cols,
        cells,
    })
}

/// A row times a matrix.
fn product_row<F: Field>(
    alloc: Global,
    field: &F,
    row: &[F::Elem],
    b: &Matrix<F::Elem>,
) -> Result<Vec<F::Elem>, Memory>
    requires row { IsRow (F.field field.now) b.now.rows row.now }
    requires matrix { IsMatrix (F.field field.now) b.now }
    ensures row { IfOk result (λ r. IsRow (F.field field.now) b.now.cols r.items) }
    ensures product { let k = F.field field.now in IfOk result (λ r.
        vector k r.items ≡ (λ j. dot (scalars k) b.now.rows (vector k row.now) (λ l. entries k b.now l j))) }
{
    let mut sum = zeros(alloc, field, b.cols as usize)?;
    for l in 0..row.len() {
        add_multiple(field, &mut sum, row[l], b.row(l), 0, 0);
    }
    Ok(sum)
}
