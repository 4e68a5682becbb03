ghost use Rattle.std.specs.Prelude.{◌≡◌, ℕ, ◌+◌, ◌^◌, ◌<◌, ◌≢◌, true, false, Any, All, map, IfNone, IfOk, IfSome};
ghost use Rattle.alg_core.specs.Fields.{Scalar, scalars};
ghost use Rattle.lin_algebra.specs.Vectors.{IsRow, vector, vectors};
ghost use Rattle.alg_core.specs.Spans.{SameSpan};
ghost use Rattle.lin_algebra.specs.Matrices.{IsMatrix, rows_of, joined, IsSolution, IsDependent};
ghost use Rattle.lin_algebra.specs.Bases.{rows_of_basis, IsBasis};

use crate::elimination::{BasisRow, eliminate};
use crate::forms::particular_row;
use crate::matrix::Matrix;
use alg_core::{Field, Memory};
use std::alloc::Global;

/// The solution of a · x = b that is 0 outside the columns of `a` that are no combination of the
/// columns before them; None exactly where there is no solution.
pub fn solve<F: Field>(
    alloc: Global,
    field: &F,
    a: &Matrix<F::Elem>,
    b: &[F::Elem],
) -> Result<Option<Vec<F::Elem>>, Memory>
    requires matrix { IsMatrix (F.field field.now) a.now }
    requires right { IsRow (F.field field.now) a.now.rows b.now }
    ensures none { let k = F.field field.now in IfOk result (λ o.
        IfNone o ((x : ℕ → Scalar k) → ¬ IsSolution k a.now (vector k b.now) x)) }
    ensures row { let k = F.field field.now in IfOk result (λ o.
        IfSome o (λ x. IsRow k a.now.cols x.items)) }
    ensures solution { let k = F.field field.now in IfOk result (λ o.
        IfSome o (λ x. IsSolution k a.now (vector k b.now) (vector k x.items))) }
    ensures first_columns { let k = F.field field.now in IfOk result (λ o.
        IfSome o (λ x. (j : ℕ) → IsDependent k a.now j → vector k x.items j ≡ (scalars k).zero)) }
{
    let n = a.cols as usize;
    // A solution has a value for each column: where one more cannot be counted, none can be stored.
    n.checked_add(1).ok_or(Memory)?;
    let right = Matrix {
        rows: a.rows,
        cols: 1,
        cells: Vec::from_slice(alloc, b)?,
    };
    let basis = eliminate_beside(alloc, field, a, &right)?;
    if has_pivot(&basis, n) {
        return Ok(None);
    }
    let solution = particular_row(alloc, field, &basis, n, n)?;
    Ok(Some(solution))
}

/// The reduced echelon list of the rows of `a`, each with the row of `right` after it.
pub(crate) fn eliminate_beside<F: Field>(
    alloc: Global,
    field: &F,
    a: &Matrix<F::Elem>,
    right: &Matrix<F::Elem>,
) -> Result<Vec<BasisRow<F::Elem>>, Memory>
    requires left { IsMatrix (F.field field.now) a.now }
    requires right { IsMatrix (F.field field.now) right.now }
    requires same { right.now.rows ≡ a.now.rows }
    requires fits { a.now.cols + right.now.cols < 2 ^ 64 }
    ensures basis { IfOk result (λ b. IsBasis (F.field field.now) (a.now.cols + right.now.cols) b.items) }
    ensures span { let k = F.field field.now in IfOk result (λ b. SameSpan (vectors (scalars k))
        (rows_of_basis k b.items) (map (vector k) (joined (rows_of a.now) (rows_of right.now)))) }
{
    let rows = a.rows_beside(alloc, right)?;
    let basis = eliminate(alloc, field, (a.cols + right.cols) as usize, rows)?;
    Ok(basis)
}

/// Whether a row has its pivot in the column.
fn has_pivot<E>(basis: &[BasisRow<E>], column: usize) -> bool
    ensures found { result ≡ true → Any (λ e. e.pivot ≡ column) basis.now }
    ensures none { result ≡ false → All (λ e. e.pivot ≢ column) basis.now }
{
    for row in basis {
        if row.pivot == column {
            return true;
        }
    }
    false
}
