ghost use Rattle.std.specs.Prelude.{◌≡◌, ℕ, ◌+◌, ◌<◌, ◌*◌, ◌↔◌, List, All, drop, length, map, IfOk, vec_len};
ghost use Rattle.std.specs.List.{zip};
ghost use Rattle.alg_core.specs.Fields.{Has, Scalar, scalars};
ghost use Rattle.lin_algebra.specs.Vectors.{IsRow, vector, vectors};
ghost use Rattle.alg_core.specs.Spans.{InSpan, SameSpan};
ghost use Rattle.lin_algebra.specs.Echelons.{IsReducedEchelon};
ghost use Rattle.lin_algebra.specs.Matrices.{IsMatrix, rows_of, vectors_of, pivot_rows, IsKernelVector};
ghost use Rattle.lin_algebra.specs.Bases.{basis_rows, rows_of_basis, IsBasis};
ghost use Rattle.lin_algebra.specs.Kernels.{particular, kernel_vector};

use crate::elimination::{BasisRow, eliminate};
use crate::matrix::{Echelon, Matrix};
use crate::rows::{add_at, scale, zeros};
use alg_core::{Field, Memory};
use std::alloc::Global;

/// The reduced row echelon form, without zero rows.
pub fn echelon<F: Field>(
    alloc: Global,
    field: &F,
    a: &Matrix<F::Elem>,
) -> Result<Echelon<F::Elem>, Memory>
    requires matrix { IsMatrix (F.field field.now) a.now }
    ensures matrix { IfOk result (λ e. IsMatrix (F.field field.now) e.matrix) }
    ensures columns { IfOk result (λ e. e.matrix.cols ≡ a.now.cols) }
    ensures pivots { IfOk result (λ e. vec_len e.pivots ≡ e.matrix.rows) }
    ensures echelon { let k = F.field field.now in
        IfOk result (λ e. IsReducedEchelon (scalars k) (pivot_rows k e)) }
    ensures span { let k = F.field field.now in IfOk result (λ e.
        SameSpan (vectors (scalars k)) (vectors_of k e.matrix) (vectors_of k a.now)) }
{
    let basis = eliminate_matrix(alloc, field, a)?;
    Ok(Echelon {
        matrix: matrix_of(alloc, 0, a.cols, &basis)?,
        pivots: pivots_of(alloc, &basis)?,
    })
}

/// The reduced echelon list of the rows of a matrix.
fn eliminate_matrix<F: Field>(
    alloc: Global,
    field: &F,
    a: &Matrix<F::Elem>,
) -> Result<Vec<BasisRow<F::Elem>>, Memory>
    requires matrix { IsMatrix (F.field field.now) a.now }
    ensures basis { IfOk result (λ b. IsBasis (F.field field.now) a.now.cols b.items) }
    ensures span { let k = F.field field.now in IfOk result (λ b.
        SameSpan (vectors (scalars k)) (rows_of_basis k b.items) (vectors_of k a.now)) }
{
    let basis = eliminate(alloc, field, a.cols as usize, a.copied_rows(alloc)?)?;
    Ok(basis)
}

/// The entries of the rows from the column `from` on, as a matrix.
pub(crate) fn matrix_of<E: Copy>(
    alloc: Global,
    from: usize,
    cols: u64,
    basis: &[BasisRow<E>],
) -> Result<Matrix<E>, Memory>
    requires rows { All (λ e. length e.entries.items ≡ from + cols) basis.now }
    ensures whole { IfOk result (λ m. length m.cells.items ≡ m.rows * m.cols) }
    ensures columns { IfOk result (λ m. m.cols ≡ cols) }
    ensures count { IfOk result (λ m. m.rows ≡ length basis.now) }
    ensures rows { IfOk result (λ m. rows_of m ≡ map (λ e. drop from e.entries.items) basis.now) }
{
    let mut cells = Vec::new(alloc);
    for row in basis {
        cells.extend_from_slice(&row.entries[from..])?;
    }
    Ok(Matrix {
        rows: basis.len() as u64,
        cols,
        cells,
    })
}

fn pivots_of<E>(alloc: Global, basis: &[BasisRow<E>]) -> Result<Vec<u64>, Memory>
    ensures pivots { IfOk result (λ ps. ps.items ≡ map (λ e. e.pivot) basis.now) }
{
    let mut pivots = Vec::new(alloc);
    for row in basis {
        pivots.push(row.pivot as u64)?;
    }
    Ok(pivots)
}

/// The kernel: the reduced echelon basis, as rows, of all vectors v with a · v = 0.
pub fn kernel<F: Field>(
    alloc: Global,
    field: &F,
    a: &Matrix<F::Elem>,
) -> Result<Matrix<F::Elem>, Memory>
    requires matrix { IsMatrix (F.field field.now) a.now }
    ensures matrix { IfOk result (IsMatrix (F.field field.now)) }
    ensures columns { IfOk result (λ b. b.cols ≡ a.now.cols) }
    ensures echelon { let k = F.field field.now in
        IfOk result (λ b. (ps : List ℕ) × (length ps ≡ b.rows) × IsReducedEchelon (scalars k) (zip ps (vectors_of k b))) }
    ensures kernel { let k = F.field field.now in IfOk result (λ b. (v : ℕ → Scalar k) →
        InSpan (vectors (scalars k)) (vectors_of k b) v ↔ IsKernelVector k a.now v) }
{
    let n = a.cols as usize;
    let basis = eliminate_matrix(alloc, field, a)?;
    let mut rows = Vec::new(alloc);
    for j in 0..n {
        rows.push(kernel_row(alloc, field, &basis, n, j)?)?;
    }
    let kernel = eliminate(alloc, field, n, rows)?;
    let matrix = matrix_of(alloc, 0, a.cols, &kernel)?;
    Ok(matrix)
}

/// The vector that is 1 at the column `j` and, at the pivot of each row, less what the row has at `j`.
fn kernel_row<F: Field>(
    alloc: Global,
    field: &F,
    basis: &[BasisRow<F::Elem>],
    n: usize,
    j: usize,
) -> Result<Vec<F::Elem>, Memory>
    requires column { j < n }
    requires basis { IsBasis (F.field field.now) n basis.now }
    ensures row { IfOk result (λ r. IsRow (F.field field.now) n r.items) }
    ensures is { let k = F.field field.now in
        IfOk result (λ r. vector k r.items ≡ kernel_vector (scalars k) j (basis_rows k basis.now)) }
{
    let mut row = particular_row(alloc, field, basis, n, j)?;
    scale(field, &mut row, field.neg(field.one()));
    add_at(field, &mut row, j, field.one());
    Ok(row)
}

/// The vector that has, at the pivot of each row, what the row has at the column `j`, and 0 elsewhere.
pub(crate) fn particular_row<F: Field>(
    alloc: Global,
    field: &F,
    basis: &[BasisRow<F::Elem>],
    n: usize,
    j: usize,
) -> Result<Vec<F::Elem>, Memory>
    requires inside { All (λ e. e.pivot < n) basis.now }
    requires columns { All (λ e. j < length e.entries.items) basis.now }
    requires has { All (λ e. All (Has (F.field field.now)) e.entries.items) basis.now }
    ensures row { IfOk result (λ r. IsRow (F.field field.now) n r.items) }
    ensures is { let k = F.field field.now in
        IfOk result (λ r. vector k r.items ≡ particular (scalars k) j (basis_rows k basis.now)) }
{
    let mut row = zeros(alloc, field, n)?;
    for old in basis {
        add_at(field, &mut row, old.pivot, old.entries[j]);
    }
    Ok(row)
}
