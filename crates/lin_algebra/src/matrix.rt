ghost use Rattle.std.specs.Prelude.{◌≡◌, ◌*◌, ◌<◌, [], length, map, slice_index_or, IfOk};

use alg_core::Memory;
use std::alloc::Global;

/// A matrix: its cells stand row after row.
#[derive(Debug, Drop, PartialEq, Eq, Hash)]
pub struct Matrix<E> {
    pub rows: u64,
    pub cols: u64,
    pub cells: Vec<E>,
}

/// A matrix in reduced row echelon form, with the column of the first nonzero entry of each row, from 0.
#[derive(Debug, Drop, PartialEq, Eq, Hash)]
pub struct Echelon<E> {
    pub matrix: Matrix<E>,
    pub pivots: Vec<u64>,
}

impl<E> Matrix<E> {
    ghost use Rattle.lin_algebra.specs.Matrices.{rows_of};

    /// The cells of a row, from 0.
    pub fn row(&self, i: usize) -> &[E]
        requires whole { length self.now.cells.items ≡ self.now.rows * self.now.cols }
        requires row { i < self.now.rows }
        ensures is { result.now ≡ slice_index_or (rows_of self.now) i [] }
        ensures count { length result.now ≡ self.now.cols }
    {
        let cols = self.cols as usize;
        &self.cells[i * cols..(i + 1) * cols]
    }
}

impl<E: Copy> Matrix<E> {
    ghost use Rattle.lin_algebra.specs.Matrices.{rows_of, joined};

    /// A copy of each row.
    pub(crate) fn copied_rows(&self, alloc: Global) -> Result<Vec<Vec<E>>, Memory>
        requires whole { length self.now.cells.items ≡ self.now.rows * self.now.cols }
        ensures rows { IfOk result (λ rs. map (λ r. r.items) rs.items ≡ rows_of self.now) }
    {
        let mut rows = Vec::new(alloc);
        for i in 0..self.rows as usize {
            rows.push(Vec::from_slice(alloc, self.row(i))?)?;
        }
        Ok(rows)
    }

    /// A copy of each row, with the row of another matrix after it.
    pub(crate) fn rows_beside(
        &self,
        alloc: Global,
        right: &Matrix<E>,
    ) -> Result<Vec<Vec<E>>, Memory>
        requires whole { length self.now.cells.items ≡ self.now.rows * self.now.cols }
        requires right_whole { length right.now.cells.items ≡ right.now.rows * right.now.cols }
        requires same { right.now.rows ≡ self.now.rows }
        ensures rows { IfOk result (λ rs. map (λ r. r.items) rs.items ≡ joined (rows_of self.now) (rows_of right.now)) }
    {
        let mut rows = Vec::new(alloc);
        for i in 0..self.rows as usize {
            let mut both = Vec::from_slice(alloc, self.row(i))?;
            let after = right.row(i);
            both.extend_from_slice(after)?;
            rows.push(both)?;
        }
        Ok(rows)
    }
}
