ghost use Rattle.std.specs.Prelude.{◌≡◌, ◌≢◌, ℕ, ◌<◌, ◌≤◌, All, length, IfNone, IfSome, IfOk, slice_index_or};
ghost use Rattle.alg_core.specs.Fields.{Has, scalar, scalars};
ghost use Rattle.lin_algebra.specs.Vectors.{vectors, vector, unit, IsRow};

use alg_core::{Field, Memory, is_zero};
use std::alloc::Global;

/// A row of `n` zeros.
pub(crate) fn zeros<F: Field>(alloc: Global, field: &F, n: usize) -> Result<Vec<F::Elem>, Memory>
    ensures row { IfOk result (λ r. IsRow (F.field field.now) n r.items) }
    ensures zero { let k = F.field field.now in
        IfOk result (λ r. vector k r.items ≡ (vectors (scalars k)).zero) }
{
    let mut row = Vec::with_capacity(alloc, n)?;
    for _column in 0..n {
        row.push(field.zero())?;
    }
    Ok(row)
}

/// Adds `factor` times the entry of another row at `column`, if that stands before the column `from`,
/// where its other entries are 0.
fn add_before<F: Field>(
    field: &F,
    row: &mut [F::Elem],
    factor: F::Elem,
    by: &[F::Elem],
    column: usize,
    from: usize,
)
    requires same { length row.old ≡ length by.now }
    requires column { column < from → column < length row.old }
    requires before { let k = F.field field.now in (j : ℕ) → j < from → j ≢ column → vector k by.now j ≡ (scalars k).zero }
    requires factor { Has (F.field field.now) factor }
    requires row_has { All (Has (F.field field.now)) row.old }
    requires by_has { All (Has (F.field field.now)) by.now }
    ensures has { All (Has (F.field field.now)) row.new }
    ensures done { let k = F.field field.now in (j : ℕ) → j < from → slice_index_or row.new j k.zero
        ≡ k.add (slice_index_or row.old j k.zero) (k.mul factor (slice_index_or by.now j k.zero)) }
    ensures rest { let k = F.field field.now in
        (j : ℕ) → from ≤ j → slice_index_or row.new j k.zero ≡ slice_index_or row.old j k.zero }
{
    if column < from {
        row[column] = field.add(row[column], field.mul(factor, by[column]));
    }
}

/// Adds `factor` times another row, whose entries before the column `from` are 0 but at `column`.
#[inline(never)]
pub(crate) fn add_multiple<F: Field>(
    field: &F,
    row: &mut [F::Elem],
    factor: F::Elem,
    by: &[F::Elem],
    column: usize,
    from: usize,
)
    requires same { length row.old ≡ length by.now }
    requires column { column < from → column < length row.old }
    requires before { let k = F.field field.now in (j : ℕ) → j < from → j ≢ column → vector k by.now j ≡ (scalars k).zero }
    requires factor { Has (F.field field.now) factor }
    requires row_has { All (Has (F.field field.now)) row.old }
    requires by_has { All (Has (F.field field.now)) by.now }
    ensures has { All (Has (F.field field.now)) row.new }
    ensures sum { let k = F.field field.now in let X = vectors (scalars k) in
        vector k row.new ≡ X.◌+◌ (vector k row.old) (X.◌·◌ (scalar k factor) (vector k by.now)) }
{
    add_before(field, row, factor, by, column, from);
    // A field of one's own stays in registers, and the loop takes several entries at a time.
    let own = *field;
    for j in from..row.len() {
        row[j] = own.add(row[j], own.mul(factor, by[j]));
    }
}

/// Takes `factor` times the row.
pub(crate) fn scale<F: Field>(field: &F, row: &mut [F::Elem], factor: F::Elem)
    requires factor { Has (F.field field.now) factor }
    requires has { All (Has (F.field field.now)) row.old }
    ensures has { All (Has (F.field field.now)) row.new }
    ensures multiple { let k = F.field field.now in let X = vectors (scalars k) in
        vector k row.new ≡ X.◌·◌ (scalar k factor) (vector k row.old) }
{
    for j in 0..row.len() {
        row[j] = field.mul(factor, row[j]);
    }
}

/// Adds a value in one column.
pub(crate) fn add_at<F: Field>(field: &F, row: &mut [F::Elem], j: usize, a: F::Elem)
    requires column { j < length row.old }
    requires value { Has (F.field field.now) a }
    requires has { All (Has (F.field field.now)) row.old }
    ensures has { All (Has (F.field field.now)) row.new }
    ensures sum { let k = F.field field.now in let X = vectors (scalars k) in
        vector k row.new ≡ X.◌+◌ (vector k row.old) (X.◌·◌ (scalar k a) (unit (scalars k) j)) }
{
    row[j] = field.add(row[j], a);
}

/// The column of the first entry that is not zero.
pub(crate) fn first_nonzero<F: Field>(field: &F, row: &[F::Elem]) -> Option<usize>
    ensures none { let k = F.field field.now in IfNone result (All (λ a. a ≡ k.zero) row.now) }
    ensures inside { IfSome result (λ j. j < length row.now) }
    ensures there { let k = F.field field.now in
        IfSome result (λ j. slice_index_or row.now j k.zero ≢ k.zero) }
    ensures before { let k = F.field field.now in
        IfSome result (λ j. (i : ℕ) → i < j → slice_index_or row.now i k.zero ≡ k.zero) }
{
    for j in 0..row.len() {
        if !is_zero(field, row[j]) {
            return Some(j);
        }
    }
    None
}
