//! Matrices of values modulo p, and groups of them.

ghost use Rattle.std.specs.Prelude.{◌≡◌, ◌<◌, IfOk, All, length};
ghost use Rattle.alg_core.specs.Fields.{Has};
ghost use Rattle.lin_algebra.specs.Matrices.{IsMatrix};
ghost use Rattle.matrix_group.specs.Actions.{IsSquare};
ghost use Rattle.matrix_group.specs.Groups.{IsNonsingular, size};

use alg_core::Field;
use lin_algebra::{Matrix, inverse};
use std::alloc::Global;
use std::test::Fail;

/// The value of a number modulo p, where p is not 0.
fn residue(number: i16, p: u32) -> Option<u16> {
    let rest = u32::from(number.unsigned_abs()).checked_rem(p)?;
    let is_negative = number < 0 && rest != 0;
    let value = if is_negative {
        p.wrapping_sub(rest)
    } else {
        rest
    };
    u16::try_from(value).ok()
}

/// The values of the numbers.
pub fn values<F: Field<Elem = u16>>(
    alloc: Global,
    field: &F,
    numbers: &[i16],
) -> Result<Vec<u16>, Fail>
    ensures has { IfOk result (λ r. All (Has (F.field field.now)) r.items) }
{
    let mut values = Vec::new(alloc);
    for number in numbers {
        let Some(value) = residue(*number, field.characteristic()) else {
            return Err(Fail::new("no residue"));
        };
        if !field.has(value) {
            return Err(Fail::new("no value of the field"));
        }
        values.push(value)?;
    }
    Ok(values)
}

/// The matrix with the values of the numbers, row after row.
pub fn matrix<F: Field<Elem = u16>>(
    alloc: Global,
    field: &F,
    rows: u64,
    cols: u64,
    numbers: &[i16],
) -> Result<Matrix<u16>, Fail>
    ensures matrix { IfOk result (IsMatrix (F.field field.now)) }
    ensures rows { IfOk result (λ m. m.rows ≡ rows) }
    ensures cols { IfOk result (λ m. m.cols ≡ cols) }
{
    let cells = values(alloc, field, numbers)?;
    if rows > 100 || cols > 100 || cells.len() as u64 != rows * cols {
        return Err(Fail::new("another number of cells"));
    }
    Ok(Matrix { rows, cols, cells })
}

/// The matrix with n rows and columns, where it has an inverse.
fn invertible<F: Field<Elem = u16>>(
    alloc: Global,
    field: &F,
    n: u64,
    numbers: &[i16],
) -> Result<Matrix<u16>, Fail>
    ensures square { IfOk result (IsSquare (F.field field.now) n) }
    ensures inverse { IfOk result (IsNonsingular (F.field field.now)) }
{
    let m = matrix(alloc, field, n, n, numbers)?;
    match inverse(alloc, field, &m)? {
        Some(_) => Ok(m),
        None => Err(Fail::new("singular")),
    }
}

/// The invertible matrices with n rows and columns, of which there is at least one.
pub fn generators<F: Field<Elem = u16>>(
    alloc: Global,
    field: &F,
    n: u64,
    lists: &[&[i16]],
) -> Result<Vec<Matrix<u16>>, Fail>
    ensures some { IfOk result (λ ms. 0 < length ms.items) }
    ensures square { let k = F.field field.now in IfOk result (λ ms. All (IsSquare k n) ms.items) }
    ensures first { let k = F.field field.now in IfOk result (λ ms. All (IsSquare k (size ms.items)) ms.items) }
    ensures size { IfOk result (λ ms. size ms.items ≡ n) }
    ensures inverse { IfOk result (λ ms. All (IsNonsingular (F.field field.now)) ms.items) }
{
    let mut made = Vec::new(alloc);
    for numbers in lists {
        made.push(invertible(alloc, field, n, numbers)?)?;
    }
    if made.len() == 0 {
        return Err(Fail::new("no matrix"));
    }
    Ok(made)
}
