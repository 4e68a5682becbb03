//! The matrices of a script: their sizes, and which are the generators.

ghost use Rattle.std.specs.Prelude.{◌≡◌, ◌==◌, ◌≤◌, ℕ, List, length, IfOk};
ghost use Rattle.finvar_text.specs.Conditions.{value, matrices, has_size, first_misfit, the_call, select, generators};
ghost use Rattle.finvar_text.specs.Declarations.{MapsNames};
ghost use Rattle.finvar_text.specs.Syntax.{Matrix};
ghost use Rattle.finvar_text.specs.Trees.{bytes_of, word_of, items_of, matrix_of, matrices_at, call_at, script_of};

use crate::number::NumberText;
use crate::syntax::{CallText, ItemText, MatrixText, ScriptText};
use alg_core::Memory;
use std::alloc::Global;
use std::collections::HashMap;

/// The matrices that the script declares, in order.
fn declared_matrices<'b, 'a>(
    alloc: Global,
    script: &'b ScriptText<'a>,
) -> Result<Vec<&'b MatrixText<'a>>, Memory>
    ensures is { IfOk result (λ ms. matrices_at ms.items ≡ matrices (script_of script.now)) }
{
    let mut matrices = Vec::new(alloc);
    for item in script.items.as_slice() {
        match item {
            ItemText::Declared(matrix) => matrices.push(matrix)?,
            ItemText::Lib(_) | ItemText::Printed { .. } | ItemText::Called(_) => {}
        }
    }
    Ok(matrices)
}

/// Whether the number is this count.
fn is_count(number: &NumberText, count: usize) -> bool
    ensures is { result ≡ (value number.now.digits.now == count) }
{
    match number.value {
        Some(number) => number == count as u128,
        None => false,
    }
}

/// Whether the matrix has `n` rows, `n` columns and `n * n` entries.
fn has_size(n: usize, matrix: &MatrixText) -> bool
    requires small { n ≤ 8 }
    ensures is { result ≡ has_size n (matrix_of matrix.now) }
{
    is_count(&matrix.rows, n) && is_count(&matrix.cols, n) && matrix.entries.len() == n * n
}

/// The name of the first matrix of another size.
pub(crate) fn first_misfit<'a>(script: &ScriptText<'a>) -> Option<&'a [u8]>
    requires small { length script.now.variables.items ≤ 8 }
    ensures is { let s = script_of script.now in word_of result ≡ first_misfit (length s.variables) (matrices s) }
{
    let n = script.variables.len();
    for item in script.items.as_slice() {
        match item {
            ItemText::Declared(matrix) => {
                if !has_size(n, matrix) {
                    return Some(matrix.name);
                }
            }
            ItemText::Lib(_) | ItemText::Printed { .. } | ItemText::Called(_) => {}
        }
    }
    None
}

/// The call, where there is one.
fn the_call<'b, 'a>(script: &'b ScriptText<'a>) -> Option<&'b CallText<'a>>
    ensures is { call_at result ≡ the_call (items_of script.now.items.items) }
{
    for item in script.items.as_slice() {
        match item {
            ItemText::Called(call) => return Some(call),
            ItemText::Lib(_) | ItemText::Printed { .. } | ItemText::Declared(_) => {}
        }
    }
    None
}

/// The matrices of these names.
fn select<'b, 'a>(
    alloc: Global,
    by_name: &HashMap<&'a [u8], &'b MatrixText<'a>>,
    names: &[&'a [u8]],
) -> Result<Vec<&'b MatrixText<'a>>, Memory>
    ensures is { (ms : List Matrix) → MapsNames by_name.now.entries ms →
        IfOk result (λ selected. matrices_at selected.items ≡ select ms (bytes_of names.now)) }
{
    let mut selected = Vec::new(alloc);
    for name in names {
        if let Some(matrix) = by_name.get(*name) {
            selected.push(*matrix)?;
        }
    }
    Ok(selected)
}

/// The matrices that the call names, in its order; all of them where there is no call.
pub(crate) fn generators<'b, 'a>(
    alloc: Global,
    script: &'b ScriptText<'a>,
    by_name: &HashMap<&'a [u8], &'b MatrixText<'a>>,
) -> Result<Vec<&'b MatrixText<'a>>, Memory>
    requires names { MapsNames by_name.now.entries (matrices (script_of script.now)) }
    ensures is { IfOk result (λ ms. matrices_at ms.items ≡ generators (script_of script.now)) }
{
    match the_call(script) {
        Some(call) => {
            let selected = select(alloc, by_name, call.arguments.as_slice())?;
            Ok(selected)
        }
        None => {
            let matrices = declared_matrices(alloc, script)?;
            Ok(matrices)
        }
    }
}
