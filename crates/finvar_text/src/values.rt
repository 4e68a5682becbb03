//! Whether each number of a script is small enough.

ghost use Rattle.std.specs.Prelude.{◌≡◌, ◌&&◌};
ghost use Rattle.std.specs.List.{list_all};
ghost use Rattle.finvar_text.specs.Conditions.{is_small, is_small_item, is_small_matrix};
ghost use Rattle.finvar_text.specs.Trees.{entries_of, matrix_of, item_of, script_of};

use crate::syntax::{EntryText, ItemText, MatrixText, ScriptText};

/// Whether each number of the matrix is.
fn is_small_matrix(matrix: &MatrixText) -> bool
    ensures is { result ≡ is_small_matrix (matrix_of matrix.now) }
{
    matrix.rows.is_small() && matrix.cols.is_small() && are_small(matrix.entries.as_slice())
}

/// Whether each number of the entries is.
fn are_small(entries: &[EntryText]) -> bool
    ensures is { result ≡ list_all (λ e. is_small e.digits) (entries_of entries.now) }
{
    entries.iter().all(|entry| entry.number.is_small())
}

/// Whether each number of the item is.
fn is_small_item(item: &ItemText) -> bool
    ensures is { result ≡ is_small_item (item_of item.now) }
{
    match item {
        ItemText::Declared(matrix) => is_small_matrix(matrix),
        ItemText::Lib(_) | ItemText::Printed { .. } | ItemText::Called(_) => true,
    }
}

/// Whether each number of the script is.
pub(crate) fn are_numbers_small(script: &ScriptText) -> bool
    ensures is { let s = script_of script.now in result ≡ (is_small s.characteristic && list_all is_small_item s.items) }
{
    script.characteristic.is_small() && script.items.iter().all(|item| is_small_item(item))
}
