//! The generators: their entries modulo the characteristic, and their inverses.

ghost use Rattle.std.specs.Prelude.{◌≡◌, ◌*◌, ◌<◌, ◌^◌, true, length, map, All, IfOk, IfErr, IfNone, IfSome, None};
ghost use Rattle.lin_algebra.specs.Matrices.{IsMatrix};
ghost use Rattle.finvar_text.specs.Conditions.{is_small, residue, cells, FirstSingular, IsNonsingularModulo};
ghost use Rattle.finvar_text.specs.Scripts.{generator, sized_cells, IsFitting, IsInvertible, IsSingularFault};
ghost use Rattle.finvar_text.specs.Trees.{entry_of, entries_of, matrix_of, matrices_at};

use crate::fault::ScriptFault;
use crate::syntax::{EntryText, MatrixText};
use alg_core::{Field, InputFault, Memory, Name};
use lin_algebra::{Matrix, inverse};
use prime_field::PrimeField;
use std::alloc::Global;

/// The class of the entry modulo `p`.
fn residue(p: u32, entry: &EntryText) -> u16
    requires positive { 0 < p }
    requires narrow { p < 2 ^ 16 }
    requires small { is_small (entry_of entry.now).digits ≡ true }
    ensures is { result ≡ residue p (entry_of entry.now) }
{
    let number = (entry.number.get() % u128::from(p)) as u32;
    if entry.is_negative {
        ((p - number) % p) as u16
    } else {
        number as u16
    }
}

/// The classes of the entries modulo `p`.
fn residues(alloc: Global, p: u32, entries: &[EntryText]) -> Result<Vec<u16>, Memory>
    requires positive { 0 < p }
    requires narrow { p < 2 ^ 16 }
    requires small { All (λ e. is_small e.digits ≡ true) (entries_of entries.now) }
    ensures is { IfOk result (λ v. v.items ≡ map (residue p) (entries_of entries.now)) }
{
    let mut residues = Vec::new(alloc);
    for entry in entries {
        residues.push(residue(p, entry))?;
    }
    Ok(residues)
}

/// The matrix over the field.
fn matrix_over(
    alloc: Global,
    field: &PrimeField,
    n: u64,
    matrix: &MatrixText,
) -> Result<Matrix<u16>, Memory>
    requires fitting { IsFitting n (matrix_of matrix.now) }
    ensures is { let k = ⟦<PrimeField as Field>⟧.field field.now in
        IfOk result (λ g. sized_cells g ≡ generator k.characteristic n (matrix_of matrix.now)) }
    ensures matrix { IfOk result (IsMatrix (⟦<PrimeField as Field>⟧.field field.now)) }
{
    let cells = residues(alloc, field.characteristic(), matrix.entries.as_slice())?;
    Ok(Matrix {
        rows: n,
        cols: n,
        cells,
    })
}

/// The matrix over the field, where it has an inverse.
fn invertible_over(
    alloc: Global,
    field: &PrimeField,
    n: u64,
    matrix: &MatrixText,
) -> Result<Option<Matrix<u16>>, Memory>
    requires fitting { IsFitting n (matrix_of matrix.now) }
    ensures none { let p = (⟦<PrimeField as Field>⟧.field field.now).characteristic in
        IfOk result (λ o. IfNone o (¬ IsNonsingularModulo p n (cells p (matrix_of matrix.now)))) }
    ensures is { let p = (⟦<PrimeField as Field>⟧.field field.now).characteristic in
        IfOk result (λ o. IfSome o (λ g. sized_cells g ≡ generator p n (matrix_of matrix.now))) }
    ensures invertible { let p = (⟦<PrimeField as Field>⟧.field field.now).characteristic in IfOk result (λ o. IfSome o (IsInvertible p)) }
{
    let over = matrix_over(alloc, field, n, matrix)?;
    let found = inverse(alloc, field, &over)?;
    match found {
        Some(_) => Ok(Some(over)),
        None => Ok(None),
    }
}

/// The matrices over the field, or the first that has no inverse.
pub(crate) fn gens_over(
    alloc: Global,
    field: &PrimeField,
    n: u64,
    matrices: Vec<&MatrixText>,
) -> Result<Vec<Matrix<u16>>, ScriptFault>
    requires fitting { All (IsFitting n) (matrices_at matrices.items) }
    ensures gens { let p = (⟦<PrimeField as Field>⟧.field field.now).characteristic in
        IfOk result (λ gs. map sized_cells gs.items ≡ map (generator p n) (matrices_at matrices.entry.items)) }
    ensures invertible { let p = (⟦<PrimeField as Field>⟧.field field.now).characteristic in
        IfOk result (λ gs. All (IsInvertible p) gs.items) }
    ensures none { let p = (⟦<PrimeField as Field>⟧.field field.now).characteristic in
        IfOk result (λ gs. FirstSingular p n (matrices_at matrices.entry.items) None) }
    ensures fault { let p = (⟦<PrimeField as Field>⟧.field field.now).characteristic in
        IfErr result (IsSingularFault p n (matrices_at matrices.entry.items)) }
{
    let mut gens = Vec::new(alloc);
    for i in 0..matrices.len() {
        let matrix = matrices[i];
        match invertible_over(alloc, field, n, matrix)? {
            Some(over) => gens.push(over)?,
            None => {
                let name = Name::new(alloc, matrix.name)?;
                return Err(ScriptFault::Input(InputFault::Singular { name }));
            }
        }
    }
    Ok(gens)
}
