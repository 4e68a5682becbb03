//! The script that a tree stands for, or the first fault of its values.

ghost use Rattle.std.specs.Prelude.{◌≡◌, IfErr, IfOk, None, length, map, All};
ghost use Rattle.prime_field.specs.PrimeFields.{IsPrimeField};
ghost use Rattle.finvar_text.specs.Conditions.{value, generators, number_fault, field_fault, HasFault};
ghost use Rattle.finvar_text.specs.Scripts.{generator, sized_cells, IsInvertible, IsScriptOf, IsValueFault};
ghost use Rattle.finvar_text.specs.Syntax.{IsName, IsScript};
ghost use Rattle.finvar_text.specs.Trees.{bytes_of, script_of};

use crate::fault::ScriptFault;
use crate::syntax::ScriptText;
use crate::values_faults::{field_of, later_fault, number_fault};
use crate::values_generators::gens_over;
use crate::values_matrices::generators;
use crate::values_names::read_names;
use alg_core::{Field, Memory, Name};
use lin_algebra::Matrix;
use prime_field::PrimeField;
use std::alloc::Global;

/// A script: the characteristic, the names of the variables, and the generators, with entries reduced modulo the
/// characteristic.
#[derive(Debug, Drop)]
pub struct Script {
    pub characteristic: u32,
    pub names: Vec<Name>,
    pub gens: Vec<Matrix<u16>>,
}

/// The names of the variables.
fn variable_names(alloc: Global, script: &ScriptText) -> Result<Vec<Name>, Memory>
    requires names { All IsName (bytes_of script.now.variables.items) }
    ensures is { IfOk result (λ ns. ns.items ≡ bytes_of script.now.variables.items) }
{
    let mut names = Vec::new(alloc);
    for variable in script.variables.as_slice() {
        let name = Name::new(alloc, *variable)?;
        names.push(name)?;
    }
    Ok(names)
}

/// The generators of the tree over the field, or the first fault of its values after those on numbers
/// and the characteristic.
fn generators_of(
    alloc: Global,
    tree: &ScriptText,
    field: &PrimeField,
) -> Result<Vec<Matrix<u16>>, ScriptFault>
    requires script { IsScript (script_of tree.now) }
    requires numbers { number_fault (script_of tree.now) ≡ None }
    requires characteristic { field_fault (script_of tree.now) ≡ None }
    requires field { IsPrimeField (value (script_of tree.now).characteristic) (⟦<PrimeField as Field>⟧.field field.now) }
    ensures gens { let s = script_of tree.now in let n = length s.variables in
        IfOk result (λ gs. map sized_cells gs.items ≡ map (generator (value s.characteristic) n) (generators s)) }
    ensures invertible { IfOk result (λ gs. All (IsInvertible (value (script_of tree.now).characteristic)) gs.items) }
    ensures none { IfOk result (λ gs. HasFault (script_of tree.now) None) }
    ensures fault { IfErr result (IsValueFault (script_of tree.now)) }
{
    let (declarations, unknown) = read_names(alloc, tree)?;
    let matrices = generators(alloc, tree, &declarations.matrices)?;
    let count = matrices.len();
    if let Some(fault) = later_fault(alloc, tree, declarations.twice, unknown, count)? {
        return Err(ScriptFault::Input(fault));
    }
    let n = tree.variables.len() as u64;
    let gens = gens_over(alloc, field, n, matrices)?;
    Ok(gens)
}

/// The script of the tree, or the first fault of its values.
pub(crate) fn script_of(alloc: Global, tree: &ScriptText) -> Result<Script, ScriptFault>
    requires script { IsScript (script_of tree.now) }
    ensures script { IfOk result (IsScriptOf (script_of tree.now)) }
    ensures none { IfOk result (λ _. HasFault (script_of tree.now) None) }
    ensures invertible { IfOk result (λ r. All (IsInvertible r.characteristic) r.gens.items) }
    ensures fault { IfErr result (IsValueFault (script_of tree.now)) }
{
    if let Some(fault) = number_fault(tree) {
        return Err(ScriptFault::Input(fault));
    }
    match field_of(tree) {
        Ok(field) => {
            let gens = generators_of(alloc, tree, &field)?;
            let names = variable_names(alloc, tree)?;
            Ok(Script {
                characteristic: field.characteristic(),
                names,
                gens,
            })
        }
        Err(fault) => Err(ScriptFault::Input(fault)),
    }
}
