//! The conditions on the values of a script, in their order, but that on inverses.

ghost use Rattle.std.specs.Prelude.{◌≡◌, ◌≤◌, [], ◌∷◌, IfErr, IfOk, length, true, None, Some};
ghost use Rattle.prime_field.specs.PrimeFields.{IsPrimeField};
ghost use Rattle.finvar_text.specs.Conditions.{value, is_small, number_fault, field_fault, variables_fault, twice_fault, unknown_fault, size_fault, declared_names, first_twice, first_unknown, first_of, later_conditions, generators as the_generators};
ghost use Rattle.finvar_text.specs.Syntax.{IsScript};
ghost use Rattle.finvar_text.specs.Trees.{script_of, word_of};

use crate::syntax::ScriptText;
use crate::values::are_numbers_small;
use crate::values_matrices::first_misfit;
use alg_core::{Field, InputFault, Memory, Name};
use prime_field::PrimeField;
use std::alloc::Global;

/// The greatest number of variables.
const MAX_VARIABLES: usize = 8;

/// The fault of the numbers.
pub(crate) fn number_fault(script: &ScriptText) -> Option<InputFault>
    ensures is { result ≡ number_fault (script_of script.now) }
{
    if are_numbers_small(script) {
        return None;
    }
    Some(InputFault::Number)
}

/// The field, or the fault of the characteristic.
pub(crate) fn field_of(script: &ScriptText) -> Result<PrimeField, InputFault>
    requires small { is_small script.now.characteristic.digits.now ≡ true }
    ensures field { let p = value script.now.characteristic.digits.now in
        IfOk result (λ k. IsPrimeField p (⟦<PrimeField as Field>⟧.field k)) }
    ensures none { IfOk result (λ k. field_fault (script_of script.now) ≡ None) }
    ensures fault { IfErr result (λ f. field_fault (script_of script.now) ≡ Some f) }
{
    let p = script.characteristic.get();
    match u32::try_from(p) {
        Ok(narrow) => match PrimeField::new(narrow) {
            Ok(field) => Ok(field),
            Err(_) => Err(InputFault::Field { p }),
        },
        Err(_) => Err(InputFault::Field { p }),
    }
}

fn variables_fault(script: &ScriptText) -> Option<InputFault>
    ensures is { result ≡ variables_fault (script_of script.now) }
{
    let n = script.variables.len();
    if n <= MAX_VARIABLES {
        return None;
    }
    Some(InputFault::Variables { n: n as u64 })
}

fn twice_fault(
    alloc: Global,
    script: &ScriptText,
    twice: Option<&[u8]>,
) -> Result<Option<InputFault>, Memory>
    requires script { IsScript (script_of script.now) }
    requires twice { word_of twice ≡ first_twice [] (declared_names (script_of script.now)) }
    ensures is { IfOk result (λ o. o ≡ twice_fault (script_of script.now)) }
{
    match twice {
        Some(name) => {
            let name = Name::new(alloc, name)?;
            Ok(Some(InputFault::Twice { name }))
        }
        None => Ok(None),
    }
}

fn unknown_fault(
    alloc: Global,
    script: &ScriptText,
    unknown: Option<&[u8]>,
) -> Result<Option<InputFault>, Memory>
    requires script { IsScript (script_of script.now) }
    requires unknown { let s = script_of script.now in word_of unknown ≡ first_unknown [] (s.ring ∷ s.variables) s.items }
    ensures is { IfOk result (λ o. o ≡ unknown_fault (script_of script.now)) }
{
    match unknown {
        Some(name) => {
            let name = Name::new(alloc, name)?;
            Ok(Some(InputFault::Unknown { name }))
        }
        None => Ok(None),
    }
}

fn size_fault(alloc: Global, script: &ScriptText) -> Result<Option<InputFault>, Memory>
    requires script { IsScript (script_of script.now) }
    requires small { length script.now.variables.items ≤ 8 }
    ensures is { IfOk result (λ o. o ≡ size_fault (script_of script.now)) }
{
    match first_misfit(script) {
        Some(name) => {
            let name = Name::new(alloc, name)?;
            Ok(Some(InputFault::Size { name }))
        }
        None => Ok(None),
    }
}

/// The first of the conditions after those on numbers and the characteristic, but that on inverses,
/// that fails.
pub(crate) fn later_fault(
    alloc: Global,
    script: &ScriptText,
    twice: Option<&[u8]>,
    unknown: Option<&[u8]>,
    generators: usize,
) -> Result<Option<InputFault>, Memory>
    requires script { IsScript (script_of script.now) }
    requires twice { word_of twice ≡ first_twice [] (declared_names (script_of script.now)) }
    requires unknown { let s = script_of script.now in word_of unknown ≡ first_unknown [] (s.ring ∷ s.variables) s.items }
    requires count { generators ≡ length (the_generators (script_of script.now)) }
    ensures is { IfOk result (λ o. o ≡ first_of (later_conditions (script_of script.now))) }
{
    if let Some(fault) = variables_fault(script) {
        return Ok(Some(fault));
    }
    if let Some(fault) = twice_fault(alloc, script, twice)? {
        return Ok(Some(fault));
    }
    if let Some(fault) = unknown_fault(alloc, script, unknown)? {
        return Ok(Some(fault));
    }
    if let Some(fault) = size_fault(alloc, script)? {
        return Ok(Some(fault));
    }
    if generators == 0 {
        return Ok(Some(InputFault::NoMatrix));
    }
    Ok(None)
}
