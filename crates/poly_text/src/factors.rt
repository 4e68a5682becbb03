//! The conditions on the factors of a term, and their exponents.

ghost use Rattle.std.specs.Prelude.{◌≡◌, ◌<◌, ◌≤◌, ◌+◌, ◌^◌, All, IfOk, IsTrue};
ghost use Rattle.std.specs.List.{list_all};
ghost use Rattle.poly_text.specs.Syntax.{IsFactor, IsVariable};
ghost use Rattle.poly_text.specs.Texts.{count_of, place_count};
ghost use Rattle.poly_text.specs.Trees.{variable_of, factors_of};
ghost use Rattle.poly_text.specs.Values.{name_place, is_known, is_within, place, HasPlace, HavePlaces, is_secondary, index, ends_with_secondary, has_ending, last_index, position_of, are_known, are_within, are_small, places, rise, exponents_from, first_failed, factor_conditions};

use crate::names::Names;
use crate::syntax::{FactorText, Mark, VariableText};
use alg_core::{Memory, ValueKind};
use std::alloc::Global;

/// The greatest exponent of a factor.
const MAX_EXPONENT: u32 = 4096;

/// The count, 0 where there is none.
fn count_of(count: Option<u64>) -> u64
    ensures is { result ≡ count_of count }
{
    count.unwrap_or(0)
}

/// How many variables there are.
fn place_count(names: &Names) -> usize
    requires counted { place_count names.now < 2 ^ 64 }
    ensures is { result ≡ place_count names.now }
{
    names.vars.len() + (count_of(names.primaries) + count_of(names.irreducibles)) as usize
}

/// The place of the name among the names.
fn name_place(names: &Names, name: &[u8]) -> Option<usize>
    ensures is { result ≡ name_place names.now name.now }
{
    names.vars.iter().position(|own| name == own.bytes())
}

/// Whether the variable is one of the names, or its sign belongs in the text.
fn is_known(names: &Names, secondaries: Option<u64>, variable: VariableText) -> bool
    ensures is { result ≡ is_known secondaries names.now (variable_of variable.entry) }
{
    match variable {
        VariableText::Named(name) => name_place(names, name).is_some(),
        VariableText::Marked { mark, .. } => match mark {
            Mark::Primary => names.primaries.is_some(),
            Mark::Irreducible => names.irreducibles.is_some(),
            Mark::Secondary => secondaries.is_some(),
        },
    }
}

/// Whether the index is at most the number of its list.
fn is_within(names: &Names, secondaries: Option<u64>, variable: VariableText) -> bool
    ensures is { result ≡ is_within secondaries names.now (variable_of variable.entry) }
{
    match variable {
        VariableText::Named(_) => true,
        VariableText::Marked { mark, index } => match mark {
            Mark::Primary => u64::from(index) <= count_of(names.primaries),
            Mark::Irreducible => u64::from(index) <= count_of(names.irreducibles),
            Mark::Secondary => u64::from(index) <= count_of(secondaries),
        },
    }
}

/// The place of the variable, from 0; a mark `%` comes after all.
fn place(names: &Names, variable: VariableText) -> usize
    requires counted { place_count names.now < 2 ^ 64 }
    requires variable { IsVariable (variable_of variable) }
    requires placed { HasPlace names.now (variable_of variable) }
    ensures is { result ≡ place names.now (variable_of variable.entry) }
    ensures within { result ≤ place_count names.now }
{
    match variable {
        VariableText::Named(name) => name_place(names, name).unwrap_or(0),
        VariableText::Marked { mark, index } => {
            let here = index as usize - 1;
            match mark {
                Mark::Primary => names.vars.len() + here,
                Mark::Irreducible => names.vars.len() + count_of(names.primaries) as usize + here,
                Mark::Secondary => place_count(names),
            }
        }
    }
}

/// Whether each variable is known.
fn are_known(names: &Names, secondaries: Option<u64>, factors: &[FactorText]) -> bool
    ensures is { result ≡ are_known secondaries names.now (factors_of factors.now) }
{
    factors
        .iter()
        .all(|factor| is_known(names, secondaries, factor.variable))
}

/// Whether each index is at most the number of its list.
fn are_within(names: &Names, secondaries: Option<u64>, factors: &[FactorText]) -> bool
    ensures is { result ≡ are_within secondaries names.now (factors_of factors.now) }
{
    factors
        .iter()
        .all(|factor| is_within(names, secondaries, factor.variable))
}

/// Whether each exponent is at most `MAX_EXPONENT`.
fn are_small(factors: &[FactorText]) -> bool
    ensures is { result ≡ are_small (factors_of factors.now) }
{
    factors.iter().all(|factor| factor.exponent <= MAX_EXPONENT)
}

/// Whether the places of the variables rise strictly.
fn places_rise(names: &Names, factors: &[FactorText]) -> bool
    requires counted { place_count names.now + 1 < 2 ^ 64 }
    requires factors { All IsFactor (factors_of factors.now) }
    requires placed { HavePlaces names.now (factors_of factors.now) }
    ensures is { result ≡ rise (places names.now (factors_of factors.now)) }
{
    let mut least = 0;
    for factor in factors {
        let place = place(names, factor.variable);
        if place < least {
            return false;
        }
        least = place + 1;
    }
    true
}

/// Whether the variable is a mark `%`.
fn is_secondary(variable: VariableText) -> bool
    ensures is { result ≡ is_secondary (variable_of variable.entry) }
{
    match variable {
        VariableText::Named(_) => false,
        VariableText::Marked { mark, .. } => match mark {
            Mark::Primary => false,
            Mark::Irreducible => false,
            Mark::Secondary => true,
        },
    }
}

/// Whether the last factor is a mark `%` without exponent.
fn ends_with_secondary(factors: &[FactorText]) -> bool
    ensures is { result ≡ ends_with_secondary (factors_of factors.now) }
{
    if factors.len() == 0 {
        return false;
    }
    let last = &factors[factors.len() - 1];
    is_secondary(last.variable) && last.exponent == 1
}

/// Whether the factors have the mark `%` that the kind of the text wants.
fn has_ending(secondaries: Option<u64>, factors: &[FactorText]) -> bool
    ensures is { result ≡ has_ending secondaries (factors_of factors.now) }
{
    secondaries.is_none() || ends_with_secondary(factors)
}

/// The index of a mark; 0 of a name.
fn index(variable: VariableText) -> u32
    ensures is { result ≡ index (variable_of variable.entry) }
{
    match variable {
        VariableText::Named(_) => 0,
        VariableText::Marked { index, .. } => index,
    }
}

/// The index of the last factor; 0 where there is none.
fn last_index(factors: &[FactorText]) -> u32
    ensures is { result ≡ last_index (factors_of factors.now) }
{
    if factors.len() == 0 {
        return 0;
    }
    index(factors[factors.len() - 1].variable)
}

/// The position that the mark `%` of the factors tells; 0 in a polynomial.
pub(crate) fn position_of(secondaries: Option<u64>, factors: &[FactorText]) -> u64
    ensures is { result ≡ position_of secondaries (factors_of factors.now) }
{
    if secondaries.is_none() {
        return 0;
    }
    u64::from(last_index(factors).saturating_sub(1))
}

/// The first condition on the factors that does not hold. The kind of the text is told by `secondaries`: how many
/// secondary invariants there are, None in a polynomial.
pub(crate) fn factor_fault(
    names: &Names,
    secondaries: Option<u64>,
    factors: &[FactorText],
) -> Option<ValueKind>
    requires counted { place_count names.now + 1 < 2 ^ 64 }
    requires factors { All IsFactor (factors_of factors.now) }
    ensures is { result ≡ first_failed (factor_conditions secondaries names.now (factors_of factors.now)) }
{
    if !are_known(names, secondaries, factors) {
        return Some(ValueKind::Name);
    }
    if !are_within(names, secondaries, factors) {
        return Some(ValueKind::Index);
    }
    if !has_ending(secondaries, factors) || !places_rise(names, factors) {
        return Some(ValueKind::Factor);
    }
    if !are_small(factors) {
        return Some(ValueKind::Exponent);
    }
    None
}

/// The exponent at each place of a variable; a mark `%` has none.
pub(crate) fn exponents_of(
    alloc: Global,
    names: &Names,
    factors: &[FactorText],
) -> Result<Vec<u32>, Memory>
    requires counted { place_count names.now < 2 ^ 64 }
    requires factors { All IsFactor (factors_of factors.now) }
    requires placed { HavePlaces names.now (factors_of factors.now) }
    ensures is { IfOk result (λ es. es.items ≡ exponents_from names.now (place_count names.now) 0 (factors_of factors.now)) }
{
    let mut exponents = vec![in alloc; 0; place_count(names)]?;
    for factor in factors.iter().rev() {
        let here = place(names, factor.variable);
        if here < exponents.len() {
            exponents[here] = factor.exponent;
        }
    }
    Ok(exponents)
}
