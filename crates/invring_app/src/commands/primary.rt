//! The first primary invariants, and the least powers of the variables in their ideal, as lines of text.

ghost use Rattle.std.specs.Prelude.{◌≡◌, ◌++◌, IfErr, IfOk, codes, length, map};
ghost use Rattle.alg_core.specs.LimitRanges.{AreLimits};
ghost use Rattle.alg_core.specs.Spaces.{over, entries};
ghost use Rattle.poly_module.specs.SpaceVectors.{ArePolys};
ghost use Rattle.poly_text.specs.Texts.{place_count};
ghost use Rattle.invring_app.specs.Lines.{polynomial_lines, power_lines};
ghost use Rattle.finvar_text.specs.Problems.{problem_in, IsSound};
ghost use Rattle.invring_app.specs.Commands.Primaries.{IsPrimaryText, IsSearchTold};
ghost use Rattle.invring_app.specs.Answers.{IsAnswer, IsFault};
ghost use Rattle.invring_app.specs.Endings.{Answers};

use crate::commands::Command;
use crate::commands::lines::{polynomial_lines, power_lines};
use crate::commands::order::group_order;
use crate::fault::Fault;
use crate::field::field_of;
use alg_core::{Dp, Field, Limits, Memory, Space, TermOrder};
use finvar_text::{Script, read_script};
use groebner_hom::least_exponents;
use poly_module::Poly;
use poly_text::Names;
use primary_search::{SearchFault, search};
use prime_field::PrimeField;
use std::alloc::Global;

/// A line for each primary invariant, and then one for the power of each variable.
fn lines(
    alloc: Global,
    space: &Space<PrimeField, Dp>,
    names: &Names,
    primaries: &[Poly<u16>],
    exponents: &[u32],
) -> Result<Vec<u8>, Memory>
    requires polynomials { ArePolys (over (⟦<PrimeField as Field>⟧.field) (⟦<Dp as TermOrder>⟧.order) space.now) (λ m. m) primaries.now }
    requires places { length space.now.grading.weights.items ≡ place_count names.now }
    requires each { length exponents.now ≡ length names.now.vars }
    ensures text { let S = over (⟦<PrimeField as Field>⟧.field) (⟦<Dp as TermOrder>⟧.order) space.now in IfOk result (λ t. t.items
        ≡ polynomial_lines (codes "primary ") S names.now (map (entries (λ m. m)) primaries.now) ++ power_lines names.now.vars exponents.now) }
{
    let mut text = polynomial_lines(alloc, space, names, b"primary ", primaries)?;
    let powers = power_lines(alloc, &names.vars, exponents)?;
    text.extend_from_slice(&powers)?;
    Ok(text)
}

/// The lines of the first primary invariants of the script's generators, in the order in which they are
/// found, and of the powers of the variables. The fault is the first bound that the search meets.
fn primary_lines(
    alloc: Global,
    script: Script,
    limits: &Limits,
) -> Result<Vec<u8>, SearchFault<u16>>
    requires sound { IsSound script }
    requires limits { AreLimits limits.now }
    ensures text { IfOk result (λ t. IsPrimaryText (problem_in script) limits.now t.items) }
    ensures bound { IfErr result (IsSearchTold limits.now (problem_in script)) }
{
    let field = field_of(script.characteristic);
    let variables = script.names.len() as u32;
    let space = Space::of_variables(alloc, field, variables)?;
    let primaries = search(alloc, &space, &script.gens, limits)?;
    let exponents = least_exponents(alloc, &space, &primaries, limits.max_basis)?;
    let names = Names {
        vars: script.names,
        primaries: None,
        irreducibles: None,
    };
    let text = lines(alloc, &space, &names, &primaries, &exponents)?;
    Ok(text)
}

/// What `primary` answers to the bytes of a script: the group comes first, then the search.
pub(crate) fn primary_text(alloc: Global, bytes: &[u8], limits: &Limits) -> Result<Vec<u8>, Fault>
    requires limits { AreLimits limits.now }
    ensures text { IfOk result (λ text. IsAnswer Command.Primary limits.now bytes.now (Answers text.items)) }
    ensures fault { IfErr result (IsFault Command.Primary limits.now bytes.now) }
{
    let script = read_script(alloc, bytes)?;
    let _order = group_order(alloc, &script, limits.max_order)?;
    let text = primary_lines(alloc, script, limits)?;
    Ok(text)
}
