//! The order of the group that the generators of a script generate, as a line of text.

ghost use Rattle.std.specs.Prelude.{◌≡◌, ◌+◌, ◌≤◌, ◌++◌, ◌∷◌, ℕ, [], IfErr, IfOk, decimal};
ghost use Rattle.alg_core.specs.LimitRanges.{AreLimits};
ghost use Rattle.finvar_text.specs.Problems.{problem_in, IsSound};
ghost use Rattle.invring_app.specs.Commands.Orders.{IsOrderOf, IsGroupTold};
ghost use Rattle.invring_app.specs.Answers.{IsAnswer, IsFault};
ghost use Rattle.invring_app.specs.Endings.{Answers};

use crate::commands::Command;
use crate::fault::Fault;
use crate::field::field_of;
use alg_core::{Limits, Memory};
use finvar_text::{Script, read_script};
use matrix_group::{GroupFault, enumerate};
use poly_text::Digits;
use std::alloc::Global;

/// The number in decimal, and a newline.
fn number_line(alloc: Global, number: u64) -> Result<Vec<u8>, Memory>
    ensures is { IfOk result (λ t. t.items ≡ decimal number ++ 10 ∷ []) }
{
    let digits = Digits::of(u128::from(number));
    let mut line = Vec::from_slice(alloc, digits.as_slice())?;
    line.push(b'\n')?;
    Ok(line)
}

/// The order of the group that the script's generators generate. GroupBound says that the group has
/// more than `max_order` elements.
pub(crate) fn group_order(alloc: Global, script: &Script, max_order: u64) -> Result<u64, GroupFault>
    requires sound { IsSound script.now }
    requires max { max_order ≤ 1000000 }
    ensures order { IfOk result (IsOrderOf (problem_in script.now)) }
    ensures within { IfOk result (λ N. N ≤ max_order) }
    ensures bound { IfErr result (IsGroupTold max_order (problem_in script.now)) }
{
    let field = field_of(script.characteristic);
    let group = enumerate(alloc, &field, &script.gens, max_order)?;
    Ok(group.order())
}

/// What `order` answers to the bytes of a script.
pub(crate) fn order_text(alloc: Global, bytes: &[u8], limits: &Limits) -> Result<Vec<u8>, Fault>
    requires limits { AreLimits limits.now }
    ensures text { IfOk result (λ text. IsAnswer Command.Order limits.now bytes.now (Answers text.items)) }
    ensures fault { IfErr result (IsFault Command.Order limits.now bytes.now) }
{
    let script = read_script(alloc, bytes)?;
    let order = group_order(alloc, &script, limits.max_order)?;
    let line = number_line(alloc, order)?;
    Ok(line)
}
