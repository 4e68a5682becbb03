//! The echelon basis of the invariants of one degree, as lines of text.

ghost use Rattle.std.specs.Prelude.{◌≤◌, IfErr, IfOk};
ghost use Rattle.alg_core.specs.LimitRanges.{AreLimits};
ghost use Rattle.finvar_text.specs.Problems.{problem_in, IsSound};
ghost use Rattle.invring_app.specs.Commands.Bases.{count_of, IsBasisText, IsBoundTold};
ghost use Rattle.invring_app.specs.Answers.{IsAnswer, IsFault};
ghost use Rattle.invring_app.specs.Endings.{Answers};

use crate::commands::Command;
use crate::commands::lines::polynomial_lines;
use crate::fault::Fault;
use crate::field::field_of;
use alg_core::{Limits, Space};
use finvar_text::{Script, read_script};
use invariant_space::{SpaceFault, basis};
use poly_text::Names;
use std::alloc::Global;

/// The lines of the echelon basis of the invariants of this degree of the script's generators: its
/// polynomials by falling leads. TermBound says that the degree has more than `max_terms` monomials.
fn basis_lines(
    alloc: Global,
    script: Script,
    degree: u32,
    max_terms: u32,
) -> Result<Vec<u8>, SpaceFault>
    requires sound { IsSound script }
    requires degree { degree ≤ 1000 }
    ensures within { IfOk result (λ _. count_of degree (problem_in script) ≤ max_terms) }
    ensures basis { IfOk result (λ t. IsBasisText (problem_in script) degree t.items) }
    ensures bound { IfErr result (IsBoundTold degree max_terms (problem_in script)) }
{
    let field = field_of(script.characteristic);
    let variables = script.names.len() as u32;
    let space = Space::of_variables(alloc, field, variables)?;
    let basis = basis(alloc, &space, &script.gens, degree, max_terms)?;
    let names = Names {
        vars: script.names,
        primaries: None,
        irreducibles: None,
    };
    let text = polynomial_lines(alloc, &space, &names, b"", &basis)?;
    Ok(text)
}

/// What `basis` answers to the bytes of a script.
pub(crate) fn basis_text(
    alloc: Global,
    bytes: &[u8],
    degree: u32,
    limits: &Limits,
) -> Result<Vec<u8>, Fault>
    requires degree { degree ≤ 1000 }
    requires limits { AreLimits limits.now }
    ensures text { IfOk result (λ text. IsAnswer (Command.Basis degree) limits.now bytes.now (Answers text.items)) }
    ensures fault { IfErr result (IsFault (Command.Basis degree) limits.now bytes.now) }
{
    let script = read_script(alloc, bytes)?;
    let text = basis_lines(alloc, script, degree, limits.max_terms)?;
    Ok(text)
}
