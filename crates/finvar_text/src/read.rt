ghost use Rattle.std.specs.Prelude.{◌≡◌, IfErr, IfOk};
ghost use Rattle.finvar_text.specs.Problems.{problem_in, IsProblemText, IsSound};
ghost use Rattle.finvar_text.specs.Scripts.{fault_of, IsScriptFault};

use crate::fault::ScriptFault;
use crate::scan::{SyntaxFault, syntax_tree};
use crate::script::{Script, script_of};
use alg_core::InputFault;
use std::alloc::Global;

/// The greatest number of bytes of a script.
const MAX_BYTES: usize = 16777216;

/// The fault of the syntax as one of the script.
fn fault_of(fault: SyntaxFault) -> ScriptFault
    ensures is { result ≡ fault_of fault }
{
    match fault {
        SyntaxFault::Syntax { place } => ScriptFault::Syntax { place },
        SyntaxFault::Memory => ScriptFault::Memory,
    }
}

/// The script, or its first fault.
///
/// A script of more than 16777216 bytes is `Long`, whatever its bytes. Of any other the fault is `Syntax` where it is
/// none of the grammar, else `Input` with the first condition that fails, in the order of `InputFault`. The time is linear in
/// the bytes and the generators.
pub fn read_script(alloc: Global, bytes: &[u8]) -> Result<Script, ScriptFault>
    ensures problem { IfOk result (λ r. IsProblemText bytes.now (problem_in r)) }
    ensures sound { IfOk result IsSound }
    ensures fault { IfErr result (IsScriptFault bytes.now) }
{
    if bytes.len() > MAX_BYTES {
        return Err(ScriptFault::Input(InputFault::Long));
    }
    match syntax_tree(alloc, bytes) {
        Ok(tree) => {
            let script = script_of(alloc, &tree)?;
            Ok(script)
        }
        Err(fault) => Err(fault_of(fault)),
    }
}
