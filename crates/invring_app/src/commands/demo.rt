//! A demonstration, which reads nothing: the summary of the certificate of a script that the program makes.

ghost use Rattle.std.specs.Prelude.{◌≤◌, [], IfErr, IfOk};
ghost use Rattle.alg_core.specs.LimitRanges.{AreLimits};
ghost use Rattle.invring_app.specs.Answers.{IsAnswer, IsFault};
ghost use Rattle.invring_app.specs.Endings.{Answers};

use crate::commands::Command;
use crate::commands::ring::{certificate, within};
use crate::commands::summary::summary;
use crate::fault::Fault;
use alg_core::Limits;
use finvar_text::{demo_script, read_script};
use std::alloc::Global;

/// What `demo` answers: the summary of the certificate of so many pairs of variables over GF(2) that one
/// matrix exchanges. The bounds are those of `ring` at that script, also that on the length of its
/// certificate, which is not printed.
pub(crate) fn demo_summary(alloc: Global, pairs: u32, limits: &Limits) -> Result<Vec<u8>, Fault>
    requires some { 1 ≤ pairs }
    requires few { pairs ≤ 4 }
    requires limits { AreLimits limits.now }
    ensures text { IfOk result (λ text. IsAnswer (Command.Demo pairs) limits.now [] (Answers text.items)) }
    ensures fault { IfErr result (IsFault (Command.Demo pairs) limits.now []) }
{
    let bytes = demo_script(alloc, pairs)?;
    let script = read_script(alloc, &bytes)?;
    let cert = certificate(alloc, script, limits)?;
    within(&cert, limits)?;
    let text = summary(alloc, pairs, &cert)?;
    Ok(text)
}
