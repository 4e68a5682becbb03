//! The shape of a text: its lines, and their order.

ghost use Rattle.std.specs.Prelude.{◌≡◌, ◌↔◌, ◌≤◌, ℕ, List, [], Some, length, map, true, IfOk, IfErr};
ghost use Rattle.certificate_io.specs.Faults.{IsSyntaxFault};
ghost use Rattle.certificate_io.specs.Lines.{line_of, shown};
ghost use Rattle.certificate_io.specs.Syntax.{LineTree, IsText};
ghost use Rattle.certificate_io.specs.declared.line_kind.LineKind.TheVariants as kinds;

use crate::fault::CertFault;
use crate::line_kind::LineKind;
use crate::line_text::{LineText, line_of};
use crate::words::split;
use std::alloc::Global;

/// Whether the last line was the end, and nothing is left.
fn is_end(before: Option<LineKind>, rest: &[u8]) -> bool
    ensures is { (result ≡ true) ↔ ((before ≡ Some kinds.End) × (rest.now ≡ [])) }
{
    match before {
        Some(kind) => kind == LineKind::End && rest.is_empty(),
        None => false,
    }
}

/// The lines of a text, or the first line that leaves the grammar.
pub(crate) fn lines_of<'a>(alloc: Global, bytes: &'a [u8]) -> Result<Vec<LineText<'a>>, CertFault>
    requires short { length bytes.now ≤ 268435456 }
    ensures text { IfOk result (λ v. (ls : List LineTree) × IsText ls bytes.now × (map line_of v.items ≡ map shown ls)) }
    ensures fault { IfErr result (IsSyntaxFault bytes.now) }
{
    let mut lines = Vec::new(alloc);
    let mut before = None;
    let mut rest = bytes;
    while !is_end(before, rest) {
        let fault = CertFault::Syntax {
            line: lines.len() as u64 + 1,
        };
        let (text, after) = split(rest, b'\n');
        let Some(others) = after else {
            return Err(fault);
        };
        let Some(line) = line_of(alloc, before, text)? else {
            return Err(fault);
        };
        before = Some(line.kind);
        lines.push(line)?;
        rest = others;
    }
    Ok(lines)
}
