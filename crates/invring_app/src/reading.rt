//! What a command reads of its source.

ghost use Rattle.std.specs.Prelude.{◌≡◌, ◌+◌, ◌≤◌, ◌<◌, ◌^◌, ℕ, List, length, IfOk, OnErr, IsErrOf};
ghost use Rattle.inv_outside.specs.Outside.{Rose, Gave};
ghost use Rattle.inv_outside.specs.declared.whole.ReadFault.TheVariants.{Failed};
ghost use Rattle.invring_app.specs.Inputs.{IsReading, most_bytes, Takes};

use inv_outside::{ReadFault, Source, read_all};
use std::alloc::Global;

/// What is read.
#[derive(Clone, Copy, Debug, PartialEq, Eq)]
pub(crate) enum Kind {
    Nothing,
    Script,
    Certificate,
}

/// The greatest length of a script, in bytes.
const MAX_SCRIPT: usize = 16777216;

/// The greatest length of a certificate, in bytes.
pub(crate) const MAX_CERTIFICATE: usize = 268435456;

/// Reads what is to be read: all that the source has, or one byte more than may come.
pub(crate) fn read_input<S: Source>(
    alloc: Global,
    src: &mut S,
    kind: Kind,
) -> Result<Vec<u8>, ReadFault>
    ensures takes { IfOk result (λ bytes. Takes kind (S.left src.old) bytes.items (S.left src.new)) }
    ensures lost { OnErr result ((bytes : List ℕ) × (length bytes ≤ most_bytes kind + 1) × Gave (S.left src.old) bytes (S.left src.new)) }
    ensures cause { IsErrOf result Failed → IsReading kind × Rose (S.faults src.old) (S.faults src.new) }
    ensures idle { ¬ IsReading kind → src.new ≡ src.old }
{
    match kind {
        Kind::Nothing => Ok(Vec::new(alloc)),
        Kind::Script => {
            let bytes = read_all(alloc, src, MAX_SCRIPT)?;
            Ok(bytes)
        }
        Kind::Certificate => {
            let bytes = read_all(alloc, src, MAX_CERTIFICATE)?;
            Ok(bytes)
        }
    }
}
