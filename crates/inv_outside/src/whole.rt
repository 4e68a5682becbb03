ghost use Rattle.std.specs.Prelude.{◌≡◌, ◌<◌, ◌≤◌, ◌+◌, ◌^◌, ℕ, List, [], length, take, IfOk, IfSome, OnOk, OnErr, IsErr, IsErrOf};
ghost use Rattle.inv_outside.specs.Outside.{Rose, Gave, Took};
ghost use Rattle.inv_outside.specs.declared.whole.ReadFault.TheVariants.{Memory};

use crate::ends::{Failed, Sink, Source};
use std::alloc::{AllocError, Global};

/// Why not all was read.
#[derive(Clone, Copy, Debug, PartialEq, Eq)]
pub enum ReadFault {
    /// The source failed.
    Failed,
    /// Memory was refused.
    Memory,
}

impl From<AllocError> for ReadFault {
    ghost from_gives = { λ _ e. e ≡ Memory };

    fn from(_: AllocError) -> ReadFault {
        ReadFault::Memory
    }
}

impl From<Failed> for ReadFault {
    ghost use Rattle.inv_outside.specs.declared.whole.ReadFault.TheVariants.{Failed as FailedSource};

    ghost from_gives = { λ _ e. e ≡ FailedSource };

    fn from(_: Failed) -> ReadFault {
        ReadFault::Failed
    }
}

/// The most that one call asks of a source.
const PIECE: usize = 4096;

/// Reads a source to its end, or until one byte more than the limit has come.
pub fn read_all<S: Source>(
    alloc: Global,
    source: &mut S,
    limit: usize,
) -> Result<Vec<u8>, ReadFault>
    requires limit { limit < 2 ^ 40 }
    ensures gave { IfOk result (λ bytes. Gave (S.left source.old) bytes.items (S.left source.new)) }
    ensures length { IfOk result (λ bytes. length bytes.items ≤ limit + 1) }
    ensures end { IfOk result (λ bytes. length bytes.items ≤ limit → IfSome (S.left source.new) (λ rest. rest ≡ [])) }
    ensures cause { IsErrOf result ReadFault.Failed → Rose (S.faults source.old) (S.faults source.new) }
    ensures later { S.faults source.old ≤ S.faults source.new }

    // What came before an error is lost, and is no more than what the limit lets come.
    ensures err { OnErr result ((bytes : List ℕ) × (length bytes ≤ limit + 1) × Gave (S.left source.old) bytes (S.left source.new)) }
{
    let mut bytes = Vec::new(alloc);
    let mut piece = [0u8; PIECE];
    while bytes.len() <= limit {
        let room = (limit + 1 - bytes.len()).min(PIECE);
        let count = source.read(&mut piece[..room])?;
        if count == 0 {
            break;
        }
        bytes.extend_from_slice(&piece[..count])?;
    }
    Ok(bytes)
}

/// Writes all the bytes. Each call of the sink is offered all that it has not taken yet.
pub fn write_all<O: Sink>(sink: &mut O, bytes: &[u8]) -> Result<(), Failed>
    ensures ok { OnOk result (Took (O.taken sink.old) bytes.now (O.taken sink.new)) }
    ensures err { OnErr result ((k : ℕ) × (k < length bytes.now) × Took (O.taken sink.old) (take k bytes.now) (O.taken sink.new)) }
    ensures cause { IsErr result → Rose (O.faults sink.old) (O.faults sink.new) }
    ensures later { O.faults sink.old ≤ O.faults sink.new }
{
    let mut at = 0;
    while at < bytes.len() {
        at += sink.write(&bytes[at..])?;
    }
    Ok(())
}
