ghost use Rattle.std.specs.Prelude.{◌≡◌};
ghost use Rattle.certificate_io.specs.declared.fault.CertFault.TheVariants as faults;

use alg_core::{Memory, ValueKind};
use std::alloc::{AllocError, AllocFailed};

/// Why a certificate was not read.
#[derive(Clone, Copy, Debug, PartialEq, Eq)]
pub enum CertFault {
    /// The first line, from 1, that leaves the grammar.
    Syntax { line: u64 },
    /// The first line, from 1, at which a condition on values fails, and the first condition.
    Value { line: u64, kind: ValueKind },
    Memory,
}

impl From<Memory> for CertFault {
    ghost from_gives = { λ _ e. e ≡ faults.Memory };

    fn from(_: Memory) -> CertFault {
        CertFault::Memory
    }
}

impl From<AllocError> for CertFault {
    ghost from_gives = { λ _ e. e ≡ faults.Memory };

    fn from(_: AllocError) -> CertFault {
        CertFault::Memory
    }
}

impl<T: Drop> From<AllocFailed<T>> for CertFault {
    ghost from_gives = { λ _ e. e ≡ faults.Memory };

    fn from(_: AllocFailed<T>) -> CertFault {
        CertFault::Memory
    }
}
