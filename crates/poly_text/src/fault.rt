ghost use Rattle.std.specs.Prelude.{◌≡◌};
ghost use Rattle.poly_text.specs.declared.fault.TextFault.TheVariants as faults;

use alg_core::{Memory, ValueKind};
use std::alloc::{AllocError, AllocFailed};

/// Why a text was not read.
#[derive(Clone, Copy, Debug, PartialEq, Eq)]
pub enum TextFault {
    /// The text is none of the grammar: the longest of its beginnings with which some text begins has `place` bytes.
    Syntax { place: u64 },
    /// The first term, from 1, that fails a condition, and the first condition that it fails.
    Value { term: u64, kind: ValueKind },
    Memory,
}

impl From<Memory> for TextFault {
    ghost from_gives = { λ _ e. e ≡ faults.Memory };

    fn from(_: Memory) -> TextFault {
        TextFault::Memory
    }
}

impl From<AllocError> for TextFault {
    ghost from_gives = { λ _ e. e ≡ faults.Memory };

    fn from(_: AllocError) -> TextFault {
        TextFault::Memory
    }
}

impl<T: Drop> From<AllocFailed<T>> for TextFault {
    ghost from_gives = { λ _ e. e ≡ faults.Memory };

    fn from(_: AllocFailed<T>) -> TextFault {
        TextFault::Memory
    }
}
