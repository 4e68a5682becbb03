ghost use Rattle.std.specs.Prelude.{◌≡◌};
ghost use Rattle.finvar_text.specs.declared.fault.ScriptFault.TheVariants as faults;

use alg_core::{InputFault, Memory};
use std::alloc::{AllocError, AllocFailed};

/// Why a script was not read.
#[derive(Debug, Drop)]
pub enum ScriptFault {
    /// It is none of the grammar: the longest of its beginnings with which some script begins has `place` bytes.
    Syntax { place: u64 },
    /// The first of the conditions on its values that it fails.
    Input(InputFault),
    Memory,
}

impl From<Memory> for ScriptFault {
    ghost from_gives = { λ _ e. e ≡ faults.Memory };

    fn from(_: Memory) -> ScriptFault {
        ScriptFault::Memory
    }
}

impl From<AllocError> for ScriptFault {
    ghost from_gives = { λ _ e. e ≡ faults.Memory };

    fn from(_: AllocError) -> ScriptFault {
        ScriptFault::Memory
    }
}

impl<T: Drop> From<AllocFailed<T>> for ScriptFault {
    ghost from_gives = { λ _ e. e ≡ faults.Memory };

    fn from(_: AllocFailed<T>) -> ScriptFault {
        ScriptFault::Memory
    }
}
