use alg_core::Memory;
use std::alloc::AllocFailed;
use thiserror::Error;

/// Why a group was not enumerated.
#[derive(Debug, Drop, Error)]
pub enum GroupFault {
    /// It has at least this many elements, which is one more than are allowed.
    #[error("bound group {counted}")]
    GroupBound { counted: u64 },
    #[error("memory")]
    Memory,
}

impl From<Memory> for GroupFault {
    ghost use Rattle.std.specs.Prelude.{◌≡◌};
    ghost use Rattle.matrix_group.specs.declared.fault.GroupFault.TheVariants as faults;

    ghost from_gives = { λ _ e. e ≡ faults.Memory };

    fn from(_: Memory) -> GroupFault {
        GroupFault::Memory
    }
}

impl<T: Drop> From<AllocFailed<T>> for GroupFault {
    ghost use Rattle.std.specs.Prelude.{◌≡◌};
    ghost use Rattle.matrix_group.specs.declared.fault.GroupFault.TheVariants as faults;

    ghost from_gives = { λ _ e. e ≡ faults.Memory };

    fn from(_: AllocFailed<T>) -> GroupFault {
        GroupFault::Memory
    }
}
