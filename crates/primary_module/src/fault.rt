use alg_core::Memory;
use thiserror::Error;

/// Why there is no module.
#[derive(Debug, Drop, Error)]
pub enum RankFault {
    /// There are at least this many standard monomials, one more than are allowed.
    #[error("bound rank {counted}")]
    RankBound { counted: u64 },
    #[error("memory")]
    Memory,
}

impl From<Memory> for RankFault {
    ghost use Rattle.std.specs.Prelude.{◌≡◌};
    ghost use Rattle.primary_module.specs.declared.fault.RankFault.TheVariants as faults;

    ghost from_gives = { λ _ e. e ≡ faults.Memory };

    fn from(_: Memory) -> RankFault {
        RankFault::Memory
    }
}
