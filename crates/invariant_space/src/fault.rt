use alg_core::Memory;
use thiserror::Error;

/// Why there is no basis.
#[derive(Debug, Drop, Error)]
pub enum SpaceFault {
    /// The degree has more monomials than are allowed: this many.
    #[error("bound terms {degree} {count}")]
    TermBound { degree: u32, count: u128 },
    #[error("memory")]
    Memory,
}

impl From<Memory> for SpaceFault {
    ghost use Rattle.std.specs.Prelude.{◌≡◌};
    ghost use Rattle.invariant_space.specs.declared.fault.SpaceFault.TheVariants as faults;

    ghost from_gives = { λ _ e. e ≡ faults.Memory };

    fn from(_: Memory) -> SpaceFault {
        SpaceFault::Memory
    }
}
