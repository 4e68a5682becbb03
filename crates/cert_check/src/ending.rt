use alg_core::Memory;
use matrix_group::GroupFault;
use primary_module::RankFault;

/// How a check ends that does not accept.
#[derive(Clone, Copy, Debug, PartialEq, Eq)]
pub enum Ending {
    Rejected { condition: u8, item: u64 },
    GroupBound { counted: u64 },
    RankBound { counted: u64 },
    TermBound { degree: u32, count: u128 },
    Memory,
}

impl From<Memory> for Ending {
    ghost use Rattle.std.specs.Prelude.{◌≡◌};
    ghost use Rattle.cert_check.specs.declared.ending.Ending.TheVariants as endings;

    ghost from_gives = { λ _ e. e ≡ endings.Memory };

    fn from(_: Memory) -> Ending {
        Ending::Memory
    }
}

impl From<GroupFault> for Ending {
    ghost use Rattle.std.specs.Prelude.{◌≡◌};
    ghost use Rattle.cert_check.specs.Endings.{ending_of_group};

    ghost from_gives = { λ f e. e ≡ ending_of_group f };

    fn from(fault: GroupFault) -> Ending {
        match fault {
            GroupFault::GroupBound { counted } => Ending::GroupBound { counted },
            GroupFault::Memory => Ending::Memory,
        }
    }
}

impl From<RankFault> for Ending {
    ghost use Rattle.std.specs.Prelude.{◌≡◌};
    ghost use Rattle.cert_check.specs.Endings.{ending_of_rank};

    ghost from_gives = { λ f e. e ≡ ending_of_rank f };

    fn from(fault: RankFault) -> Ending {
        match fault {
            RankFault::RankBound { counted } => Ending::RankBound { counted },
            RankFault::Memory => Ending::Memory,
        }
    }
}
