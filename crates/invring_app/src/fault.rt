use crate::status::BoundFault;
use alg_core::{InputFault, Memory, Place};
use cert_check::CheckRefusal;
use certificate_io::CertFault;
use finvar_text::ScriptFault;
use invariant_space::SpaceFault;
use matrix_group::GroupFault;
use module_groebner::{BasisBound, BasisFault};
use primary_module::RankFault;
use primary_search::SearchFault;

/// Why bytes have no answer.
#[derive(Drop)]
pub enum Fault {
    /// They are no script, or no certificate.
    Syntax(Place),
    /// They are too many, or a script or a certificate with a faulty value.
    Input(InputFault),
    Bound(BoundFault),
    Memory,
}

impl From<Memory> for Fault {
    ghost use Rattle.std.specs.Prelude.{◌≡◌};
    ghost use Rattle.invring_app.specs.declared.fault.Fault.TheVariants as faults;

    ghost from_gives = { λ _ e. e ≡ faults.Memory };

    fn from(_: Memory) -> Fault {
        Fault::Memory
    }
}

impl From<ScriptFault> for Fault {
    ghost use Rattle.invring_app.specs.Faults.{fault_of_script};
    ghost use Rattle.std.specs.Prelude.{◌≡◌};

    ghost from_gives = { λ e f. f ≡ fault_of_script e };

    fn from(fault: ScriptFault) -> Fault {
        match fault {
            ScriptFault::Syntax { place } => Fault::Syntax(Place::Byte(place)),
            ScriptFault::Input(fault) => Fault::Input(fault),
            ScriptFault::Memory => Fault::Memory,
        }
    }
}

impl From<CertFault> for Fault {
    ghost use Rattle.invring_app.specs.Faults.{fault_of_certificate};
    ghost use Rattle.std.specs.Prelude.{◌≡◌};

    ghost from_gives = { λ e f. f ≡ fault_of_certificate e };

    fn from(fault: CertFault) -> Fault {
        match fault {
            CertFault::Syntax { line } => Fault::Syntax(Place::Line(line)),
            CertFault::Value { line, kind } => Fault::Input(InputFault::Line { line, kind }),
            CertFault::Memory => Fault::Memory,
        }
    }
}

impl From<CheckRefusal> for Fault {
    ghost use Rattle.invring_app.specs.Faults.{fault_of_check};
    ghost use Rattle.std.specs.Prelude.{◌≡◌};

    ghost from_gives = { λ e f. f ≡ fault_of_check e };

    fn from(fault: CheckRefusal) -> Fault {
        match fault {
            CheckRefusal::GroupBound { counted } => {
                Fault::Bound(BoundFault::GroupBound { counted })
            }
            CheckRefusal::RankBound { counted } => Fault::Bound(BoundFault::RankBound { counted }),
            CheckRefusal::TermBound { degree, count } => {
                Fault::Bound(BoundFault::TermBound { degree, count })
            }
            CheckRefusal::Memory => Fault::Memory,
        }
    }
}

impl From<SpaceFault> for Fault {
    ghost use Rattle.invring_app.specs.Faults.{fault_of_space};
    ghost use Rattle.std.specs.Prelude.{◌≡◌};

    ghost from_gives = { λ e f. f ≡ fault_of_space e };

    fn from(fault: SpaceFault) -> Fault {
        match fault {
            SpaceFault::TermBound { degree, count } => {
                Fault::Bound(BoundFault::TermBound { degree, count })
            }
            SpaceFault::Memory => Fault::Memory,
        }
    }
}

impl From<GroupFault> for Fault {
    ghost use Rattle.invring_app.specs.Faults.{fault_of_group};
    ghost use Rattle.std.specs.Prelude.{◌≡◌};

    ghost from_gives = { λ e f. f ≡ fault_of_group e };

    fn from(fault: GroupFault) -> Fault {
        match fault {
            GroupFault::GroupBound { counted } => {
                Fault::Bound(BoundFault::GroupBound { counted })
            }
            GroupFault::Memory => Fault::Memory,
        }
    }
}

impl From<SearchFault<u16>> for Fault {
    ghost use Rattle.invring_app.specs.Faults.{fault_of_search};
    ghost use Rattle.std.specs.Prelude.{◌≡◌};

    ghost from_gives = { λ e f. f ≡ fault_of_search e };

    fn from(fault: SearchFault<u16>) -> Fault {
        match fault {
            SearchFault::NoPrimary { found, degree } => {
                Fault::Bound(BoundFault::NoPrimary { found, degree })
            }
            SearchFault::TermBound { degree, count } => {
                Fault::Bound(BoundFault::TermBound { degree, count })
            }
            SearchFault::Basis(
                BasisBound {
                    vector,
                    degree,
                    which,
                },
            ) => Fault::Bound(BoundFault::BasisBound {
                which,
                vector,
                degree,
            }),
            SearchFault::Memory => Fault::Memory,
        }
    }
}

impl From<BasisFault<u16>> for Fault {
    ghost use Rattle.invring_app.specs.Faults.{fault_of_basis};
    ghost use Rattle.std.specs.Prelude.{◌≡◌};

    ghost from_gives = { λ e f. f ≡ fault_of_basis e };

    fn from(fault: BasisFault<u16>) -> Fault {
        match fault {
            BasisFault::Above(
                BasisBound {
                    vector,
                    degree,
                    which,
                },
            ) => Fault::Bound(BoundFault::BasisBound {
                which,
                vector,
                degree,
            }),
            BasisFault::Memory => Fault::Memory,
        }
    }
}

impl From<RankFault> for Fault {
    ghost use Rattle.invring_app.specs.Faults.{fault_of_rank};
    ghost use Rattle.std.specs.Prelude.{◌≡◌};

    ghost from_gives = { λ e f. f ≡ fault_of_rank e };

    fn from(fault: RankFault) -> Fault {
        match fault {
            RankFault::RankBound { counted } => Fault::Bound(BoundFault::RankBound { counted }),
            RankFault::Memory => Fault::Memory,
        }
    }
}
