use crate::fault::Fault;
use alg_core::{InputFault, Mono, Place};
use cert_check::Verdict;
use inv_outside::{Failed, ReadFault};
use module_groebner::Which;
use poly_module::{Poly, Vector};

/// A bound of the program that was met.
#[derive(Drop)]
pub enum BoundFault {
    /// A degree was needed that has more monomials than the limit.
    TermBound {
        degree: u32,
        count: u128,
    },
    /// The group has more elements than the limit, at least `counted`.
    GroupBound {
        counted: u64,
    },
    /// The search took these up to the last degree, and not each variable has a power in their ideal.
    NoPrimary {
        found: Vec<Poly<u16>>,
        degree: u32,
    },
    /// A module whose basis is needed has this element, of a degree over the limit, and its reduced
    /// basis has a member of such a degree.
    BasisBound {
        which: Which,
        vector: Vector<u16, Mono>,
        degree: u64,
    },
    /// There are more standard monomials than the limit, at least `counted`.
    RankBound {
        counted: u64,
    },
    /// The certificate is longer than the limit: so many bytes, or 18446744073709551615 where it is longer.
    TextBound {
        bytes: u64,
    },
}

/// How a run ended.
#[derive(Drop)]
pub enum Status {
    Done,
    /// A certificate does not hold: its first condition that fails, and the item; never `Accepted`.
    Rejected(Verdict),
    /// The words are no command.
    Usage,
    /// The bytes are no script, or no certificate.
    Syntax(Place),
    /// They are too many, or a script or a certificate with a faulty value.
    Input(InputFault),
    Bound(BoundFault),
    /// The source failed.
    ReadFault,
    /// The output failed.
    WriteFault,
    /// Memory was refused.
    Memory,
}

impl Status {
    ghost use Rattle.std.specs.Prelude.{◌≡◌};
    ghost use Rattle.invring_app.specs.Outcomes.{exit_code, status_after};

    /// The exit status of the program.
    pub fn code(&self) -> u8
        ensures is { result ≡ exit_code self.now }
    {
        match self {
            Status::Done => 0,
            Status::Rejected(_) => 1,
            Status::Usage => 2,
            Status::Syntax(_) => 3,
            Status::Input(_) => 4,
            Status::Bound(_) => 5,
            Status::ReadFault => 6,
            Status::WriteFault => 7,
            Status::Memory => 8,
        }
    }

    /// The status of a run with this outcome.
    pub(crate) fn after(outcome: Result<(), Status>) -> Status
        ensures is { result ≡ status_after outcome }
    {
        match outcome {
            Ok(()) => Status::Done,
            Err(status) => status,
        }
    }
}

impl From<ReadFault> for Status {
    ghost use Rattle.std.specs.Prelude.{◌≡◌};
    ghost use Rattle.invring_app.specs.Outcomes.{status_of_read};

    ghost from_gives = { λ e s. s ≡ status_of_read e };

    fn from(fault: ReadFault) -> Status {
        match fault {
            ReadFault::Failed => Status::ReadFault,
            ReadFault::Memory => Status::Memory,
        }
    }
}

impl From<Fault> for Status {
    ghost use Rattle.std.specs.Prelude.{◌≡◌};
    ghost use Rattle.invring_app.specs.Outcomes.{status_of_fault};

    ghost from_gives = { λ e s. s ≡ status_of_fault e };

    fn from(fault: Fault) -> Status {
        match fault {
            Fault::Syntax(place) => Status::Syntax(place),
            Fault::Input(fault) => Status::Input(fault),
            Fault::Bound(fault) => Status::Bound(fault),
            Fault::Memory => Status::Memory,
        }
    }
}

impl From<Failed> for Status {
    ghost use Rattle.std.specs.Prelude.{◌≡◌};
    ghost use Rattle.invring_app.specs.declared.status.Status.TheVariants as statuses;

    ghost from_gives = { λ _ s. s ≡ statuses.WriteFault };

    fn from(_: Failed) -> Status {
        Status::WriteFault
    }
}
