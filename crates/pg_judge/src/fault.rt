//! Why a text isn't accepted.
use pg_base::Memory;
use pg_cert_files::CertFault;
use pg_check::Rejected;
use std::alloc::AllocError;

/// Why a text isn't accepted as a certificate for a game.
#[derive(Clone, Copy, Debug, PartialEq, Eq)]
pub enum JudgeFault {
    /// It has this fault of form.
    Form {
        /// The number of the fault: 1 to 6.
        number: u8,
        /// The number of its line from 1, or 0 for the whole text.
        line: u32,
    },
    /// It says a certificate that isn't valid for the game.
    Reject {
        /// The first faulty claim, from 0.
        claim: u32,
        /// Its first faulty node, from 0.
        node: u32,
        /// The least fault of the node: 1 to 13.
        why: u8,
    },
    /// No memory is left.
    Memory,
}

impl From<Memory> for JudgeFault {
    ghost use Rattle.std.specs.Prelude.{◌≡◌};
    ghost use Rattle.pg_judge.specs.declared.fault.JudgeFault.TheVariants as faults;

    ghost from_gives = { λ _ fault. fault ≡ faults.Memory };

    fn from(_: Memory) -> JudgeFault {
        JudgeFault::Memory
    }
}

impl From<AllocError> for JudgeFault {
    ghost use Rattle.std.specs.Prelude.{◌≡◌};
    ghost use Rattle.pg_judge.specs.declared.fault.JudgeFault.TheVariants as faults;

    ghost from_gives = { λ _ fault. fault ≡ faults.Memory };

    fn from(_: AllocError) -> JudgeFault {
        JudgeFault::Memory
    }
}

impl From<CertFault> for JudgeFault {
    ghost use Rattle.std.specs.Prelude.{◌≡◌};
    ghost use Rattle.pg_judge.specs.Judged.{of_form};

    ghost from_gives = { λ bad fault. fault ≡ of_form bad };

    fn from(bad: CertFault) -> JudgeFault {
        match bad {
            CertFault::Bad { number, line } => JudgeFault::Form { number, line },
            CertFault::Memory => JudgeFault::Memory,
        }
    }
}

impl From<Rejected> for JudgeFault {
    ghost use Rattle.std.specs.Prelude.{◌≡◌};
    ghost use Rattle.pg_judge.specs.declared.fault.JudgeFault.TheVariants as faults;

    ghost from_gives = { λ rejected fault. fault
        ≡ faults.Reject rejected.claim rejected.node rejected.why };

    fn from(rejected: Rejected) -> JudgeFault {
        JudgeFault::Reject {
            claim: rejected.claim,
            node: rejected.node,
            why: rejected.why,
        }
    }
}
