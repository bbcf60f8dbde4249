//! The kinds of faults, and what an audit answers in place of `Ok`.
ghost use Rattle.std.specs.Prelude.{◌≡◌};
ghost use Rattle.clsm_audit.specs.Numbers.{number_of};

use std::{error, fmt};
use thiserror::Error;

/// What is wrong with a record. The passes look for the kinds in this order.
#[derive(Clone, Copy, PartialEq, Eq, Debug)]
pub enum FaultKind {
    /// A seat, a time or a batch out of its range, or a snapshot used where it is not open at this
    /// time.
    Unknown,
    /// A write at a time at which a record with a lower index writes.
    TwoAtOneTime,
    /// A time below the due of its seat.
    TimeRanBack,
    /// A reading that is not what the writes below its time give, or stands inside a batch.
    WrongReply,
}

impl FaultKind {
    /// The number of the kind: 1 to 4.
    pub fn number(self) -> u8
        ensures { result ≡ number_of self }
    {
        match self {
            FaultKind::Unknown => 1,
            FaultKind::TwoAtOneTime => 2,
            FaultKind::TimeRanBack => 3,
            FaultKind::WrongReply => 4,
        }
    }
}

impl fmt::Display for FaultKind {
    ghost use Rattle.std.specs.Prelude.{Some};
    ghost use Rattle.clsm_audit.specs.Numbers.{name_of};

    ghost output = { λ kind. Some (name_of kind) };

    fn fmt<W: fmt::Write>(&self, f: &mut fmt::Formatter<W>) -> fmt::Result {
        match self {
            FaultKind::Unknown => write!(f, "Unknown"),
            FaultKind::TwoAtOneTime => write!(f, "TwoAtOneTime"),
            FaultKind::TimeRanBack => write!(f, "TimeRanBack"),
            FaultKind::WrongReply => write!(f, "WrongReply"),
        }
    }
}

impl error::Error for FaultKind {}

/// Why an audit does not answer that the records are lawful.
#[derive(Clone, Copy, PartialEq, Eq, Debug, Error)]
pub enum AuditError {
    /// The record at this index has a fault of this kind.
    #[error("{kind} at {index}")]
    Fault { kind: FaultKind, index: usize },
    /// There was no memory for the audit. Nothing is said of the records.
    #[error("memory")]
    Memory,
}
