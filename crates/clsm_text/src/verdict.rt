//! What an audit of lines answers.
ghost use Rattle.std.specs.Prelude.{◌≡◌};

use clsm_audit::FaultKind;
use std::fmt;

/// What an audit of lines answers. It is shown as the program writes it.
#[derive(Clone, Copy, Debug, PartialEq, Eq)]
pub enum Verdict {
    /// `audit ok`: the records are lawful, and their calls keep the order of real time if that is
    /// asked for.
    Lawful,
    /// `audit fault KIND LINE`: the record on this line, counted from 1, has a fault of this kind.
    Fault { kind: FaultKind, line: u64 },
    /// `audit fault Stale LINE`: the call on this line is too early.
    Stale { line: u64 },
}

impl Verdict {
    ghost use Rattle.clsm_text.specs.Audit.{status_of};

    /// The exit status of the program.
    pub fn status(&self) -> u8
        ensures { result ≡ status_of self.now }
    {
        match self {
            Verdict::Lawful => 0,
            Verdict::Fault { .. } | Verdict::Stale { .. } => 2,
        }
    }
}

impl fmt::Display for Verdict {
    ghost use Rattle.std.specs.Prelude.{Some};
    ghost use Rattle.clsm_text.specs.Audit.{verdict_text};

    ghost output = { λ verdict. Some (verdict_text verdict) };

    fn fmt<W: fmt::Write>(&self, f: &mut fmt::Formatter<W>) -> fmt::Result {
        match self {
            Verdict::Lawful => write!(f, "audit ok"),
            Verdict::Fault { kind, line } => write!(f, "audit fault {kind} {line}"),
            Verdict::Stale { line } => write!(f, "audit fault Stale {line}"),
        }
    }
}
