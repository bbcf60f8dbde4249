//! Why a program does not end well: its line on the faults, and its exit status.
ghost use Rattle.std.specs.Prelude.{◌≡◌};

use clsm_model::OpenError;
use std::alloc::{AllocError, AllocFailed};
use std::error::Error;
use std::fmt;
use std::io::{self, Write};

/// Why a program does not end well. It is shown as the program writes it.
#[derive(Clone, Copy, Debug, PartialEq, Eq)]
pub enum Failure {
    /// The line of this number, counted from 1, is bad.
    BadLine(u64),
    /// A read or a write failed.
    Device,
    /// An audit or an exploration found a fault, and the program has printed it on its output.
    Fault,
    /// The store was not opened.
    Refused(OpenError),
    /// Memory was wanted after the opening.
    Memory,
}

impl fmt::Display for Failure {
    fn fmt<W: fmt::Write>(&self, f: &mut fmt::Formatter<W>) -> fmt::Result {
        match self {
            Failure::BadLine(number) => write!(f, "bad line {number}"),
            Failure::Device => write!(f, "device"),
            Failure::Fault => write!(f, "fault"),
            Failure::Refused(error) => {
                let (number, size) = (error.number(), name_of(*error));
                write!(f, "refused {number} {size}")
            }
            Failure::Memory => write!(f, "no memory"),
        }
    }
}

/// The size that is out of its range, or `memory`.
fn name_of(error: OpenError) -> &'static str {
    match error {
        OpenError::Cells(_) => "cells",
        OpenError::Seats(_) => "seats",
        OpenError::Shards(_) => "shards",
        OpenError::Run(_) => "run",
        OpenError::Memory => "memory",
        OpenError::Patience(_) => "patience",
    }
}

impl Error for Failure {}

impl Failure {
    ghost use Rattle.clsm_text.specs.Failure.{status_of};
    ghost use Rattle.clsm_text.specs.declared.failure.Failure.TheVariants.{Fault};

    /// The exit status of the program: 1 for a bad line or a device, 2 for a fault, and 3 for a
    /// refused opening or no memory.
    pub fn status(self) -> u8
        ensures { result ≡ status_of self }
    {
        match self {
            Failure::BadLine(_) | Failure::Device => 1,
            Failure::Fault => 2,
            Failure::Refused(_) | Failure::Memory => 3,
        }
    }

    /// Writes the failure to the faults as a line, and flushes them. Of a fault nothing is written.
    pub fn report<E: Write>(self, faults: &mut E) -> io::Result<()>
        ensures { self ≡ Fault → faults.new ≡ faults.old }
    {
        if matches!(self, Failure::Fault) {
            return Ok(());
        }
        writeln!(faults, "{self}")?;
        faults.flush()
    }
}

impl From<io::Error> for Failure {
    ghost use Rattle.clsm_text.specs.declared.failure.Failure.TheVariants.{Device};

    ghost from_gives = { λ _ failure. failure ≡ Device };

    fn from(_error: io::Error) -> Failure {
        Failure::Device
    }
}

impl From<OpenError> for Failure {
    ghost use Rattle.clsm_text.specs.declared.failure.Failure.TheVariants.{Refused};

    ghost from_gives = { λ error failure. failure ≡ Refused error };

    fn from(error: OpenError) -> Failure {
        Failure::Refused(error)
    }
}

impl From<AllocError> for Failure {
    ghost use Rattle.clsm_text.specs.declared.failure.Failure.TheVariants.{Memory};

    ghost from_gives = { λ _ failure. failure ≡ Memory };

    fn from(_error: AllocError) -> Failure {
        Failure::Memory
    }
}

impl<T: Drop> From<AllocFailed<T>> for Failure {
    ghost use Rattle.clsm_text.specs.declared.failure.Failure.TheVariants.{Memory};

    ghost from_gives = { λ _ failure. failure ≡ Memory };

    fn from(_error: AllocFailed<T>) -> Failure {
        Failure::Memory
    }
}
