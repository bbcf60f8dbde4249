//! Why a measurement does not end well.
use clsm_session::SessionError;
use std::alloc::AllocError;
use std::io;
use thiserror::Error;

/// Why a measurement does not end well.
#[derive(Clone, Copy, Debug, Error)]
pub enum Failure {
    /// A write failed, or the clock or the words on the command line could not be read.
    #[error("device")]
    Device,
    /// The store was not opened.
    #[error("refused")]
    Refused,
    /// A call was not answered as it should be.
    #[error("unanswered")]
    Unanswered,
    #[error("no memory")]
    Memory,
    /// No line is measured.
    #[error("the series has no such line, or not for so many threads")]
    NoLine,
}

/// Why the program does not measure to its end.
#[derive(Drop)]
pub enum Stop {
    /// The words on the command line are no command line of the program, or ask for help.
    Words(clap::Error),
    Failed(Failure),
}

impl From<clap::Error> for Stop {
    fn from(error: clap::Error) -> Stop {
        Stop::Words(error)
    }
}

impl From<Failure> for Stop {
    fn from(failure: Failure) -> Stop {
        Stop::Failed(failure)
    }
}

impl From<AllocError> for Stop {
    fn from(_error: AllocError) -> Stop {
        Stop::Failed(Failure::Memory)
    }
}

impl From<io::Error> for Failure {
    fn from(_error: io::Error) -> Failure {
        Failure::Device
    }
}

impl From<AllocError> for Failure {
    fn from(_error: AllocError) -> Failure {
        Failure::Memory
    }
}

impl From<SessionError> for Failure {
    fn from(error: SessionError) -> Failure {
        match error {
            SessionError::Open(_) => Failure::Refused,
            SessionError::NoThread | SessionError::Memory => Failure::Memory,
        }
    }
}
