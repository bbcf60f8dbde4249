//! Why the words of a command line give no options.
ghost use Rattle.std.specs.Prelude.{◌≡◌};
ghost use Rattle.clsm_command.specs.Answers.{refusal_of};

use clap::error::ErrorKind;
use std::alloc::AllocError;
use thiserror::Error;

/// Why no options were read. Shown, each is the text for its reader, with its last line ended.
#[derive(Debug, Drop, Error)]
pub enum Refusal {
    /// The words are no command line of the program. The text is for the standard error.
    #[error("{0}")]
    Words(clap::Error),
    /// The words ask for help or for the version. The text is for the standard output.
    #[error("{0}")]
    Help(clap::Error),
    /// A word is no text.
    #[error("error: a word of the command line is not UTF-8\n")]
    NotText,
    /// There was no memory.
    #[error("error: out of memory\n")]
    Memory,
}

impl From<clap::Error> for Refusal {
    ghost from_gives = { λ error refusal. refusal ≡ refusal_of error };

    fn from(error: clap::Error) -> Refusal {
        match error.kind() {
            ErrorKind::DisplayHelp | ErrorKind::DisplayVersion => Refusal::Help(error),
            ErrorKind::OutOfMemory => Refusal::Memory,
            _ => Refusal::Words(error),
        }
    }
}

impl From<AllocError> for Refusal {
    ghost use Rattle.clsm_command.specs.declared.refusal.Refusal.TheVariants.{Memory};

    ghost from_gives = { λ _ refusal. refusal ≡ Memory };

    fn from(_: AllocError) -> Refusal {
        Refusal::Memory
    }
}
