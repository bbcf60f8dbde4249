//! The lines of a script.
ghost use Rattle.clsm_script.specs.Line.{Reads};

use crate::command::Command;
use clsm_text::{LineError, plain_words};
use std::alloc::Global;

/// What a line says, given without its line feed: a command, or `None` where it has no words or is
/// a comment, which begins with `#`. It is refused as bad where it is longer than 4,096 bytes, is
/// not UTF-8 or says no command, and otherwise only if memory runs out.
pub fn parse_line(alloc: Global, line: &[u8]) -> Result<Option<Command>, LineError>
    ensures { Reads line.now result }
{
    match plain_words(alloc, line)? {
        None => Ok(None),
        Some(words) => match Command::parse(alloc, &words)? {
            Some(command) => Ok(Some(command)),
            None => Err(LineError::Bad),
        },
    }
}
