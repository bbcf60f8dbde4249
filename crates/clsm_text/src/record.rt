//! Records, read from lines. `written.rt` writes them.
ghost use Rattle.std.specs.Prelude.{IfOk};
ghost use Rattle.clsm_text.specs.Line.{texts_of};
ghost use Rattle.clsm_text.specs.Found.{Finds};
ghost use Rattle.clsm_text.specs.Lines.{Reads};
ghost use Rattle.clsm_text.specs.Record.{Say};

use crate::deed::parse_deed;
use crate::line::{LineError, line_words};
use crate::number::parse_number;
use crate::words::parse_seat;
use clsm_model::CallRecord;
use std::alloc::{AllocError, Global};

/// What a line says, given without its line feed: a record, or `None` where it has no words or is
/// a comment, which begins with `#`, whatever bytes it has. Any other line is refused as bad where it
/// is not UTF-8 or says no record, and otherwise only if memory runs out. A line may be as long as
/// memory allows, since a scan reads any number of rows.
pub fn parse_record(alloc: Global, line: &[u8]) -> Result<Option<CallRecord>, LineError>
    ensures { Reads line.now result }
{
    let Some(words) = line_words(alloc, line)? else {
        return Ok(None);
    };
    match parse_words(alloc, &words)? {
        Some(record) => Ok(Some(record)),
        None => Err(LineError::Bad),
    }
}

/// The record that words say. Refused if memory runs out.
pub fn parse_words(alloc: Global, words: &[&str]) -> Result<Option<CallRecord>, AllocError>
    ensures { IfOk result (Finds (Say (texts_of words.now))) }
{
    let [seat, time, deed @ ..] = words else {
        return Ok(None);
    };
    let (Some(seat), Some(time)) = (parse_seat(seat), parse_number(time)) else {
        return Ok(None);
    };
    let Some(deed) = parse_deed(alloc, deed)? else {
        return Ok(None);
    };
    Ok(Some(CallRecord { seat, time, deed }))
}
