//! Records with the moments at which their calls began and ended, as lines.
ghost use Rattle.std.specs.Prelude.{◌≡◌, ◌≢◌, ℕ, ◌++◌, ◌∷◌, [], codes, List, IfNone, IfOk, IfSome};
ghost use Rattle.clsm_text.specs.Found.{Finds};
ghost use Rattle.clsm_text.specs.Line.{texts_of};
ghost use Rattle.clsm_text.specs.Lines.{ReadsLine, SayLine, SayTimed, WriteMoments};

use crate::line::{LineError, line_words};
use crate::number::parse_number;
use crate::record::parse_words;
use clsm_audit::Moments;
use clsm_model::CallRecord;
use std::alloc::{AllocError, Global};

/// A record as a line says it, with the moments of its call where they stand behind it.
#[derive(Drop)]
pub struct RecordLine {
    pub record: CallRecord,
    pub moments: Option<Moments>,
}

/// What a line says, given without its line feed: a record, behind which ` | BEGIN END` may stand,
/// or has to if the line is to be timed; or `None` where it has no words or is a comment, which
/// begins with `#`, whatever bytes it has. `BEGIN` and `END` are numbers, the first not above the
/// second. Any other line is refused as bad where it is not UTF-8 or says no such record, and
/// otherwise only if memory runs out.
pub fn parse_record_line(
    alloc: Global,
    line: &[u8],
    timed: bool,
) -> Result<Option<RecordLine>, LineError>
    ensures { ReadsLine timed line.now result }
{
    let Some(words) = line_words(alloc, line)? else {
        return Ok(None);
    };
    match parse_line(alloc, &words, timed)? {
        Some(line) => Ok(Some(line)),
        None => Err(LineError::Bad),
    }
}

/// The record that words say, with its moments or, unless it is to be timed, without. Refused if
/// memory runs out.
fn parse_line(alloc: Global, words: &[&str], timed: bool) -> Result<Option<RecordLine>, AllocError>
    ensures { IfOk result (Finds (SayLine timed (texts_of words.now))) }
{
    if let Some((record, moments)) = parse_timed(alloc, words)? {
        let moments = Some(moments);
        return Ok(Some(RecordLine { record, moments }));
    }
    if timed {
        return Ok(None);
    }
    let Some(record) = parse_words(alloc, words)? else {
        return Ok(None);
    };
    Ok(Some(RecordLine {
        record,
        moments: None,
    }))
}

/// The record that words say, and its moments behind it. Refused if memory runs out.
fn parse_timed(alloc: Global, words: &[&str]) -> Result<Option<(CallRecord, Moments)>, AllocError>
    ensures { IfOk result (Finds (λ timed. SayTimed (texts_of words.now) timed.0 timed.1)) }
{
    let Some((front, begin, finish)) = split_moments(words) else {
        return Ok(None);
    };
    let Some(moments) = parse_moments(begin, finish) else {
        return Ok(None);
    };
    let Some(record) = parse_words(alloc, front)? else {
        return Ok(None);
    };
    Ok(Some((record, moments)))
}

/// The moments that two words write; none where the first is above the second.
fn parse_moments(begin: &str, finish: &str) -> Option<Moments>
    ensures { Finds (WriteMoments begin.now finish.now) result }
{
    let begin = parse_number(begin)?;
    let end = parse_number(finish)?;
    if end < begin {
        return None;
    }
    Some(Moments { begin, end })
}

/// The words before a `|` that is the last word but two, and the two words behind it.
fn split_moments<'a>(words: &'a [&'a str]) -> Option<(&'a [&'a str], &'a str, &'a str)>
    ensures found { IfSome result (λ parts. texts_of words.now
        ≡ texts_of parts.0.now ++ (codes "|" ∷ parts.1.now ∷ parts.2.now ∷ [])) }
    ensures none { IfNone result ((front : List (List ℕ)) (begin finish : List ℕ) →
        texts_of words.now ≢ front ++ (codes "|" ∷ begin ∷ finish ∷ [])) }
{
    if words.len() < 3 {
        return None;
    }
    let place = words.len() - 3;
    if words[place] != "|" {
        return None;
    }
    Some((&words[..place], words[place + 1], words[place + 2]))
}
