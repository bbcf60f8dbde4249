//! What the cases of a row call: a command line, or an audit of records.

use clsm_audit::{AuditError, audit};
use clsm_command::{Ended, command};
use clsm_model::{CallRecord, Config};
use clsm_text::{LineError, Streams, parse_record};
use std::alloc::{AllocError, Global};
use std::rt::Clock;
use std::sync::Wait;
use std::thread::Threads;

/// What a case printed, and its status.
#[derive(PartialEq, Eq, Drop)]
pub(crate) struct Played {
    pub(crate) output: Vec<u8>,
    pub(crate) faults: Vec<u8>,
    pub(crate) status: u8,
}

/// Plays a case: a command line, or `audit SEATS`, whose input are records as `clsm audit` reads them.
pub(crate) fn play<T: Threads + Sync + Clock + Wait>(
    rt: &T,
    alloc: Global,
    call: &str,
    input: &[u8],
) -> Result<Played, AllocError> {
    match call.strip_prefix("audit ") {
        Some(seats) => play_audit(alloc, seats.parse().unwrap_or(0), input),
        None => play_command(rt, alloc, call, input),
    }
}

fn play_command<T: Threads + Sync + Clock + Wait>(
    rt: &T,
    alloc: Global,
    call: &str,
    input: &[u8],
) -> Result<Played, AllocError> {
    let words = words_of(alloc, call)?;
    let mut faults = Vec::new(alloc);
    let streams = Streams {
        input,
        output: Vec::new(alloc),
        faults: &mut faults,
    };
    let Ended { status, output } = command(rt, alloc, &words, streams);
    Ok(Played {
        output,
        faults,
        status,
    })
}

/// The words of a command line. Quotes keep a word together.
fn words_of(alloc: Global, call: &str) -> Result<Vec<&str>, AllocError> {
    let mut words = Vec::new(alloc);
    for (place, part) in call.split('"').enumerate() {
        if place % 2 == 1 {
            words.push(part)?;
            continue;
        }
        for word in part.split(' ') {
            if !word.is_empty() {
                words.push(word)?;
            }
        }
    }
    Ok(words)
}

/// Calls `audit` with the records, and tells its answer.
fn play_audit(alloc: Global, seats: usize, input: &[u8]) -> Result<Played, AllocError> {
    let config = Config {
        cells: 4,
        seats,
        shards: 2,
        run: 64,
        patience: 8,
    };
    let output = match records_of(alloc, input)? {
        None => format!(in alloc; "no records\n")?,
        Some(records) => match audit(alloc, &config, &records) {
            Ok(()) => format!(in alloc; "Ok\n")?,
            Err(AuditError::Fault { kind, index }) => {
                format!(in alloc; "{kind} index {index}\n")?
            }
            Err(AuditError::Memory) => return Err(AllocError),
        },
    };
    Ok(Played {
        output: output.into_bytes(),
        faults: Vec::new(alloc),
        status: 0,
    })
}

/// The records that lines say; none where one says no record.
fn records_of(alloc: Global, input: &[u8]) -> Result<Option<Vec<CallRecord>>, AllocError> {
    let mut records = Vec::new(alloc);
    for line in input.split(|byte| *byte == b'\n') {
        match parse_record(alloc, line) {
            Ok(Some(record)) => records.push(record)?,
            Ok(None) => {}
            Err(LineError::Bad) => return Ok(None),
            Err(LineError::Memory) => return Err(AllocError),
        }
    }
    Ok(Some(records))
}
