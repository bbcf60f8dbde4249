//! What a run prints.
ghost use Rattle.std.specs.Prelude.{◌≡◌, ◌++◌, IfErr, OnOk};
ghost use Rattle.std.specs.Io.KnownBytes.{Appends, Keeps, append_known};
ghost use Rattle.clsm_workload.specs.Printed.{PrintsTimed, record_text, records_text, run_text, timed_text};
ghost use Rattle.clsm_workload.specs.Run.{StopsWork};

use crate::ran::Ran;
use crate::watch::Note;
use clsm_audit::{AuditError, Moments};
use clsm_model::CallRecord;
use clsm_text::{Failure, write_record, write_timed_record};
use std::alloc::Global;
use std::io::{self, Write};

/// Writes how many calls were made, refused ones too, and what the audit says of them. Where there
/// was no memory for it, nothing is written.
pub fn write_verdict<W: Write>(output: &mut W, calls: u64, ran: &Ran) -> io::Result<()>
    ensures { OnOk result
        (Appends (W.contents output.old) (W.contents output.new) (run_text calls ran.now.verdict)) }
{
    write_lines(output, calls, &ran.verdict)?;
    output.flush()
}

fn write_lines<W: Write>(
    output: &mut W,
    calls: u64,
    verdict: &Result<(), AuditError>,
) -> io::Result<()>
    ensures { OnOk result
        (Appends (W.contents output.old) (W.contents output.new) (run_text calls verdict.now)) }
{
    match verdict {
        Ok(()) => writeln!(output, "calls {calls}\naudit ok"),
        Err(AuditError::Fault { kind, index }) => {
            writeln!(output, "calls {calls}\naudit fault {kind} {index}")
        }
        Err(AuditError::Memory) => Ok(()),
    }
}

/// How many bytes of lines are held back before they are written.
const HELD: usize = 8192;

/// Holds a record back as a line behind the others. Refused if memory runs out.
fn hold(held: &mut Vec<u8>, call: &CallRecord) -> Result<(), Failure>
    ensures stopped { IfErr result StopsWork }
    ensures held { OnOk result (held.new.items ≡ held.old.items ++ record_text call.now) }
{
    if write_record(held, call).is_err() {
        return Err(Failure::Memory);
    }
    held.push(b'\n')?;
    Ok(())
}

/// The same, with the moments of its call.
fn hold_timed(held: &mut Vec<u8>, call: &CallRecord, moments: &Moments) -> Result<(), Failure>
    ensures stopped { IfErr result StopsWork }
    ensures held { OnOk result (held.new.items ≡ held.old.items ++ timed_text (call.now, moments.now)) }
{
    if write_timed_record(held, call, moments).is_err() {
        return Err(Failure::Memory);
    }
    held.push(b'\n')?;
    Ok(())
}

/// Writes what is held back once it is enough.
fn pass_enough<W: Write>(output: &mut W, held: &mut Vec<u8>) -> io::Result<()>
    ensures { OnOk result (Keeps (append_known (W.contents output.old) held.old.items)
        (append_known (W.contents output.new) held.new.items)) }
{
    if held.len() < HELD {
        return Ok(());
    }
    output.write_all(held.as_slice())?;
    held.clear();
    Ok(())
}

/// Writes what is held back.
fn pass<W: Write>(output: &mut W, held: &[u8]) -> io::Result<()>
    ensures { OnOk result (Appends (W.contents output.old) (W.contents output.new) held.now) }
{
    output.write_all(held)?;
    output.flush()
}

/// Writes each record as a line. Refused with `Memory` if that runs out, and with `Device` where a
/// write failed.
pub fn write_records<W: Write>(
    alloc: Global,
    output: &mut W,
    records: &[CallRecord],
) -> Result<(), Failure>
    ensures stopped { IfErr result StopsWork }
    ensures prints { OnOk result
        (Appends (W.contents output.old) (W.contents output.new) (records_text records.now)) }
{
    let mut held = Vec::new(alloc);
    for record in records {
        hold(&mut held, record)?;
        pass_enough(output, &mut held)?;
    }
    pass(output, held.as_slice())?;
    Ok(())
}

/// The moments of a turn of which the clock told none: it may have been taken at any.
const ANY: Moments = Moments {
    begin: 0,
    end: u64::MAX,
};

/// The place of a record among the notes: the note of its turn, and how many records of that turn
/// stand before it.
#[derive(Clone, Copy)]
struct Noted {
    place: usize,
    before: usize,
}

/// The moments of the turn of the record at this place, and the place of the next record.
fn next_moments(notes: &[Note], from: Noted) -> (Moments, Noted) {
    let mut before = from.before;
    for place in from.place..notes.len() {
        let note = notes[place];
        if before < note.records {
            let next = Noted {
                place,
                before: before + 1,
            };
            return (note.moments.unwrap_or(ANY), next);
        }
        before = 0;
    }
    let end = Noted {
        place: notes.len(),
        before: 0,
    };
    (ANY, end)
}

/// Writes each record as a line that ends in the moments of its call. Refused as `write_records`
/// is.
pub fn write_clocked<W: Write>(
    alloc: Global,
    output: &mut W,
    records: &[CallRecord],
    notes: &[Note],
) -> Result<(), Failure>
    ensures stopped { IfErr result StopsWork }
    ensures prints { OnOk result
        (PrintsTimed records.now (W.contents output.old) (W.contents output.new)) }
{
    let mut held = Vec::new(alloc);
    let mut place = Noted {
        place: 0,
        before: 0,
    };
    for record in records {
        let (moments, behind) = next_moments(notes, place);
        place = behind;
        hold_timed(&mut held, record, &moments)?;
        pass_enough(output, &mut held)?;
    }
    pass(output, held.as_slice())?;
    Ok(())
}
