//! The answers of a script as its lines, each of them written at once.
ghost use Rattle.std.specs.Prelude.{◌≡◌, ◌<◌, ◌∷◌, [], Err, IfErr, OnOk, Some, drop};
ghost use Rattle.std.specs.Io.KnownBytes.{Appends};
ghost use Rattle.clsm_store.specs.Play.{WantsMemory as CallWantsMemory};
ghost use Rattle.clsm_script.specs.Answer.{IsFault, WantsMemory};
ghost use Rattle.clsm_script.specs.Printed.{answer_text, call_text, line_of, read_text, time_text};
ghost use Rattle.clsm_script.specs.Script.{StopsLine};
ghost use Rattle.clsm_text.specs.Failure.{IsOutside};
ghost use Rattle.clsm_text.specs.declared.failure.Failure.TheVariants.{Fault, Memory};

use crate::answer::{Answer, CallAnswer};
use clsm_model::Time;
use clsm_store::{Answer as Called, Got};
use clsm_text::{Failure, Reply};
use itoa::write_digits;
use std::io::{self, Write};

/// The room for a line of two numbers.
const LINE: usize = 48;

/// Writes the answer as a line, by a room for one line. It ends the script where memory ran out,
/// which is not written, and after a fault.
#[tactic(auto, using(crate::proofs::Puts::written))]
pub fn write_answer<W: Write>(
    output: &mut W,
    shown: &mut Vec<u8>,
    answer: &Answer,
) -> Result<(), Failure>
    ensures stopped { IfErr result StopsLine }
    ensures memory { WantsMemory answer.now → result ≡ Err Memory }
    ensures is_made { OnOk result (¬ WantsMemory answer.now) }
    ensures goes_on { OnOk result (¬ IsFault answer.now) }
    ensures fault { result ≡ Err Fault → IsFault answer.now }
    ensures prints { OnOk result
        (Appends (W.contents output.old) (W.contents output.new) (line_of (answer_text answer.now))) }
    ensures prints_fault { result ≡ Err Fault →
        Appends (W.contents output.old) (W.contents output.new) (line_of (answer_text answer.now)) }
{
    if answer.wants_memory() {
        return Err(Failure::Memory);
    }
    shown.clear();
    let Ok(()) = writeln!(shown, "{answer}") else {
        return Err(Failure::Memory);
    };
    write_line(output, shown)?;
    if answer.is_fault() {
        return Err(Failure::Fault);
    }
    Ok(())
}

/// Writes what a call is answered as a line, by a room for one line. It ends the script where memory
/// ran out, which is not written.
#[tactic(auto, using(crate::proofs::Puts::written))]
pub fn write_call_answer<W: Write>(
    output: &mut W,
    shown: &mut Vec<u8>,
    answer: &Called,
) -> Result<(), Failure>
    ensures failed { IfErr result IsOutside }
    ensures memory { CallWantsMemory answer.now → result ≡ Err Memory }
    ensures is_made { OnOk result (¬ CallWantsMemory answer.now) }
    ensures prints { OnOk result
        (Appends (W.contents output.old) (W.contents output.new) (line_of (call_text answer.now))) }
{
    let wanted = answer.wants_memory();
    if wanted {
        return Err(Failure::Memory);
    }
    if let Called::Write(Ok(time)) = answer {
        write_time(output, *time)?;
        return Ok(());
    }
    if let Called::Read(got) = answer {
        return write_got(output, shown, got);
    }
    shown.clear();
    let called = CallAnswer(answer);
    let Ok(()) = writeln!(shown, "{called}") else {
        return Err(Failure::Memory);
    };
    write_line(output, shown)?;
    Ok(())
}

/// Writes what a read got as a line.
#[tactic(auto, using(crate::proofs::Puts::written))]
fn write_got<W: Write>(output: &mut W, shown: &mut Vec<u8>, got: &Got) -> Result<(), Failure>
    ensures failed { IfErr result IsOutside }
    ensures prints { OnOk result (Appends (W.contents output.old) (W.contents output.new)
        (line_of (read_text got.now.value got.now.time))) }
{
    if let Some(value) = &got.value {
        if let [word] = value.words() {
            write_word(output, *word, got.time)?;
            return Ok(());
        }
    }
    shown.clear();
    let value = Reply(&got.value);
    let Ok(()) = writeln!(shown, "{value} @{}", got.time) else {
        return Err(Failure::Memory);
    };
    write_line(output, shown)?;
    Ok(())
}

/// Writes a line, which ends in a line feed, and flushes it.
fn write_line<W: Write>(output: &mut W, line: &[u8]) -> io::Result<()>
    ensures { OnOk result (Appends (W.contents output.old) (W.contents output.new) line.now) }
{
    output.write_all(line)?;
    output.flush()
}

/// Writes a time as a line.
fn write_time<W: Write>(output: &mut W, time: Time) -> io::Result<()>
    ensures { OnOk result
        (Appends (W.contents output.old) (W.contents output.new) (line_of (time_text time))) }
{
    let mut line = [b'\n'; LINE];
    let start = put_time(&mut line, time);
    write_line(output, &line[start..])
}

/// Writes a word and the time at which it was read as a line.
fn write_word<W: Write>(output: &mut W, word: u64, time: Time) -> io::Result<()>
    ensures { OnOk result
        (Appends (W.contents output.old) (W.contents output.new) (line_of (read_text (Some (word ∷ [])) time))) }
{
    let mut line = [b'\n'; LINE];
    let end = put_time(&mut line, time) - 1;
    line[end] = b' ';
    let start = write_digits(word, &mut line, end);
    write_line(output, &line[start..])
}

/// Puts a time before the line feed that is the last byte of the line, and answers where it starts.
#[inline]
fn put_time(line: &mut [u8; LINE], time: Time) -> usize
    requires { drop 47 line.old ≡ 10 ∷ [] }
    ensures start { 22 < result }
    ensures inside { result < 48 }
    ensures written { drop result line.new ≡ line_of (time_text time) }
{
    let start = write_digits(time, line, LINE - 1) - 1;
    line[start] = b'@';
    start
}
