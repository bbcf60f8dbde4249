//! Explanations of faults, written as lines.
use crate::judging::Judged;
use crate::listing::{Listed, TimedList};
use crate::written::{Line, Reply};
use clsm_audit::{Explanation, FoundWrite, Moments, Rule};
use clsm_model::Value;
use std::fmt;
use std::io::{self, Write};

/// Writes why the record with this index has its fault: its place, and then what the explanation
/// says, a fact a line. A place is the number of a line, or that of the record, counted from 0,
/// where it stands on none.
pub fn write_reason<W: Write>(
    output: &mut W,
    listed: &Listed,
    index: usize,
    explanation: &Explanation,
) -> io::Result<()> {
    let line = listed.place(index);
    let reason = Reason {
        listed,
        explanation,
    };
    write!(output, "{line}\n{reason}")?;
    output.flush()
}

/// Writes why the record that was judged has its fault, if that is known.
pub(crate) fn write_judged<W: Write>(
    output: &mut W,
    list: &TimedList,
    judged: &Judged,
) -> io::Result<()> {
    if let Some(explanation) = &judged.explanation {
        return write_reason(output, &list.listed, judged.index, explanation);
    }
    match judged.earlier {
        Some(earlier) => write_stale(output, list, judged.index, earlier),
        None => Ok(()),
    }
}

/// Writes that the call of the record with this index began after that of another one had ended,
/// which has a later place.
fn write_stale<W: Write>(
    output: &mut W,
    list: &TimedList,
    index: usize,
    earlier: usize,
) -> io::Result<()> {
    let line = list.place(index);
    let other = list.place(earlier);
    writeln!(
        output,
        "{line}\na call with a later place had ended before it began: {other}"
    )?;
    output.flush()
}

/// What an explanation says, a fact a line.
#[derive(Drop)]
struct Reason<'a> {
    listed: &'a Listed,
    explanation: &'a Explanation,
}

impl fmt::Display for Reason<'_> {
    fn fmt<W: fmt::Write>(&self, f: &mut fmt::Formatter<W>) -> fmt::Result {
        let listed = self.listed;
        match self.explanation {
            Explanation::Unknown { rule } => write_rule(f, rule),
            Explanation::TwoAtOneTime { other, time } => {
                let line = listed.place(*other);
                writeln!(f, "time {time} is written by {line}")
            }
            Explanation::TimeRanBack { earlier, due } => {
                let line = listed.place(*earlier);
                writeln!(f, "the times of its seat are from {due} on, after {line}")
            }
            Explanation::InsideBatch { batch } => {
                let line = listed.place(*batch);
                writeln!(f, "its time is inside the batch of {line}")
            }
            reading => write_reading(f, listed, reading),
        }
    }
}

/// Writes which rule makes a record unknown.
fn write_rule<W: fmt::Write>(f: &mut fmt::Formatter<W>, rule: &Rule) -> fmt::Result {
    match rule {
        Rule::Seat => writeln!(f, "the seat is out of range"),
        Rule::Size => writeln!(f, "the batch is longer than --cells"),
        Rule::Time => writeln!(f, "the time is out of range"),
        Rule::Members => writeln!(f, "the batch has no member, or one that keeps its key"),
        Rule::Snapshot { opened: Some(time) } => {
            writeln!(f, "the seat has a snapshot open at time {time}")
        }
        Rule::Snapshot { opened: None } => writeln!(f, "the seat has no snapshot open"),
    }
}

/// Writes what is wrong with what was read, and for a key the writes that show it.
fn write_reading<W: fmt::Write>(
    f: &mut fmt::Formatter<W>,
    listed: &Listed,
    reading: &Explanation,
) -> fmt::Result {
    match reading {
        Explanation::WrongValue { key, answered, .. } => {
            write!(f, "read {} at key {key}", Reply(answered))?;
        }
        Explanation::WrongRow {
            number,
            answered,
            ..
        } => {
            write!(f, "row {number}, counted from 0, is {}", Row(answered))?;
        }
        Explanation::WrongNext { answered, .. } => {
            write!(f, "the next key is {}", Next(answered))?;
        }
        _ => return Ok(()),
    }
    let right = Right(reading);
    writeln!(f, ", and the writes below its time give {right}")?;
    write_sources(f, listed, reading)
}

/// What should have been read.
#[derive(Drop)]
struct Right<'a>(&'a Explanation);

impl fmt::Display for Right<'_> {
    fn fmt<W: fmt::Write>(&self, f: &mut fmt::Formatter<W>) -> fmt::Result {
        match self.0 {
            Explanation::WrongValue { right, .. } => write!(f, "{}", Reply(right)),
            Explanation::WrongRow { right, .. } => write!(f, "{}", Row(right)),
            Explanation::WrongNext { right, .. } => write!(f, "{}", Next(right)),
            _ => Ok(()),
        }
    }
}

/// Writes the newest write of a key that was read wrongly, and the one that left what was read.
fn write_sources<W: fmt::Write>(
    f: &mut fmt::Formatter<W>,
    listed: &Listed,
    reading: &Explanation,
) -> fmt::Result {
    let (Explanation::WrongValue {
        key,
        newest,
        seen,
        ..
    }
    | Explanation::WrongRow {
        key,
        newest,
        seen,
        ..
    }) = reading
    else {
        return Ok(());
    };
    let newest = Source {
        listed,
        found: newest,
    };
    let seen = Source {
        listed,
        found: seen,
    };
    writeln!(
        f,
        "newest write of key {key}: {newest}\nwrite of what was read: {seen}"
    )
}

/// A write by its time and place, or `none`.
#[derive(Drop)]
struct Source<'a> {
    listed: &'a Listed,
    found: &'a Option<FoundWrite>,
}

impl fmt::Display for Source<'_> {
    fn fmt<W: fmt::Write>(&self, f: &mut fmt::Formatter<W>) -> fmt::Result {
        let Some(found) = self.found else {
            return write!(f, "none");
        };
        let time = found.time;
        let line = self.listed.place(found.index);
        write!(f, "time {time}, {line}")
    }
}

/// A record with its place, and with its moments where they are given.
#[derive(Drop)]
struct Place<'a> {
    listed: &'a Listed,
    index: usize,
    moments: Option<&'a Moments>,
}

impl Listed {
    /// The record with this index and its place.
    fn place(&self, index: usize) -> Place<'_> {
        Place {
            listed: self,
            index,
            moments: None,
        }
    }
}

impl TimedList {
    /// The same, and its moments.
    fn place(&self, index: usize) -> Place<'_> {
        Place {
            moments: self.moments.get(index),
            ..self.listed.place(index)
        }
    }
}

impl fmt::Display for Place<'_> {
    fn fmt<W: fmt::Write>(&self, f: &mut fmt::Formatter<W>) -> fmt::Result {
        let index = self.index;
        match self.listed.lines.get(index) {
            Some(number) => write!(f, "line {number}")?,
            None => write!(f, "record {index}")?,
        }
        if let Some(record) = self.listed.records.get(index) {
            let record = Line(record);
            write!(f, ": {record}")?;
        }
        if let Some(Moments { begin, end }) = self.moments {
            write!(f, " | {begin} {end}")?;
        }
        Ok(())
    }
}

/// A row, or `none`.
#[derive(Drop)]
struct Row<'a>(&'a Option<(u64, Value)>);

impl fmt::Display for Row<'_> {
    fn fmt<W: fmt::Write>(&self, f: &mut fmt::Formatter<W>) -> fmt::Result {
        match self.0 {
            Some((key, value)) => write!(f, "{key}={value}"),
            None => write!(f, "none"),
        }
    }
}

/// The key of the next row, or `none`.
#[derive(Drop)]
struct Next<'a>(&'a Option<u64>);

impl fmt::Display for Next<'_> {
    fn fmt<W: fmt::Write>(&self, f: &mut fmt::Formatter<W>) -> fmt::Result {
        match self.0 {
            Some(key) => write!(f, "{key}"),
            None => write!(f, "none"),
        }
    }
}
