//! Records and deeds, written as words of a line. `record.rt` and `deed.rt` read them.
ghost use Rattle.std.specs.Prelude.{OnOk, Some, map};
ghost use Rattle.std.specs.Io.KnownBytes.{Appends};
ghost use Rattle.clsm_text.specs.Written.{reply_text, change_text, row_text, more_words, spaced, member_text};
ghost use Rattle.clsm_text.specs.Written.{deed_text, line_of, timed_line_of};

use clsm_audit::Moments;
use clsm_model::{CallRecord, Change, Deed, Members, PageRange, Value};
use std::fmt;
use std::io::{self, Write};

/// Writes a record as its line, without a line feed.
pub fn write_record<W: Write>(output: &mut W, call: &CallRecord) -> io::Result<()>
    ensures { OnOk result
        (Appends (W.contents output.old) (W.contents output.new) (line_of call.now)) }
{
    let line = Line(call);
    write!(output, "{line}")
}

/// Writes a record and the moments of its call as its line, without a line feed.
pub fn write_timed_record<W: Write>(
    output: &mut W,
    call: &CallRecord,
    moments: &Moments,
) -> io::Result<()>
    ensures { OnOk result
        (Appends (W.contents output.old) (W.contents output.new) (timed_line_of call.now moments.now)) }
{
    let line = TimedLine(call, moments);
    write!(output, "{line}")
}

/// A record and the moments of its call as its line, without a line feed.
#[derive(Drop)]
struct TimedLine<'a>(&'a CallRecord, &'a Moments);

impl fmt::Display for TimedLine<'_> {
    ghost output = { λ line. Some (timed_line_of line.0.now line.1.now) };

    fn fmt<W: fmt::Write>(&self, f: &mut fmt::Formatter<W>) -> fmt::Result {
        let line = Line(self.0);
        let Moments { begin, end } = *self.1;
        write!(f, "{line} | {begin} {end}")
    }
}

/// A record as its line, without a line feed.
#[derive(Drop)]
pub struct Line<'a>(pub &'a CallRecord);

impl fmt::Display for Line<'_> {
    ghost output = { λ line. Some (line_of line.0.now) };

    fn fmt<W: fmt::Write>(&self, f: &mut fmt::Formatter<W>) -> fmt::Result {
        let record = self.0;
        let seat = record.seat;
        let time = record.time;
        let deed = Told(&record.deed);
        write!(f, "{seat} {time} {deed}")
    }
}

/// A deed: its name, and what follows it.
#[derive(Drop)]
pub struct Told<'a>(pub &'a Deed);

impl fmt::Display for Told<'_> {
    ghost output = { λ told. Some (deed_text told.0.now) };

    #[tactic(auto, using(crate::proofs::Texts::joined, crate::proofs::Texts::joined_two))]
    fn fmt<W: fmt::Write>(&self, f: &mut fmt::Formatter<W>) -> fmt::Result {
        match self.0 {
            Deed::Put { key, value } => write!(f, "put {key} {value}"),
            Deed::Remove { key } => write!(f, "remove {key}"),
            Deed::Rmw { key, old, change } => {
                let old = Reply(old);
                let change = Changed(change);
                write!(f, "rmw {key} {old} {change}")
            }
            Deed::Get { key, reply } => {
                let reply = Reply(reply);
                write!(f, "get {key} {reply}")
            }
            Deed::Snapshot => write!(f, "snap"),
            Deed::Close => write!(f, "close"),
            Deed::GetAt { key, reply } => {
                let reply = Reply(reply);
                write!(f, "getat {key} {reply}")
            }
            Deed::Scan { lo, hi, rows } => {
                let rows = RowWords(rows.as_slice());
                write!(f, "scan {lo} {hi}{rows}")
            }
            Deed::Page { range, rows, more } => {
                let PageRange { from, hi, max } = range;
                let rows = RowWords(rows.as_slice());
                let more = More(more);
                write!(f, "page {from} {hi} {max}{rows}{more}")
            }
            Deed::Batch { members } => {
                let members = MemberWords(members);
                write!(f, "batch{members}")
            }
        }
    }
}

/// A value, or `none` where there is none.
#[derive(Drop)]
pub struct Reply<'a>(pub &'a Option<Value>);

impl fmt::Display for Reply<'_> {
    ghost output = { λ reply. Some (reply_text reply.0.now) };

    fn fmt<W: fmt::Write>(&self, f: &mut fmt::Formatter<W>) -> fmt::Result {
        match self.0 {
            Some(value) => write!(f, "{value}"),
            None => write!(f, "none"),
        }
    }
}

/// A change: `keep`, the new value, or `none` for a removal.
#[derive(Drop)]
struct Changed<'a>(&'a Change);

impl fmt::Display for Changed<'_> {
    ghost output = { λ changed. Some (change_text changed.0.now) };

    fn fmt<W: fmt::Write>(&self, f: &mut fmt::Formatter<W>) -> fmt::Result {
        match self.0 {
            Change::Keep => write!(f, "keep"),
            Change::Set(value) => write!(f, "{value}"),
            Change::Remove => write!(f, "none"),
        }
    }
}

/// Rows, each behind a space.
#[derive(Drop)]
pub(crate) struct RowWords<'a>(pub(crate) &'a [(u64, Value)]);

impl fmt::Display for RowWords<'_> {
    ghost output = { λ listed. Some (spaced (map row_text listed.0.now)) };

    fn fmt<W: fmt::Write>(&self, f: &mut fmt::Formatter<W>) -> fmt::Result {
        for (key, value) in self.0 {
            write!(f, " {key}={value}")?;
        }
        Ok(())
    }
}

/// The members of a batch, each behind a space.
#[derive(Drop)]
pub struct MemberWords<'a>(pub &'a Members);

impl fmt::Display for MemberWords<'_> {
    ghost output = { λ listed. Some (spaced (map member_text listed.0.now)) };

    fn fmt<W: fmt::Write>(&self, f: &mut fmt::Formatter<W>) -> fmt::Result {
        for (key, change) in self.0.as_slice() {
            let change = Changed(change);
            write!(f, " {key}={change}")?;
        }
        Ok(())
    }
}

/// The key of the next row behind ` more `, or nothing.
#[derive(Drop)]
pub struct More<'a>(pub &'a Option<u64>);

impl fmt::Display for More<'_> {
    ghost output = { λ more. Some (spaced (more_words more.0.now)) };

    fn fmt<W: fmt::Write>(&self, f: &mut fmt::Formatter<W>) -> fmt::Result {
        match self.0 {
            Some(key) => write!(f, " more {key}"),
            None => Ok(()),
        }
    }
}
