//! What commands answer, as it is printed.
ghost use Rattle.std.specs.Prelude.{◌↔◌, IsTrue, Some};
ghost use Rattle.clsm_script.specs.Printed.{answer_text, call_text, change_text};

use clsm_audit::AuditError;
use clsm_model::{Change, Time};
use clsm_store::{
    Answer as Called, BatchError, FreezeError, Full, Got, MergeError, Open, Page, Pinned,
    ReclaimError, Rmw, Scan, TryPutError,
};
use clsm_text::{More, Reply, ShownRows};
use std::fmt;

/// What a command answers. It is shown as the program writes it.
#[derive(Debug, Drop)]
pub enum Answer {
    /// What a call answers. A script ends where that is a refusal of memory.
    ///
    /// - Of a write `@T`, or why nothing was written: `full @T`, `busy`, `raced` or `overtaken`.
    /// - Of a batch `@T`, the time of the first member; or why nothing was written: `full @T`,
    ///   `too long`, `empty` or `keep`.
    /// - Of a change `old V new W @T`, with `none` for a key that had no value; `kept V @T`; or
    ///   `full @T`.
    /// - Of a read `V @T`, or `none @T` where the key has no value; under a snapshot `no snapshot`
    ///   where none is open.
    /// - Of `snap` `snap @T`, or `open @T` where a snapshot of that time is open; of `close`
    ///   `closed @T`, or `no snapshot`.
    /// - Of a scan `K=V` for each row, then `@T`; `empty @T` where there is no row. Of a page the
    ///   same, then `more K` where a row is left out.
    Call(Called),
    /// `seat S` with the number of the seat that makes the calls that follow, or `no seat`.
    Seat(Option<usize>),
    /// `met @T`, or `no seat`.
    Meet(Option<Time>),
    /// `audit ok`, or `audit fault KIND INDEX`. A script ends at a fault, and where the audit is
    /// refused memory.
    Audit(Result<(), AuditError>),
    /// `frozen E`, the number of the frozen epoch; or why none was frozen: `not clean` or `worn`.
    Freeze(Result<u64, FreezeError>),
    /// `merged M`, the new number of merges; or why nothing was merged: `not frozen` or `run full`.
    Merge(Result<u64, MergeError>),
    /// `clean`; or why nothing was reclaimed: `not retired`, or `pinned S` with the number of a
    /// seat.
    Reclaim(Result<(), ReclaimError>),
}

impl Answer {
    ghost use Rattle.clsm_script.specs.Answer.{IsFault, WantsMemory};

    /// Whether the command was refused memory.
    pub fn wants_memory(&self) -> bool
        ensures { IsTrue result ↔ WantsMemory self.now }
    {
        match self {
            Answer::Call(answer) => answer.wants_memory(),
            answer => matches!(answer, Answer::Audit(Err(AuditError::Memory))),
        }
    }

    /// Whether an audit found a fault.
    pub fn is_fault(&self) -> bool
        ensures { IsTrue result ↔ IsFault self.now }
    {
        matches!(self, Answer::Audit(Err(AuditError::Fault { .. })))
    }
}

impl fmt::Display for Answer {
    ghost output = { λ answer. Some (answer_text answer) };

    fn fmt<W: fmt::Write>(&self, f: &mut fmt::Formatter<W>) -> fmt::Result {
        match self {
            Answer::Call(answer) => {
                let answer = CallAnswer(answer);
                write!(f, "{answer}")
            }
            Answer::Seat(Some(number)) => write!(f, "seat {number}"),
            Answer::Meet(Some(time)) => write!(f, "met @{time}"),
            Answer::Seat(None) | Answer::Meet(None) => write!(f, "no seat"),
            Answer::Audit(Ok(())) => write!(f, "audit ok"),
            Answer::Audit(Err(AuditError::Fault { kind, index })) => {
                write!(f, "audit fault {kind} {index}")
            }
            Answer::Audit(Err(AuditError::Memory)) => write!(f, "memory"),
            Answer::Freeze(Ok(epoch)) => write!(f, "frozen {epoch}"),
            Answer::Freeze(Err(FreezeError::NotClean)) => write!(f, "not clean"),
            Answer::Freeze(Err(FreezeError::Worn(_))) => write!(f, "worn"),
            Answer::Merge(Ok(merges)) => write!(f, "merged {merges}"),
            Answer::Merge(Err(MergeError::NotFrozen)) => write!(f, "not frozen"),
            Answer::Merge(Err(MergeError::RunFull(_))) => write!(f, "run full"),
            Answer::Reclaim(Ok(())) => write!(f, "clean"),
            Answer::Reclaim(Err(ReclaimError::NotRetired)) => write!(f, "not retired"),
            Answer::Reclaim(Err(ReclaimError::Pinned(Pinned(seat)))) => write!(f, "pinned {seat}"),
        }
    }
}

/// What a call is answered, as `Answer::Call` says.
#[derive(Drop)]
pub struct CallAnswer<'a>(pub &'a Called);

impl fmt::Display for CallAnswer<'_> {
    ghost output = { λ answer. Some (call_text answer.0.now) };

    fn fmt<W: fmt::Write>(&self, f: &mut fmt::Formatter<W>) -> fmt::Result {
        match self.0 {
            Called::Write(Ok(time)) | Called::Try(Ok(time)) | Called::Batch(Ok(time)) => {
                write!(f, "@{time}")
            }
            Called::Write(Err(Full { time })) | Called::Change(Err(Full { time })) => {
                write!(f, "full @{time}")
            }
            Called::Try(Err(refusal)) => {
                let refusal = TryRefusal(refusal);
                write!(f, "{refusal}")
            }
            Called::Batch(Err(refusal)) => {
                let refusal = BatchRefusal(refusal);
                write!(f, "{refusal}")
            }
            Called::Change(Ok(rmw)) => {
                let changed = Changed(rmw);
                write!(f, "{changed}")
            }
            Called::Read(Got { time, value }) | Called::ReadAt(Some(Got { time, value })) => {
                let value = Reply(value);
                write!(f, "{value} @{time}")
            }
            Called::Snapshot(Ok(time)) => write!(f, "snap @{time}"),
            Called::Snapshot(Err(Open { time })) => write!(f, "open @{time}"),
            Called::Close(Some(time)) => write!(f, "closed @{time}"),
            Called::Close(None) | Called::ReadAt(None) => write!(f, "no snapshot"),
            Called::Scan(Ok(Scan { time, rows })) => {
                let rows = ShownRows(rows);
                write!(f, "{rows} @{time}")
            }
            Called::Page(Ok(Page { time, rows, more })) => {
                let (rows, more) = (ShownRows(rows), More(more));
                write!(f, "{rows} @{time}{more}")
            }
            Called::Scan(Err(_)) | Called::Page(Err(_)) => write!(f, "memory"),
        }
    }
}

/// What a read-modify-write found, and what it made of that.
#[derive(Drop)]
struct Changed<'a>(&'a Rmw);

impl fmt::Display for Changed<'_> {
    ghost output = { λ changed. Some (change_text changed.0.now.change changed.0.now.old changed.0.now.time) };

    fn fmt<W: fmt::Write>(&self, f: &mut fmt::Formatter<W>) -> fmt::Result {
        let Rmw { time, old, change } = self.0;
        let old = Reply(old);
        match change {
            Change::Keep => write!(f, "kept {old} @{time}"),
            Change::Set(value) => write!(f, "old {old} new {value} @{time}"),
            Change::Remove => write!(f, "old {old} new none @{time}"),
        }
    }
}

/// Why a try wrote nothing.
#[derive(Drop)]
struct TryRefusal<'a>(&'a TryPutError);

impl fmt::Display for TryRefusal<'_> {
    ghost use Rattle.clsm_script.specs.Printed.{try_refusal_text};

    ghost output = { λ refusal. Some (try_refusal_text refusal.0.now) };

    fn fmt<W: fmt::Write>(&self, f: &mut fmt::Formatter<W>) -> fmt::Result {
        match self.0 {
            TryPutError::Full { time } => write!(f, "full @{time}"),
            TryPutError::Busy => write!(f, "busy"),
            TryPutError::Raced => write!(f, "raced"),
            TryPutError::Overtaken => write!(f, "overtaken"),
        }
    }
}

/// Why a batch wrote nothing.
#[derive(Drop)]
struct BatchRefusal<'a>(&'a BatchError);

impl fmt::Display for BatchRefusal<'_> {
    ghost use Rattle.clsm_script.specs.Printed.{batch_refusal_text};

    ghost output = { λ refusal. Some (batch_refusal_text refusal.0.now) };

    fn fmt<W: fmt::Write>(&self, f: &mut fmt::Formatter<W>) -> fmt::Result {
        match self.0 {
            BatchError::Full { time } => write!(f, "full @{time}"),
            BatchError::TooLong => write!(f, "too long"),
            BatchError::Empty => write!(f, "empty"),
            BatchError::Keep => write!(f, "keep"),
        }
    }
}
