//! The moments of a worker's turns.
ghost use Rattle.std.specs.Prelude.{◌<◌, OnOk, vec_len};
ghost use Rattle.std.specs.Vec.{vec_capacity};

use crate::kind::Kind;
use crate::turn::Outcome;
use clsm_audit::Moments;
use std::alloc::{AllocError, Global};
use std::rt::Clock;

/// How a turn went: its kind, how it ended, how many records it made, and when it was taken.
#[derive(Clone, Copy, Debug)]
pub struct Note {
    pub kind: Kind,
    pub outcome: Outcome,
    pub records: usize,
    /// When it began and ended, in nanoseconds of the monotonic clock; none where that failed.
    pub moments: Option<Moments>,
}

/// The notes of a worker's turns, where it takes notes.
#[derive(Drop)]
pub struct Watch {
    is_on: bool,
    pub notes: Vec<Note>,
}

impl Watch {
    pub fn new(alloc: Global, is_on: bool) -> Watch {
        Watch {
            is_on,
            notes: Vec::new(alloc),
        }
    }

    /// Makes room for one note. Refused if memory runs out.
    pub fn make_room(&mut self) -> Result<(), AllocError>
        ensures { OnOk result (vec_len self.new.notes < vec_capacity self.new.notes) }
    {
        self.notes.reserve(1)
    }

    /// What the clock shows when a turn begins, if notes are taken and it does not fail.
    pub fn begin<R: Clock>(&self, rt: &R) -> Option<u64> {
        if !self.is_on {
            return None;
        }
        nanoseconds(rt)
    }

    /// Notes a turn that began then and has ended, if notes are taken. There is room for the note.
    pub fn note<R: Clock>(&mut self, rt: &R, begun: Option<u64>, note: Note)
        requires { vec_len self.old.notes < vec_capacity self.old.notes }
    {
        if !self.is_on {
            return;
        }
        self.notes.push_reserved(Note {
            moments: moments(begun, nanoseconds(rt)),
            ..note
        });
    }
}

/// What the monotonic clock shows, in nanoseconds, unless it fails.
fn nanoseconds<R: Clock>(rt: &R) -> Option<u64> {
    let time = rt.monotonic().ok()?;
    u64::try_from(time.as_nanos()).ok()
}

/// The moments of a turn, where the clock showed both.
fn moments(begun: Option<u64>, ended: Option<u64>) -> Option<Moments> {
    let begin = begun?;
    let end = ended?.max(begin);
    Some(Moments { begin, end })
}
