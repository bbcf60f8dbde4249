//! Freezes, merges and reclaims.
use crate::calls::{Lap, put_filled};
use crate::failure::Failure;
use crate::lines::{Role, Way};
use crate::options::Options;
use crate::stores::{StoreJob, work_on};
use crate::sweeper::{Command, Sweeper};
use clsm_store::{Caller, Config, Merger};
use clsm_words::Free;
use std::alloc::Global;
use std::rt::Clock;
use std::sync::Wait;
use std::thread::Threads;
use std::time::Instant;

/// The seats of a store: one that holds a snapshot, one that puts, and the merger's.
#[derive(Drop)]
struct Seats<'a> {
    holder: Caller<'a, Free>,
    writer: Caller<'a, Free>,
    sweeper: Sweeper<'a>,
}

/// Turns of the merger, each behind so many puts at so many of the filled keys: so many merges, of
/// which the last is timed, in the second way under a snapshot that was opened before; or a freeze,
/// in the second way a reclaim.
#[derive(Clone, Copy)]
pub struct Turns {
    /// The merges, or none where a freeze or a reclaim is timed.
    merges: Option<u32>,
    puts: u32,
    keys: u32,
    way: Way,
}

impl Seats<'_> {
    /// Takes these turns. Answers the time of the last one.
    fn take<R: Clock + Wait>(
        &mut self,
        rt: &R,
        alloc: Global,
        turns: Turns,
    ) -> Result<Lap, Failure> {
        let is_held = turns.merges.is_some() && turns.way == Way::Second;
        if is_held && self.holder.snapshot().is_err() {
            return Err(Failure::Unanswered);
        }
        let mut last = Err(Failure::Unanswered);
        for number in 0..turns.merges.unwrap_or(1) {
            let first = number.saturating_mul(turns.puts);
            let end = first.saturating_add(turns.puts);
            put_filled(rt, alloc, &mut self.writer, first..end, turns.keys)?;
            last = Ok(self.turn(rt, turns)?);
        }
        last
    }

    /// Freezes the epoch, merges it and gives up what that retired. Answers the time of the merge,
    /// or of the freeze, or, in the second way, of the reclaim. Refused where one is.
    fn turn<R: Clock + Wait>(&mut self, rt: &R, turns: Turns) -> Result<Lap, Failure> {
        let begun = Instant::now(rt)?;
        let is_frozen = self.sweeper.run(rt, Command::Freeze);
        let cut = Instant::now(rt)?;
        let is_merged = self.sweeper.run(rt, Command::Merge);
        let retired = Instant::now(rt)?;
        let is_reclaimed = self.sweeper.run(rt, Command::Reclaim);
        let ended = Instant::now(rt)?;
        if !(is_frozen && is_merged && is_reclaimed) {
            return Err(Failure::Unanswered);
        }
        let (start, end) = match (turns.merges, turns.way) {
            (Some(_), _) => (cut, retired),
            (None, Way::First) => (begun, cut),
            (None, Way::Second) => (retired, ended),
        };
        let calls = 1;
        Ok(Lap { calls, start, end })
    }
}

/// Takes the turns by the last two callers and the merger.
pub fn take_turns<R: Clock + Wait>(
    rt: &R,
    alloc: Global,
    mut callers: Vec<Caller<'_, Free>>,
    merger: Merger<'_, Free>,
    turns: Turns,
) -> Result<Lap, Failure> {
    let Some(holder) = callers.pop() else {
        return Err(Failure::Unanswered);
    };
    let Some(writer) = callers.pop() else {
        return Err(Failure::Unanswered);
    };
    let mut seats = Seats {
        holder,
        writer,
        sweeper: Sweeper::new(merger),
    };
    seats.take(rt, alloc, turns)
}

/// Puts the calls of the options at the filled keys of an empty store, freezes the epoch, merges it
/// and gives up what that retired, and so often. Answers the time of the last merge, in the second
/// way under a snapshot that was opened before; or of the freeze, in the second way of the reclaim.
/// Refused where one is.
pub fn merge_lap<R: Threads + Sync + Clock + Wait>(
    rt: &R,
    alloc: Global,
    role: &Role,
    options: &Options,
    way: Way,
) -> Result<Lap, Failure> {
    let puts = options.calls.min(options.cells);
    let config = Config {
        cells: options.cells as usize,
        seats: 2,
        shards: 1,
        run: puts.saturating_mul(4) as usize,
        patience: 16,
    };
    let turns = Turns {
        merges: match role {
            Role::Merges(merges) => Some(*merges),
            _ => None,
        },
        puts,
        keys: options.keys,
        way,
    };
    work_on(rt, alloc, config, StoreJob::Turns(turns))
}
