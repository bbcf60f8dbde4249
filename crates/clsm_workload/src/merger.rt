//! The merger of a run, and what it tells of the store.
ghost use Rattle.std.specs.Prelude.{◌≡◌};
ghost use Rattle.clsm_store.specs.Phase.{merger_in};

use crate::board::Board;
use clsm_levels::level_zero_runs;
use clsm_store::{Frozen, Merger, Pace, Phase, Stopped, Store};
use std::rt::Clock;
use std::sync::Wait;
use std::thread;
use std::time::Instant;

/// What the merger of a run tells of the store. The names are those of `clsm_statistics` in
/// capi/clsm.h, where they mean the same.
#[derive(Clone, Copy, Debug)]
pub struct Merged {
    /// The merges that were made.
    pub merges: u64,
    /// The entries of the runs of level 0, keys and old versions, before the last merge.
    pub level_zero: u64,
    /// The entries of the run of level 1 then.
    pub level_one: u64,
    /// How many nanoseconds the last merge took.
    pub last_merge: u64,
    /// And the longest one.
    pub longest_merge: u64,
    /// The timestamps that are drawn of the current epoch once all workers have ended; none if a run
    /// was full.
    pub epoch_writes: Option<u64>,
}

/// Freezes, merges and reclaims again and again, until all workers have ended. It stops earlier,
/// for good, where a run is full or times end. Tells what it found.
pub fn merge_beside<P: Pace + Drop, R: Clock + Wait>(
    rt: &R,
    mut merger: Merger<'_, P>,
    board: &Board,
) -> Merged {
    let mut merged = Merged::new(&merger.phase);
    for _ in rt.forever() {
        if board.is_over() {
            break;
        }
        // Where the freeze is refused, the sweep goes on or stops for the same reason.
        let (mut next, _) = merger.freeze(rt);
        merged.note_entries(&mut next);
        let begun = Instant::now(rt).ok();
        let (next, swept) = next.sweep(rt);
        merger = next;
        merged.note_merge(rt, begun, &merger.phase);
        match swept {
            Ok(()) => board.count_merge(),
            Err(Stopped::Pinned(_)) => thread::yield_now(),
            Err(_) => break,
        }
    }
    if board.is_over() {
        // No read is left that holds what was retired.
        let (merger, _) = merger.reclaim();
        merged.note_writes(merger);
    }
    merged
}

impl Merged {
    /// Before the first merge of a merger in this phase.
    fn new(phase: &Phase) -> Merged {
        Merged {
            merges: merges_of(phase),
            level_zero: 0,
            level_one: 0,
            last_merge: 0,
            longest_merge: 0,
            epoch_writes: None,
        }
    }

    /// Notes how many entries the runs have, if an epoch is frozen.
    fn note_entries<P: Pace + Drop>(&mut self, merger: &mut Merger<'_, P>) {
        let Phase::Frozen(frozen) = &mut merger.phase else {
            return;
        };
        let young = level_zero_runs(frozen.merges());
        self.level_zero = entries_before(frozen, merger.store, young);
        self.level_one = frozen.entries(merger.store, young);
    }

    /// Notes the merge that a sweep made which began then and ended in this phase, if it made one.
    /// Its time is not noted where the clock failed.
    fn note_merge<R: Clock>(&mut self, rt: &R, begun: Option<Instant>, phase: &Phase) {
        let merges = merges_of(phase);
        if merges == self.merges {
            return;
        }
        self.merges = merges;
        let Some(begun) = begun else {
            return;
        };
        let Ok(took) = begun.elapsed(rt) else {
            return;
        };
        self.last_merge = u64::try_from(took.as_nanos()).unwrap_or(u64::MAX);
        self.longest_merge = self.longest_merge.max(self.last_merge);
    }

    /// Notes how many timestamps of the current epoch are drawn, if nothing is frozen or retired.
    fn note_writes<P: Pace + Drop>(&mut self, merger: Merger<'_, P>) {
        let Merger { store, phase } = merger;
        if let Phase::Clean(mut clean) = phase {
            self.epoch_writes = Some(clean.drawn(store));
        }
    }
}

/// How many entries all runs have together that are searched before this turn.
fn entries_before<P: Pace>(frozen: &mut Frozen, store: &Store<P>, turn: u64) -> u64
    requires { frozen.old.merger.store ≡ store.now }
    ensures { frozen.new ≡ frozen.old }
{
    let mut entries: u64 = 0;
    for earlier in 0..turn {
        entries = entries.saturating_add(frozen.entries(store, earlier));
    }
    entries
}

/// The number of merges that were made.
fn merges_of(phase: &Phase) -> u64
    ensures { result ≡ (merger_in phase.now).merges }
{
    match phase {
        Phase::Clean(clean) => clean.merges(),
        Phase::Frozen(frozen) => frozen.merges(),
        Phase::Retired(retired) => retired.merges(),
    }
}
