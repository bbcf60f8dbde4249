//! The merger's sweep: it freezes, merges and reclaims, from the phase in which the merger is.
ghost use Rattle.std.specs.Prelude.{◌≡◌};
ghost use Rattle.clsm_store.specs.Sweeping.{Finishes, Sweeps, SweepsIf, TrySweeps};

use crate::freezing::TryFroze;
use crate::merger::Merger;
use crate::phase::{FreezeError, MergeError, ReclaimError};
use clsm_runs::RunFull;
use clsm_store_calls::{Pinned, Worn};
use clsm_words::Pace;
use std::sync::Wait;
use thiserror::Error;

/// What stopped a sweep. The next one goes on from there.
#[derive(Clone, Copy, PartialEq, Eq, Debug, Error)]
pub enum Stopped {
    /// No epoch can be frozen any more: the next limit would pass 2^62.
    #[error(transparent)]
    Worn(Worn),
    /// The merge would keep more entries than a run has room for. A snapshot that is closed may
    /// help.
    #[error(transparent)]
    RunFull(RunFull),
    /// The seat with this number may still read what is retired.
    #[error(transparent)]
    Pinned(Pinned),
}

/// What a sweep did that freezes an epoch only once enough of it is used.
#[derive(Clone, Copy, PartialEq, Eq, Debug)]
pub enum Swept {
    /// It went on to the end: nothing is frozen or retired.
    Done,
    /// It found too few timestamps of the epoch drawn, and did nothing.
    Waited,
}

/// What a sweep did that tries the lock once.
#[derive(Clone, Copy, PartialEq, Eq, Debug)]
pub enum TrySwept {
    /// It went on to the end: nothing is frozen or retired.
    Done,
    /// It found too few timestamps of the epoch drawn, and did nothing.
    Waited,
    /// A caller held the lock: no epoch was frozen.
    Busy,
}

impl<'a, P: Pace + Drop> Merger<'a, P> {
    /// Freezes the current epoch, merges it and reclaims the component that this retires. It begins
    /// in the merger's phase and goes on as far as it can: a flush of the component in memory, and
    /// each fourth time a compaction of all runs. It makes one try of each step, as `freeze`,
    /// `merge` and `reclaim` do, and waits for nothing but the lock, as a freeze does. If one of
    /// them is refused it stops there, and `Stopped` says why; the next sweep goes on from there.
    pub fn sweep<R: Wait>(self, rt: &R) -> (Merger<'a, P>, Result<(), Stopped>)
        ensures sweeps { Sweeps self.entry.phase result.0.phase result.1 }
        ensures store { result.0.store.now ≡ self.entry.store.now }
    {
        let (merger, froze) = self.freeze(rt);
        match froze {
            Ok(_) => merger.finish(),
            Err(FreezeError::NotClean) => merger.finish(),
            Err(FreezeError::Worn(worn)) => (merger, Err(Stopped::Worn(worn))),
        }
    }

    /// As `sweep`, but if nothing is frozen it looks at the clock first, and freezes the epoch
    /// only if at least `used` of its timestamps are drawn, or all that it has. Else it answers
    /// `Waited`: nothing was done then, at the cost of one look. If an epoch is frozen or a
    /// component is retired it goes on as `sweep`. So a merger that never rests makes runs of a
    /// size that is worth a merge. More may be drawn by the time that it answers.
    pub fn sweep_if_used<R: Wait>(
        mut self,
        rt: &R,
        used: u64,
    ) -> (Merger<'a, P>, Result<Swept, Stopped>)
        ensures sweeps { SweepsIf used self.entry.phase result.0.phase result.1 }
        ensures store { result.0.store.now ≡ self.entry.store.now }
    {
        if !self.is_used(used) {
            return (self, Ok(Swept::Waited));
        }
        let (merger, answer) = self.sweep(rt);
        match answer {
            Ok(()) => (merger, Ok(Swept::Done)),
            Err(stopped) => (merger, Err(stopped)),
        }
    }

    /// As `sweep_if_used`, but it tries the lock once and never waits: it answers `Busy` if a
    /// caller held the lock. No epoch was frozen then.
    pub fn try_sweep_if_used(self, used: u64) -> (Merger<'a, P>, Result<TrySwept, Stopped>)
        ensures sweeps { TrySweeps used self.entry.phase result.0.phase result.1 }
        ensures store { result.0.store.now ≡ self.entry.store.now }
    {
        let (merger, froze) = self.try_freeze_if_used(used);
        match froze {
            Ok(TryFroze::Done) => {}
            Ok(TryFroze::Waited) => return (merger, Ok(TrySwept::Waited)),
            Ok(TryFroze::Busy) => return (merger, Ok(TrySwept::Busy)),
            Err(worn) => return (merger, Err(Stopped::Worn(worn))),
        }
        let (merger, answer) = merger.finish();
        match answer {
            Ok(()) => (merger, Ok(TrySwept::Done)),
            Err(stopped) => (merger, Err(stopped)),
        }
    }

    /// Merges the epoch if one is frozen, and gives up what is retired then.
    fn finish(self) -> (Merger<'a, P>, Result<(), Stopped>)
        ensures finishes { Finishes self.entry.phase result.0.phase result.1 }
        ensures store { result.0.store.now ≡ self.entry.store.now }
    {
        let (merger, merged) = self.merge();
        match merged {
            Ok(_) => {}
            Err(MergeError::NotFrozen) => {}
            Err(MergeError::RunFull(full)) => return (merger, Err(Stopped::RunFull(full))),
        }
        let (merger, reclaimed) = merger.reclaim();
        match reclaimed {
            Ok(()) => (merger, Ok(())),
            Err(ReclaimError::NotRetired) => (merger, Ok(())),
            Err(ReclaimError::Pinned(pinned)) => (merger, Err(Stopped::Pinned(pinned))),
        }
    }
}
