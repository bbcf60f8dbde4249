//! The merger's tokens, one for each phase, and what it does in each.
ghost use Rattle.std.specs.Prelude.{◌≡◌, ◌+◌, ◌*◌, ◌^◌, ◌<◌, ◌≤◌, MatchBool};
ghost use Rattle.clsm_store_calls.specs.Freezing.{IsClean, IsFrozen};
ghost use Rattle.clsm_store_calls.specs.Looking.{PollsClock, drawn_of};
ghost use Rattle.clsm_store_calls.specs.Merging.{IsReady, IsRetiring, clean_of, frozen_of, retired_of};
ghost use Rattle.clsm_store_calls.specs.Seats.{CleanState, FrozenState, RetiredState};
ghost use Rattle.clsm_store.specs.Promises.{CountsEntries, FreezesEpoch, MeetsSeat, MergesEpoch, ReclaimsRetired, TriesToFreezeEpoch};

use crate::phase::TryFreezeError;
use crate::seat::Seat;
use crate::store::Store;
use crate::telling::tell;
use clsm_law::LAST_LIMIT;
use clsm_model::Time;
use clsm_runs::RunFull;
use clsm_store_calls::{
    MergerSeat, Pinned, Worn, agree_at, drawn_at, entries_at, freeze, merge, reclaim, try_freeze,
};
use clsm_words::Pace;
use std::marker::Model;
use std::sync::Wait;

/// The merger's token, while nothing is frozen. It may be moved to another thread. Contracts see
/// its store and the number of merges; how often it held the lock and how often it found it held;
/// how often it looked at the clock, and what it found last; the floor of the last try to merge, and
/// how many rounds of looks at the snapshot words were made; and what was noted of each seat since
/// the last merge.
#[derive(Drop)]
pub struct Clean {
    pub(crate) merger: MergerSeat,
}

/// The merger's token, while an epoch is frozen. It may be moved to another thread. Contracts see
/// its store and the number of merges, which is also the number of the frozen epoch; the floor of
/// the last try to merge, how many rounds of looks at the snapshot words were made, and the least
/// time that the last one for this epoch found noted; the epoch's writes; and the runs.
#[derive(Drop)]
pub struct Frozen {
    pub(crate) merger: MergerSeat,
}

/// The merger's token, while a component is retired. It may be moved to another thread. Contracts
/// see its store and the number of merges, the one that retired the component among them; the floor
/// of that merge, the rounds, and the least time that its round found noted; and what was noted of
/// each seat since.
#[derive(Drop)]
pub struct Retired {
    pub(crate) merger: MergerSeat,
}

impl Model for Clean {
    ghost Value = { CleanState };

    ghost view = { λ c. clean_of c.merger };

    ghost invariant = { λ c. IsClean c.merger.raw.knows c.merger.merges × IsReady c.merger };
}

impl Model for Frozen {
    ghost Value = { FrozenState };

    ghost view = { λ f. frozen_of f.merger };

    ghost invariant = { λ f. IsFrozen f.merger.raw.knows f.merger.merges × IsReady f.merger };
}

impl Model for Retired {
    ghost Value = { RetiredState };

    ghost view = { λ r. retired_of r.merger };

    ghost invariant = { λ r. IsRetiring r.merger };
}

impl Clean {
    /// The number of merges so far.
    #[inline]
    pub fn merges(&self) -> u64
        ensures { result ≡ self.now.merger.merges }
    {
        self.merger.merges()
    }

    /// How many timestamps of the current epoch are drawn, as one look at the clock finds it. More
    /// may be drawn by the time that it answers. It never waits.
    pub fn drawn<P: Pace>(&mut self, store: &Store<P>) -> u64
        requires { self.old.merger.store ≡ store.now }
        ensures polls { PollsClock self.old self.new }
        ensures drawn { result ≡ drawn_of self.new.merger }
    {
        drawn_at(&store.words, &mut self.merger)
    }

    /// Whether no epoch can be frozen any more: the limit after the next freeze would pass 2^62.
    fn is_worn<P: Pace>(&self, store: &Store<P>) -> bool
        requires { self.now.merger.store ≡ store.now }
        ensures { MatchBool result (2 ^ 62 < (self.now.merger.merges + 2) * self.now.merger.store.layout.cells)
            ((self.now.merger.merges + 2) * self.now.merger.store.layout.cells ≤ 2 ^ 62) }
    {
        self.merger.merges > LAST_LIMIT / store.words.cells() - 2
    }

    /// Freezes the current epoch: waits until no caller holds the lock, cancels the epoch's cells
    /// that were never drawn, and moves the clock to its end and the limit to that of the next.
    /// Writers go on in the next epoch, and readers go on (the cLSM paper's switch of the memory
    /// component). Refused with `Worn`, and with the token as it was, if the next limit would
    /// pass 2^62; nothing was done then.
    pub fn freeze<P: Pace, R: Wait>(
        mut self,
        rt: &R,
        store: &Store<P>,
    ) -> Result<Frozen, (Clean, Worn)>
        requires { self.merger.store ≡ store.now }
        ensures { FreezesEpoch self result }
    {
        if self.is_worn(store) {
            return Err((self, Worn));
        }
        let merges = self.merger.merges;
        freeze(rt, &store.words, &mut self.merger.raw, merges);
        self.merger.noted = None;
        Ok(Frozen {
            merger: self.merger,
        })
    }
}

impl Clean {
    /// Freezes the current epoch as `freeze`, but tries the lock once and never waits. Refused, and
    /// with the token, with `Worn` as `freeze`, and with `Busy` if a caller held the lock: nothing
    /// was done then but the try, which the token counts.
    pub fn try_freeze<P: Pace>(
        mut self,
        store: &Store<P>,
    ) -> Result<Frozen, (Clean, TryFreezeError)>
        requires { self.merger.store ≡ store.now }
        ensures { TriesToFreezeEpoch self result }
    {
        if self.is_worn(store) {
            return Err((self, TryFreezeError::Worn(Worn)));
        }
        let merges = self.merger.merges;
        if try_freeze(&store.words, &mut self.merger.raw, merges).is_err() {
            return Err((self, TryFreezeError::Busy));
        }
        let mut merger = self.merger;
        merger.noted = None;
        Ok(Frozen { merger })
    }
}

impl Frozen {
    ghost use Rattle.std.specs.Prelude.{List};
    ghost use Rattle.clsm_model.specs.declared.slot.Slot.{Slot};
    ghost use Rattle.clsm_store_calls.specs.Merging.{IsOfHistory};

    /// The number of merges so far, which is the number of the frozen epoch.
    #[inline]
    pub fn merges(&self) -> u64
        ensures { result ≡ self.now.merger.merges }
    {
        self.merger.merges()
    }

    /// The least time that the last round of looks for this epoch found noted in the snapshot
    /// words: if that is below the end of the epoch, a snapshot of that time keeps old versions.
    /// `None` if it found none, or before the first round.
    #[inline]
    pub fn noted(&self) -> Option<Time>
        ensures { result ≡ self.now.noted }
    {
        self.merger.noted
    }

    /// How many entries the run has that is searched at this turn, counted from 0: those of level 0,
    /// the newest first, and then that of level 1; 0 if there are fewer runs. The token is as it
    /// was. It costs one look, and never waits.
    pub fn entries<P: Pace>(&mut self, store: &Store<P>, turn: u64) -> u64
        requires { self.old.merger.store ≡ store.now }
        ensures { CountsEntries self.old self.new turn result }
    {
        entries_at(&store.words, &mut self.merger, turn)
    }

    /// Shows what holds while an epoch is frozen: there is a history whose writes in the epoch are
    /// those that the token carries, and which the runs answer for exactly from the floor on. It
    /// does nothing when it runs.
    #[inline]
    pub fn show_history(&self)
        ensures { (history : List Slot) × IsOfHistory history self.now }
    {
        self.merger.raw.show_invariant();
    }

    /// Ties the frozen epoch to what a caller's seat knows: the token's writes and runs are those
    /// of a history that begins with what the seat knows, and of just that where it reaches to the
    /// epoch's end. So with the seat that knows most of settled seats they are those of the joint
    /// history. Token and seat are as they were. It costs one look, takes no memory and no lock,
    /// never waits and is never refused.
    pub fn meet<P: Pace>(&mut self, store: &Store<P>, seat: &mut Seat)
        requires token { self.old.merger.store ≡ store.now }
        requires seat { seat.old.store ≡ store.now }
        ensures { MeetsSeat self.old self.new seat.old seat.new }
    {
        let message = tell(store, seat);
        agree_at(&store.words, &mut self.merger, message);
    }

    /// Merges the frozen epoch into a sorted run: of three merges each writes the epoch's run into
    /// level 0, and the fourth all runs and the epoch into level 1, as LevelDB's compactions do. Of
    /// each key it keeps every version from the floor on, and of those before it the newest; a
    /// removal that is the newest there is left out of level 1. For the floor it looks at each
    /// snapshot word in one round, and takes the end of the epoch, or the least time that is noted
    /// there if that is earlier; a floor never falls. Readers and writers go on beside it, and
    /// it never waits. Refused with `RunFull`, and with the token, if a merge into level 1 would
    /// keep more entries than a run has room for; nothing is published then, and a snapshot that is
    /// closed may help the next try.
    pub fn merge<P: Pace>(mut self, store: &Store<P>) -> Result<Retired, (Frozen, RunFull)>
        requires { self.merger.store ≡ store.now }
        ensures { MergesEpoch self result }
    {
        match merge(&store.words, &mut self.merger) {
            Ok(()) => Ok(Retired {
                merger: self.merger,
            }),
            Err(full) => Err((self, full)),
        }
    }
}

impl Retired {
    /// The number of merges so far.
    #[inline]
    pub fn merges(&self) -> u64
        ensures { result ≡ self.now.merger.merges }
    {
        self.merger.merges()
    }

    /// Gives the retired component up, if no seat holds anything of it, and makes its cells free
    /// for the epoch after the next: looks at the pin word of each seat that was not found quiet
    /// yet, in the order of their numbers. Refused with `Pinned`, and with the token, if the pin
    /// word of that seat was found to keep the component; the seats that were found quiet stay so
    /// for the next try. It never waits.
    pub fn reclaim<P: Pace>(mut self, store: &Store<P>) -> Result<Clean, (Retired, Pinned)>
        requires { self.merger.store ≡ store.now }
        ensures { ReclaimsRetired self result }
    {
        let merges = self.merger.merges;
        match reclaim(
            &store.words,
            &mut self.merger.raw,
            merges,
            &mut self.merger.seen,
        ) {
            Ok(()) => Ok(Clean {
                merger: self.merger,
            }),
            Err(seat) => Err((self, Pinned(seat as u32))),
        }
    }
}
