//! A freeze alone, once enough of the epoch is used, which tries the lock once.
ghost use Rattle.std.specs.Prelude.{◌≡◌};
ghost use Rattle.clsm_store.specs.Freezing.{IsUsed, TryFreezes};

use crate::merger::Merger;
use crate::phase::{Phase, TryFreezeError};
use clsm_store_calls::Worn;
use clsm_words::Pace;

/// What a freeze did that freezes an epoch only once enough of it is used.
#[derive(Clone, Copy, PartialEq, Eq, Debug)]
pub enum TryFroze {
    /// An epoch is frozen, or a component is retired: by this call or before it.
    Done,
    /// It found too few timestamps of the epoch drawn, and did nothing.
    Waited,
    /// A caller held the lock: no epoch was frozen.
    Busy,
}

impl<'a, P: Pace + Drop> Merger<'a, P> {
    /// Whether nothing keeps the merger from its work: so many timestamps of the epoch are drawn,
    /// or all, as one look at the clock finds it; or an epoch is frozen or a component retired
    /// already, and nothing is looked at.
    pub(crate) fn is_used(&mut self, used: u64) -> bool
        ensures used { IsUsed used self.old.phase self.new.phase result }
        ensures store { self.new.store.now ≡ self.old.store.now }
    {
        let store = self.store;
        let enough = used.min(store.words.cells());
        match &mut self.phase {
            Phase::Clean(clean) => clean.drawn(store) >= enough,
            _ => true,
        }
    }

    /// Freezes the current epoch, if so many of its timestamps are drawn, or all. Where an epoch is
    /// frozen or a component is retired already, it does nothing, and answers `Done`. It never
    /// merges, tries the lock once and never waits: it answers `Busy` if a caller held the lock.
    /// Refused with `Worn`, and with the token as it was but for one look at the clock, if the
    /// next limit would pass 2^62.
    pub fn try_freeze_if_used(mut self, used: u64) -> (Merger<'a, P>, Result<TryFroze, Worn>)
        ensures freezes { TryFreezes used self.entry.phase result.0.phase result.1 }
        ensures store { result.0.store.now ≡ self.entry.store.now }
    {
        if !self.is_used(used) {
            return (self, Ok(TryFroze::Waited));
        }
        let Merger { store, phase } = self;
        let (phase, answer) = match phase {
            Phase::Clean(clean) => match clean.try_freeze(store) {
                Ok(frozen) => (Phase::Frozen(frozen), Ok(TryFroze::Done)),
                Err((clean, error)) => match error {
                    TryFreezeError::Busy => (Phase::Clean(clean), Ok(TryFroze::Busy)),
                    TryFreezeError::Worn(worn) => (Phase::Clean(clean), Err(worn)),
                },
            },
            other => (other, Ok(TryFroze::Done)),
        };
        (Merger { store, phase }, answer)
    }
}
