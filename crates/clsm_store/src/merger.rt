//! The merger: its tokens, one for each phase, and the merger with its store, in whichever phase it
//! is.
ghost use Rattle.std.specs.Prelude.{◌≡◌};
ghost use Rattle.clsm_store.specs.declared.phase.Phase.TheVariants.{Clean as CleanPhase};
ghost use Rattle.clsm_store.specs.Phase.{Freezes, MeetsMerger, Merges, Reclaims, merger_in};

use crate::phase::{FreezeError, MergeError, NotFrozen, Phase, ReclaimError};
use crate::seat::Seat;
use crate::store::Store;
use clsm_words::Pace;
use std::sync::Wait;

mod tokens;

pub use tokens::{Clean, Frozen, Retired};

/// The merger of a store: the store, and its one token in whichever phase it is. It may be moved to
/// another thread.
#[derive(Drop)]
pub struct Merger<'a, P: Pace + Drop> {
    pub store: &'a Store<P>,
    pub phase: Phase,
    pub ghost of: { (merger_in phase).store ≡ store.now },
}

impl<'a, P: Pace + Drop> Merger<'a, P> {
    /// The merger that has this token, which is the store's.
    pub fn new(store: &'a Store<P>, clean: Clean) -> Merger<'a, P>
        requires { clean.merger.store ≡ store.now }
        ensures { result.phase ≡ CleanPhase clean }
    {
        let phase = Phase::Clean(clean);
        Merger { store, phase }
    }

    /// As `Clean::freeze`: answers the number of the epoch that is frozen. Refused with `NotClean`
    /// in any other phase.
    pub fn freeze<R: Wait>(self, rt: &R) -> (Merger<'a, P>, Result<u64, FreezeError>)
        ensures freezes { Freezes self.entry.phase result.0.phase result.1 }
        ensures store { result.0.store.now ≡ self.entry.store.now }
    {
        let Merger { store, phase } = self;
        let (phase, answer) = match phase {
            Phase::Clean(clean) => match clean.freeze(rt, store) {
                Ok(frozen) => {
                    let epoch = frozen.merges();
                    (Phase::Frozen(frozen), Ok(epoch))
                }
                Err((clean, worn)) => (Phase::Clean(clean), Err(FreezeError::Worn(worn))),
            },
            other => (other, Err(FreezeError::NotClean)),
        };
        (Merger { store, phase }, answer)
    }

    /// As `Frozen::meet`: the seat is one of the store's. Refused in any other phase, where nothing
    /// is done.
    pub fn meet(&mut self, seat: &mut Seat) -> Result<(), NotFrozen>
        requires { seat.old.store ≡ self.old.store.now }
        ensures { MeetsMerger self.old.phase self.new.phase seat.old seat.new result }
    {
        match &mut self.phase {
            Phase::Frozen(frozen) => {
                frozen.meet(self.store, seat);
                Ok(())
            }
            _ => Err(NotFrozen),
        }
    }

    /// As `Frozen::merge`: answers the new number of merges. Refused with `NotFrozen` in any other
    /// phase.
    pub fn merge(self) -> (Merger<'a, P>, Result<u64, MergeError>)
        ensures merges { Merges self.entry.phase result.0.phase result.1 }
        ensures store { result.0.store.now ≡ self.entry.store.now }
    {
        let Merger { store, phase } = self;
        let (phase, answer) = match phase {
            Phase::Frozen(frozen) => match frozen.merge(store) {
                Ok(retired) => {
                    let merges = retired.merges();
                    (Phase::Retired(retired), Ok(merges))
                }
                Err((frozen, full)) => (Phase::Frozen(frozen), Err(MergeError::RunFull(full))),
            },
            other => (other, Err(MergeError::NotFrozen)),
        };
        (Merger { store, phase }, answer)
    }

    /// As `Retired::reclaim`. Refused with `NotRetired` in any other phase.
    pub fn reclaim(self) -> (Merger<'a, P>, Result<(), ReclaimError>)
        ensures reclaims { Reclaims self.entry.phase result.0.phase result.1 }
        ensures store { result.0.store.now ≡ self.entry.store.now }
    {
        let Merger { store, phase } = self;
        let (phase, answer) = match phase {
            Phase::Retired(retired) => match retired.reclaim(store) {
                Ok(clean) => (Phase::Clean(clean), Ok(())),
                Err((retired, pinned)) => (
                    Phase::Retired(retired),
                    Err(ReclaimError::Pinned(pinned)),
                ),
            },
            other => (other, Err(ReclaimError::NotRetired)),
        };
        (Merger { store, phase }, answer)
    }
}
