//! The merger's phases, and why a call of the merger does nothing.
ghost use Rattle.std.specs.Prelude.{◌≡◌};
ghost use Rattle.clsm_store.specs.Phase.{CountsIfFrozen, merger_in};

use crate::merger::{Clean, Frozen, Retired};
use crate::store::Store;
use clsm_runs::RunFull;
use clsm_store_calls::{Pinned, Worn};
use clsm_words::Pace;
use thiserror::Error;

/// The merger's token, in whichever phase it is.
#[derive(Drop)]
pub enum Phase {
    /// Nothing is frozen.
    Clean(Clean),
    /// An epoch is frozen.
    Frozen(Frozen),
    /// A component is retired.
    Retired(Retired),
}

impl Phase {
    /// As `Frozen::entries`. Refused in any other phase, where nothing is done.
    pub fn entries<P: Pace>(&mut self, store: &Store<P>, turn: u64) -> Result<u64, NotFrozen>
        requires { (merger_in self.old).store ≡ store.now }
        ensures { CountsIfFrozen self.old self.new turn result }
    {
        match self {
            Phase::Frozen(frozen) => Ok(frozen.entries(store, turn)),
            _ => Err(NotFrozen),
        }
    }
}

/// Why no epoch was frozen. The token is then as it was.
#[derive(Clone, Copy, PartialEq, Eq, Debug, Error)]
pub enum FreezeError {
    /// An epoch is frozen already, or a component is retired.
    #[error("not clean")]
    NotClean,
    /// The next limit would pass 2^62.
    #[error(transparent)]
    Worn(Worn),
}

/// Why `try_freeze` froze no epoch. The token is then as it was, but that it counts a try that found
/// the lock held.
#[derive(Clone, Copy, PartialEq, Eq, Debug, Error)]
pub enum TryFreezeError {
    /// A caller held the lock.
    #[error("busy")]
    Busy,
    /// The next limit would pass 2^62.
    #[error(transparent)]
    Worn(Worn),
}

/// Why no seat was met: no epoch is frozen.
#[derive(Clone, Copy, PartialEq, Eq, Debug, Error)]
#[error("not frozen")]
pub struct NotFrozen;

/// Why nothing was merged. The token is then in the phase that it was in.
#[derive(Clone, Copy, PartialEq, Eq, Debug, Error)]
pub enum MergeError {
    /// No epoch is frozen.
    #[error("not frozen")]
    NotFrozen,
    /// A merge into level 1 would keep more entries than a run has room for.
    #[error(transparent)]
    RunFull(RunFull),
}

/// Why nothing was reclaimed. The token is then in the phase that it was in.
#[derive(Clone, Copy, PartialEq, Eq, Debug, Error)]
pub enum ReclaimError {
    /// No component is retired.
    #[error("not retired")]
    NotRetired,
    /// The pin word of the seat with this number was found to keep the retired component.
    #[error(transparent)]
    Pinned(Pinned),
}
