//! The merger's view: what it knows and has done.
ghost use Rattle.std.specs.Prelude.{◌≡◌};

use crate::items::Items;
use clsm_model::Time;
use std::alloc::AllocError;

/// Where the merger is between two merges.
#[derive(Clone, Copy, PartialEq, Eq, Hash, Debug)]
pub enum Phase {
    /// Nothing is frozen.
    Clean,
    /// An epoch is frozen and not yet merged.
    Frozen,
    /// It is merged, and its cells are not yet given up.
    Retired,
}

/// A round of looks at the snapshot words in the order of the seats: the next seat, and the least
/// time noted so far.
#[derive(Clone, Copy, PartialEq, Eq, Hash, Debug)]
pub struct Round {
    pub next: u64,
    pub least: Option<Time>,
}

/// What the merger found of a seat in this retirement. `==` and the hash leave the count out.
#[derive(Clone, Copy, Debug)]
#[derive_where(PartialEq, Eq, Hash)]
pub struct Reader {
    /// Its pin word as first noted.
    pub first_pin: Option<u64>,
    /// It holds nothing retired.
    pub quiet: bool,
    /// How often its pin word was looked at, modulo 2^64.
    #[derive_where(skip(EqHashOrd))]
    pub looks: u64,
}

/// What the merger knows and has done. `==` and the hash leave the counts out, and what its last
/// looks found.
#[derive(Drop)]
#[derive_where(PartialEq, Eq, Hash)]
pub struct MergerView {
    pub phase: Phase,
    /// The number of merges.
    pub merged: u64,
    /// It holds the lock exclusively; in this hold it cancelled an undrawn cell, moved the clock to
    /// the epoch's end, and moved the limit.
    pub exclusive: bool,
    /// How often it took the lock, modulo 2^64.
    #[derive_where(skip(EqHashOrd))]
    pub holds: u64,
    /// How often it tried to take the lock and found it held, modulo 2^64.
    #[derive_where(skip(EqHashOrd))]
    pub busy: u64,
    pub padded: bool,
    pub clock_extended: bool,
    pub limit_extended: bool,
    /// No open or coming snapshot has a time below it.
    pub floor: Time,
    pub round: Option<Round>,
    /// How many rounds passed all seats, modulo 2^64.
    #[derive_where(skip(EqHashOrd))]
    pub rounds: u64,
    /// The least time that the last whole round of this epoch found noted.
    #[derive_where(skip(EqHashOrd))]
    pub noted: Option<Time>,
    /// How often it looked at CLOCK while nothing was frozen, outside a hold of the lock, modulo
    /// 2^64; and what the last such look found, or 0.
    #[derive_where(skip(EqHashOrd))]
    pub clock_looks: u64,
    #[derive_where(skip(EqHashOrd))]
    pub clock_found: Time,
    /// The floors that the runs of this component and of the one before were merged with.
    pub merged_floor: Time,
    pub former_floor: Time,
    pub readers: Items<Reader>,
}

impl Clone for MergerView {
    ghost is_clone = { λ original copy. copy ≡ original };

    /// The same view. Refused if memory runs out.
    fn clone(&self) -> Result<MergerView, AllocError> {
        let readers = self.readers.clone()?;
        Ok(MergerView { readers, ..*self })
    }
}
