//! What the merger keeps from call to call.
ghost use Rattle.std.specs.Prelude.{◌≡◌};

use clsm_law::Reader;
use clsm_model::Time;
use clsm_search::FrozenWalk;
use clsm_words::RawMerger;

/// The merger, which its token holds.
#[derive(Drop)]
pub struct MergerSeat {
    pub raw: RawMerger,
    /// The number of merges so far.
    pub merges: u64,
    /// The floor that the last merge took, and the least time that its round of looks found noted
    /// in the snapshot words.
    pub floor: Time,
    pub noted: Option<Time>,
    /// The walk along the list of a frozen epoch, with room for the times of an epoch.
    pub walk: FrozenWalk,
    /// What was noted of each seat since the last merge.
    pub seen: Vec<Reader>,
}

impl MergerSeat {
    /// The number of merges so far.
    #[inline]
    pub fn merges(&self) -> u64
        ensures { result ≡ self.now.merges }
    {
        self.merges
    }
}
