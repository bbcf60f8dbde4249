//! The freeze of an epoch.
ghost use Rattle.std.specs.Prelude.{◌≡◌, ◌+◌, ◌*◌, ◌^◌, ◌≤◌, OnErr, OnOk, true};
ghost use Rattle.clsm_law.specs.{Merging.epoch_end, Views.next_word};
ghost use Rattle.clsm_words.specs.{Merging.facts_known, Plays.IsSeatOf};
ghost use Rattle.clsm_lock.specs.Keeping.{IsRefusedMerger};
ghost use Rattle.clsm_store_calls.specs.Freezing.{Freezes, HoldsClean, HoldsOn, IsClean};

use clsm_law::Word;
use clsm_lock::{Busy, lock_as_merger, try_lock_as_merger, unlock_as_merger};
use clsm_words::{Pace, RawMerger, Words};
use std::sync::Wait;

/// Cancels the cells of the undrawn times of the epoch that ends at `end`, in the merger's hold of
/// the lock.
fn pad<P: Pace>(words: &Words<P>, merger: &mut RawMerger, merges: u64, end: u64)
    requires of { IsSeatOf words.now merger.old }
    requires held { (merger.old.knows.merger.exclusive ≡ true) × (merger.old.knows.merger.merged ≡ merges) }
    requires end { end ≡ epoch_end merger.old.knows.layout merger.old.knows.merger }
    ensures of { IsSeatOf words.now merger.new }
    ensures held { HoldsOn merger.old.knows merger.new.knows }
    ensures padded { (facts_known merger.new.knows).padded ≡ true }
{
    let clock = words.look_as_merger(merger, Word::Clock);
    for time in clock..end {
        words.pad(merger, time);
    }
}

/// Freezes the epoch in the merger's hold of the lock, and leaves that.
fn freeze_held<P: Pace>(words: &Words<P>, merger: &mut RawMerger, merges: u64)
    requires of { IsSeatOf words.now merger.old }
    requires clean { HoldsClean merger.old.knows merges }
    requires room { (merges + 2) * merger.old.knows.layout.cells ≤ 2 ^ 62 }
    ensures of { IsSeatOf words.now merger.new }
    ensures freezes { Freezes merger.old.knows merger.new.knows merges merger.old.knows.merger.holds merger.old.knows.merger.busy }
{
    let end = (merges + 1) * words.cells();
    pad(words, merger, merges, end);
    words.extend_clock(merger, merges);
    words.extend_limit(merger, merges);
    unlock_as_merger(words, merger);
}

/// Freezes the epoch: no time of it is drawn any more, and the next epoch's may be.
pub fn freeze<P: Pace, R: Wait>(rt: &R, words: &Words<P>, merger: &mut RawMerger, merges: u64)
    requires of { IsSeatOf words.now merger.old }
    requires clean { IsClean merger.old.knows merges }
    requires room { (merges + 2) * merger.old.knows.layout.cells ≤ 2 ^ 62 }
    ensures of { IsSeatOf words.now merger.new }
    ensures freezes { Freezes merger.old.knows merger.new.knows merges (next_word merger.old.knows.merger.holds) merger.new.knows.merger.busy }
{
    lock_as_merger(rt, words, merger);
    freeze_held(words, merger, merges);
}

/// Tries once to freeze the epoch. Refused with `Busy` where a caller held the lock, which is
/// counted.
pub fn try_freeze<P: Pace>(
    words: &Words<P>,
    merger: &mut RawMerger,
    merges: u64,
) -> Result<(), Busy>
    requires of { IsSeatOf words.now merger.old }
    requires clean { IsClean merger.old.knows merges }
    requires room { (merges + 2) * merger.old.knows.layout.cells ≤ 2 ^ 62 }
    ensures of { IsSeatOf words.now merger.new }
    ensures freezes { OnOk result (Freezes merger.old.knows merger.new.knows merges
        (next_word merger.old.knows.merger.holds) merger.old.knows.merger.busy) }
    ensures busy { OnErr result (IsRefusedMerger merger.old.knows merger.new.knows) }
{
    try_lock_as_merger(words, merger)?;
    freeze_held(words, merger, merges);
    Ok(())
}
