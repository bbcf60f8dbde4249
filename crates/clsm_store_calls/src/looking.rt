//! Looks at how full an epoch is, and the runs.
ghost use Rattle.std.specs.Prelude.{◌≡◌, length};
ghost use Rattle.clsm_levels.specs.Cursors.{row_at};
ghost use Rattle.clsm_words.specs.Plays.{IsSeatOf};
ghost use Rattle.clsm_store_calls.specs.Freezing.{IsClean, IsFrozen};
ghost use Rattle.clsm_store_calls.specs.Looking.{LooksForRoom, PollsClock, drawn_of};
ghost use Rattle.clsm_store_calls.specs.Merging.{IsReady, clean_of, frozen_of, merger_of};
ghost use Rattle.clsm_store_calls.specs.Resting.{IsAtRest};

use crate::merger_seat::MergerSeat;
use clsm_law::Word;
use clsm_words::{Pace, RawSeat, Words};

/// How many timestamps are left below the limit: a look at LIMIT, and then one at CLOCK. The limit
/// never falls, so at the second look at least so many were left.
pub fn room_at<P: Pace>(words: &Words<P>, seat: &mut RawSeat) -> u64
    requires of { IsSeatOf words.now seat.old }
    requires rests { IsAtRest seat.old.knows }
    ensures of { IsSeatOf words.now seat.new }
    ensures rests { IsAtRest seat.new.knows }
    ensures looks { LooksForRoom seat.old.knows seat.new.knows result }
{
    let limit = words.look(seat, Word::Limit);
    let clock = words.look(seat, Word::Clock);
    limit.saturating_sub(clock)
}

/// How many timestamps of the current epoch are drawn: a look at CLOCK, while nothing is frozen.
pub fn drawn_at<P: Pace>(words: &Words<P>, merger: &mut MergerSeat) -> u64
    requires of { IsSeatOf words.now merger.old.raw }
    requires clean { IsClean merger.old.raw.knows merger.old.merges }
    requires ready { IsReady merger.old }
    ensures of { IsSeatOf words.now merger.new.raw }
    ensures clean { IsClean merger.new.raw.knows merger.new.merges }
    ensures ready { IsReady merger.new }
    ensures polls { PollsClock (clean_of merger.old) (clean_of merger.new) }
    ensures drawn { result ≡ drawn_of (merger_of merger.new) }
{
    let clock = words.look_as_merger(&mut merger.raw, Word::Clock);
    clock.saturating_sub(merger.merges.saturating_mul(words.cells()))
}

/// How many entries the run has that is searched at this turn, while an epoch is frozen: none where
/// there are fewer runs.
pub fn entries_at<P: Pace>(words: &Words<P>, merger: &mut MergerSeat, turn: u64) -> u64
    requires of { IsSeatOf words.now merger.old.raw }
    requires frozen { IsFrozen merger.old.raw.knows merger.old.merges }
    requires ready { IsReady merger.old }
    ensures of { IsSeatOf words.now merger.new.raw }
    ensures frozen { IsFrozen merger.new.raw.knows merger.new.merges }
    ensures ready { IsReady merger.new }
    ensures same { frozen_of merger.new ≡ frozen_of merger.old }
    ensures told { result ≡ length (row_at (frozen_of merger.old).runs turn) }
{
    merger.raw.show_invariant();
    clsm_runs::entries_at(words, &mut merger.raw, merger.merges, turn)
}
