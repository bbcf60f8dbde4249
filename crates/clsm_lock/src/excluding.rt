//! Holds of the lock alone: a caller's for a batch, and the merger's for a freeze.
ghost use Rattle.std.specs.Prelude.{◌≡◌, [], None, OnErr, OnOk, true, false};
ghost use Rattle.clsm_law.specs.declared.view.Mode.TheVariants.{Free, Exclusive};
ghost use Rattle.clsm_law.specs.declared.step.Step.TheVariants.{LeaveExclusive};
ghost use Rattle.clsm_law.specs.Views.{next_word};
ghost use Rattle.clsm_law.specs.Merging.{is_clean, is_freeze_whole};
ghost use Rattle.clsm_words.specs.Knowing.{HoldsAlone};
ghost use Rattle.clsm_words.specs.Plays.{IsSeatOf, PlaysAsMerger};
ghost use Rattle.clsm_lock.specs.Keeping.{EntersAlone, EntersExclusively, IsRefused, IsRefusedMerger, Leaves};

use crate::sharing::Busy;
use clsm_law::Answer;
use clsm_words::{Pace, RawMerger, RawSeat, Words};
use std::sync::Wait;
use std::thread;

/// Tries once to hold the lock alone: one exchange. It never waits. With `Ok` the seat holds the
/// lock, in a hold in which it has looked at nothing yet: nobody else holds it, so no time is drawn
/// and undecided. Refused with `Busy` where somebody held it; the seat is then as it was, but that
/// its count of such refusals has moved by one.
pub fn try_lock_exclusive<P: Pace>(words: &Words<P>, seat: &mut RawSeat) -> Result<(), Busy>
    requires of { IsSeatOf words.now seat.old }
    requires free { seat.old.knows.view.mode ≡ Free }
    ensures of { IsSeatOf words.now seat.new }
    ensures entered { OnOk result (EntersExclusively seat.old.knows seat.new.knows seat.old.knows.view.busy) }
    ensures alone { OnOk result (HoldsAlone seat.new.knows) }
    ensures refused { OnErr result (IsRefused seat.old.knows seat.new.knows) }
{
    match words.enter_exclusive(seat) {
        Answer::Done => Ok(()),
        _ => Err(Busy),
    }
}

/// Holds the lock alone, and waits for that as long as it takes. The seat then holds the lock, in a
/// hold in which it has looked at nothing yet: nobody else holds it, so no time is drawn and
/// undecided.
pub fn lock_exclusive<P: Pace, R: Wait>(rt: &R, words: &Words<P>, seat: &mut RawSeat)
    requires of { IsSeatOf words.now seat.old }
    requires free { seat.old.knows.view.mode ≡ Free }
    ensures of { IsSeatOf words.now seat.new }
    ensures entered { EntersExclusively seat.old.knows seat.new.knows seat.new.knows.view.busy }
    ensures alone { HoldsAlone seat.new.knows }
{
    for _ in rt.forever() {
        if try_lock_exclusive(words, seat).is_ok() {
            return;
        }
        thread::yield_now();
    }
    unreachable!()
}

/// Leaves the lock that the seat holds alone. It has staged no member that it has not committed. It
/// never waits and is never refused.
pub fn unlock_exclusive<P: Pace>(words: &Words<P>, seat: &mut RawSeat)
    requires of { IsSeatOf words.now seat.old }
    requires holds { seat.old.knows.view.mode ≡ Exclusive }
    requires undrawn { seat.old.knows.view.drawn ≡ None }
    requires unstaged { seat.old.knows.view.staged ≡ [] }
    ensures of { IsSeatOf words.now seat.new }
    ensures left { Leaves seat.old.knows seat.new.knows }
{
    seat.show_invariant();
    words.leave_exclusive(seat);
}

/// Tries once to hold the lock alone as the merger: one exchange. It never waits. Nothing is frozen
/// then. With `Ok` no caller holds it while the merger does, so no time is drawn, and what each
/// time came to is known to the merger. Refused with `Busy` where a caller held it; the merger is
/// then as it was, but that its count of such refusals has moved by one.
pub fn try_lock_as_merger<P: Pace>(words: &Words<P>, merger: &mut RawMerger) -> Result<(), Busy>
    requires of { IsSeatOf words.now merger.old }
    requires clean { is_clean merger.old.knows.merger.phase ≡ true }
    requires free { merger.old.knows.merger.exclusive ≡ false }
    ensures of { IsSeatOf words.now merger.new }
    ensures entered { OnOk result (EntersAlone merger.old.knows merger.new.knows merger.old.knows.merger.busy) }
    ensures refused { OnErr result (IsRefusedMerger merger.old.knows merger.new.knows) }
{
    match words.enter_as_merger(merger) {
        Answer::Done => {
            merger.show_invariant();
            Ok(())
        }
        _ => Err(Busy),
    }
}

/// Holds the lock alone as the merger, and waits for that as long as it takes. Nothing is frozen
/// then. While the merger holds it no caller does (a clause of the law that the words keep), so no
/// time is drawn, and what each time came to is known to the merger.
pub fn lock_as_merger<P: Pace, R: Wait>(rt: &R, words: &Words<P>, merger: &mut RawMerger)
    requires of { IsSeatOf words.now merger.old }
    requires clean { is_clean merger.old.knows.merger.phase ≡ true }
    requires free { merger.old.knows.merger.exclusive ≡ false }
    ensures of { IsSeatOf words.now merger.new }
    ensures entered { EntersAlone merger.old.knows merger.new.knows merger.new.knows.merger.busy }
{
    for _ in rt.forever() {
        if try_lock_as_merger(words, merger).is_ok() {
            return;
        }
        thread::yield_now();
    }
    unreachable!()
}

/// Leaves the lock that the merger holds. A freeze that it began is whole. It never waits and is
/// never refused.
pub fn unlock_as_merger<P: Pace>(words: &Words<P>, merger: &mut RawMerger)
    requires of { IsSeatOf words.now merger.old }
    requires holds { merger.old.knows.merger.exclusive ≡ true }
    requires whole { is_freeze_whole merger.old.knows.merger ≡ true }
    ensures { PlaysAsMerger words.now merger.old LeaveExclusive merger.new }
{
    words.leave_as_merger(merger);
}
