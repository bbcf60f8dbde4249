//! The merger's steps: its hold of the lock, a freeze, the words of runs, a merge's end, and a
//! reclaim.
ghost use Rattle.std.specs.Prelude.{◌≡◌};
ghost use Rattle.clsm_law.specs.Merging.{epoch_end};
ghost use Rattle.clsm_law.specs.declared.step.Step.TheVariants.{EnterExclusive, LeaveExclusive, Look, Pad, WriteRun, ClearHead, ClearOrder, ClearState};
ghost use Rattle.clsm_law.specs.declared.step.Step.TheVariants.{Publish, ExtendClock, ExtendLimit};
ghost use Rattle.clsm_words.specs.Plays.{MayMerge, Merged, PlaysAsMerger, MergerAnswers};

use super::cells::won_if;
use super::{RawMerger, Words};
use crate::operation::Operation::{Exchange, Load, Store, Subtract};
use crate::pace::Pace;
use clsm_law::{Answer, CANCELLED_CELL, Cell, EXCLUSIVE_HOLD, Step, UNDECIDED_CELL, Word};
use clsm_model::Time;

impl<P: Pace> Words<P> {
    /// Enters the lock alone, if nobody holds it. Answers `Lost` where somebody does: the merger is
    /// outside then.
    #[inline(always)]
    pub fn enter_as_merger(&self, seat: &mut RawMerger) -> Answer
        requires { MayMerge self.now seat.old EnterExclusive }
        ensures { MergerAnswers self.now seat.old EnterExclusive result seat.new }
    {
        let hold = Exchange(0, EXCLUSIVE_HOLD);
        let found = self.play_as_merger(seat, &Step::EnterExclusive, Word::Lock, hold);
        won_if(found == 0)
    }

    /// Leaves the lock.
    #[inline(always)]
    pub fn leave_as_merger(&self, seat: &mut RawMerger)
        requires { MayMerge self.now seat.old LeaveExclusive }
        ensures { PlaysAsMerger self.now seat.old LeaveExclusive seat.new }
    {
        let hold = Subtract(EXCLUSIVE_HOLD);
        self.play_as_merger(seat, &Step::LeaveExclusive, Word::Lock, hold);
    }

    /// Looks at the word.
    #[inline(always)]
    pub fn look_as_merger(&self, seat: &mut RawMerger, word: Word) -> u64
        requires { MayMerge self.now seat.old (Look word) }
        ensures { Merged self.now seat.old (Look word) result seat.new }
    {
        self.play_as_merger(seat, &Step::Look(word), word, Load)
    }

    /// Cancels the cell of an undrawn time of the epoch.
    #[inline(always)]
    pub fn pad(&self, seat: &mut RawMerger, time: Time)
        requires { MayMerge self.now seat.old (Pad time) }
        ensures { PlaysAsMerger self.now seat.old (Pad time) seat.new }
    {
        let word = Word::State(self.words.cell_of(time));
        self.play_as_merger(seat, &Step::Pad(time), word, Store(CANCELLED_CELL));
    }

    /// Writes a word of a place that no reader searches.
    #[inline(always)]
    pub fn write_run(&self, seat: &mut RawMerger, word: Word, written: u64)
        requires { MayMerge self.now seat.old (WriteRun word written) }
        ensures { PlaysAsMerger self.now seat.old (WriteRun word written) seat.new }
    {
        let step = Step::WriteRun(word, written);
        self.play_as_merger(seat, &step, word, Store(written));
    }

    /// Ends a merge: readers search the place that was written from now on. `merged` is the number
    /// of merges before it.
    #[inline(always)]
    pub fn publish(&self, seat: &mut RawMerger, merged: u64)
        requires opens { MayMerge self.now seat.old Publish }
        requires merged { merged ≡ seat.old.knows.merger.merged }
        ensures { PlaysAsMerger self.now seat.old Publish seat.new }
    {
        seat.show_invariant();
        self.play_as_merger(seat, &Step::Publish, Word::Merged, Store(merged + 1));
    }

    /// Empties a chain of the retired region.
    #[inline(always)]
    pub fn clear_head(&self, seat: &mut RawMerger, region: u64, chain: u64)
        requires { MayMerge self.now seat.old (ClearHead region chain) }
        ensures { PlaysAsMerger self.now seat.old (ClearHead region chain) seat.new }
    {
        let step = Step::ClearHead { region, chain };
        self.play_as_merger(seat, &step, Word::Head { region, chain }, Store(0));
    }

    /// Empties the ordered list of the retired region.
    #[inline(always)]
    pub fn clear_order(&self, seat: &mut RawMerger, region: u64)
        requires { MayMerge self.now seat.old (ClearOrder region) }
        ensures { PlaysAsMerger self.now seat.old (ClearOrder region) seat.new }
    {
        let step = Step::ClearOrder(region);
        self.play_as_merger(seat, &step, Word::Order(region), Store(0));
    }

    /// Empties a cell of the retired region.
    #[inline(always)]
    pub fn clear_state(&self, seat: &mut RawMerger, cell: Cell)
        requires { MayMerge self.now seat.old (ClearState cell) }
        ensures { PlaysAsMerger self.now seat.old (ClearState cell) seat.new }
    {
        let empty = Store(UNDECIDED_CELL);
        self.play_as_merger(seat, &Step::ClearState(cell), Word::State(cell), empty);
    }

    /// Moves the clock to the end of the epoch. `merged` is the number of merges.
    #[inline(always)]
    pub fn extend_clock(&self, seat: &mut RawMerger, merged: u64)
        requires opens { MayMerge self.now seat.old ExtendClock }
        requires merged { merged ≡ seat.old.knows.merger.merged }
        ensures { PlaysAsMerger self.now seat.old ExtendClock seat.new }
    {
        seat.show_invariant();
        let end = (merged + 1) * self.words.layout.cells;
        self.play_as_merger(seat, &Step::ExtendClock, Word::Clock, Store(end));
    }

    /// Moves the limit to the end of the next epoch. `merged` is the number of merges.
    #[inline(always)]
    pub fn extend_limit(&self, seat: &mut RawMerger, merged: u64)
        requires opens { MayMerge self.now seat.old ExtendLimit }
        requires merged { merged ≡ seat.old.knows.merger.merged }
        ensures { PlaysAsMerger self.now seat.old ExtendLimit seat.new }
    {
        seat.show_invariant();
        let end = (merged + 2) * self.words.layout.cells;
        self.play_as_merger(seat, &Step::ExtendLimit, Word::Limit, Store(end));
    }
}
