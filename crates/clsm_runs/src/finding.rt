//! The first entry of a key below a time in one run.
ghost use Rattle.std.specs.Prelude.{◌≡◌, None, Some, is_some, true};
ghost use Rattle.clsm_levels.specs.Entry.{first_below, value_of};
ghost use Rattle.clsm_law.specs.Places.{is_named, entries_in};
ghost use Rattle.clsm_words.specs.Knowing.{row_of};
ghost use Rattle.clsm_words.specs.Keeping.{LooksAside};
ghost use Rattle.clsm_words.specs.Plays.{IsSeatOf};
ghost use Rattle.clsm_runs.specs.Searching.{HasEntry, IsPosition, IsSearchable, IsSide, StandsFrom, count_of};

use crate::entry::{HeldEntry, HeldRun, KEY, TIME, count};
use crate::side::{Side, Span, Turn, slope};
use clsm_model::{Key, Time, Value};
use clsm_words::{Guide, Pace, RawSeat, Words, load_into};

/// What a search is for: the newest version of the key with a time below `until`.
#[derive(Clone, Copy)]
pub struct Wanted {
    pub key: Key,
    pub until: Time,
}

/// How many entries the run has, and how its keys stand: as the seat's guide says, where that is of
/// a run with as many.
#[inline(always)]
fn count_and_guide<P: Pace>(words: &Words<P>, seat: &mut RawSeat, run: HeldRun) -> (u64, Guide)
    requires of { IsSeatOf words.now seat.old }
    requires run { IsSearchable seat.old.knows run.component run.place }
    ensures of { IsSeatOf words.now seat.new }
    ensures looks { LooksAside seat.old.knows seat.new.knows }
    ensures told { result.0 ≡ count_of seat.old.knows run.place }
{
    let count = count(words, seat, run);
    let guide = seat.guide(run.place);
    if guide.count == count {
        return (count, guide);
    }
    (count, new_guide(words, seat, run, count))
}

/// How the keys stand in the run, which has so many entries, by looks at both ends. It is left for
/// later searches.
#[inline(never)]
fn new_guide<P: Pace>(words: &Words<P>, seat: &mut RawSeat, run: HeldRun, count: u64) -> Guide
    requires of { IsSeatOf words.now seat.old }
    requires run { IsSearchable seat.old.knows run.component run.place }
    requires count { count ≡ count_of seat.old.knows run.place }
    ensures of { IsSeatOf words.now seat.new }
    ensures looks { LooksAside seat.old.knows seat.new.knows }
{
    if count == 0 {
        return Guide::NONE;
    }
    let entry = count - 1;
    let last = HeldEntry { run, entry }.part(words, seat, KEY);
    let entry = 0;
    let first = HeldEntry { run, entry }.part(words, seat, KEY);
    let slope = slope(count, first, last);
    let guide = Guide {
        count,
        first,
        last,
        slope,
    };
    seat.leave_guide(run.place, guide);
    guide
}

impl Wanted {
    /// Where the entry stands to the first of the key with a time below `until`. Its time is looked
    /// at only where it is of the key.
    #[inline(always)]
    fn compare<P: Pace>(self, words: &Words<P>, seat: &mut RawSeat, at: HeldEntry) -> Side
        requires of { IsSeatOf words.now seat.old }
        requires has { HasEntry seat.old.knows at.run.component at.run.place at.entry }
        ensures of { IsSeatOf words.now seat.new }
        ensures looks { LooksAside seat.old.knows seat.new.knows }
        ensures side { IsSide (row_of seat.old.knows) at.run.place at.entry self.key self.until result }
    {
        let found = at.part(words, seat, KEY);
        if found < self.key {
            return Side::Before(found);
        }
        if found > self.key {
            return Side::Behind(found);
        }
        let spelled = at.part(words, seat, TIME);
        if spelled / 2 < self.until {
            Side::Hit(spelled)
        } else {
            Side::Before(found)
        }
    }

    /// The empty span at the first entry of the key with a time below `until`, which it then hit;
    /// where there is none, at the first entry of a greater key, or at the run's end.
    pub(crate) fn bound<P: Pace>(self, words: &Words<P>, seat: &mut RawSeat, run: HeldRun) -> Span
        requires of { IsSeatOf words.now seat.old }
        requires run { IsSearchable seat.old.knows run.component run.place }
        ensures of { IsSeatOf words.now seat.new }
        ensures looks { LooksAside seat.old.knows seat.new.knows }
        ensures stands { StandsFrom seat.old.knows run.place self.until self.key result.low }
        ensures found { IsPosition seat.old.knows run.place self.key self.until result.hit }
    {
        seat.show_invariant();
        let (count, guide) = count_and_guide(words, seat, run);
        let mut span = Span::whole(count, &guide);
        let mut turn = Turn::first(&guide);
        while span.low < span.high {
            let at = span.next(self.key, turn);
            match self.compare(words, seat, HeldEntry { run, entry: at }) {
                Side::Before(found) => {
                    (span.low, span.low_key) = (at + 1, found);
                    turn = turn.after(true);
                }
                Side::Hit(spelled) => {
                    (span.high, span.high_key, span.hit) = (at, self.key, Some((at, spelled)));
                    turn = turn.after(false);
                }
                Side::Behind(found) => {
                    (span.high, span.high_key, span.hit) = (at, found, None);
                    turn = turn.after(false);
                }
            }
        }
        turn.end(seat, run.place);
        span
    }

    /// Leaves the value of the first entry of the wanted key with a time below `until` in the run,
    /// which the held component names, in the caller's place, which is empty before; and answers
    /// whether there is such an entry. The search guesses by how the run's keys stand, and by each
    /// guess anew, and halves behind a few guesses. As in LevelDB the newest entry of a key stands
    /// first, so it is the newest version below `until`; the place stays empty for a removal. Only
    /// the found entry's value is read. It never waits, takes no memory and is never refused.
    #[inline(always)]
    pub(crate) fn find<P: Pace>(
        self,
        words: &Words<P>,
        seat: &mut RawSeat,
        run: HeldRun,
        into: &mut Option<Value>,
    ) -> bool
        requires of { IsSeatOf words.now seat.old }
        requires held { seat.old.knows.view.held ≡ Some run.component }
        requires named { is_named run.component run.place ≡ true }
        requires empty { into.old ≡ None }
        ensures of { IsSeatOf words.now seat.new }
        ensures looks { LooksAside seat.old.knows seat.new.knows }
        ensures found { result ≡ is_some (first_below (entries_in (row_of seat.old.knows) run.place) self.key self.until) }
        ensures value { into.new ≡ value_of (first_below (entries_in (row_of seat.old.knows) run.place) self.key self.until) }
    {
        let Some((entry, spelled)) = self.bound(words, seat, run).hit else {
            return false;
        };
        if spelled % 2 != 1 {
            load_into(words, seat, &HeldEntry { run, entry }, into);
        }
        true
    }
}
