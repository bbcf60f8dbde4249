//! The rows of a range of keys in a held component.
ghost use Rattle.std.specs.Prelude.{◌≡◌, ◌≤◌, [], length, IfOk, Some};
ghost use Rattle.clsm_words.specs.Keeping.{LooksAside};
ghost use Rattle.clsm_words.specs.Plays.{IsSeatOf};
ghost use Rattle.clsm_scan.specs.Collected.{IsCollected, IsVisit, left_at};
ghost use Rattle.clsm_scan.specs.Sources.{MayScan, epoch_walk, found_in_component, found_in_epochs, found_in_runs, level_one_walk, level_zero_walk};
ghost use Rattle.clsm_scan.specs.Streams.{HasAdded, IsMerging};

use crate::any_walk::AnyWalk;
use crate::collecting::{Bounds, collect};
use crate::collector::Collector;
use crate::epoch_cursor::EpochCursor;
use crate::merged::Merged;
use crate::run_cursor::RunCursor;
use crate::visiting::{KeyCount, Visitor, visit_keys};
use clsm_law::level_one_place;
use clsm_levels::level_zero_runs;
use clsm_model::{Key, Time};
use clsm_runs::HeldRun;
use clsm_search::Epoch;
use clsm_words::{Pace, RawSeat, Words};

/// The walk along the epoch's writes below the time, if it begins below that.
#[inline(always)]
fn epoch_below(component: u64, number: u64, first: Time, cells: u64, until: Time) -> Option<AnyWalk>
    ensures { result ≡ epoch_walk component number first cells until }
{
    if first < until {
        Some(AnyWalk::AlongEpoch(EpochCursor::new(Epoch {
            component,
            number,
            first,
            until: until.min(first.saturating_add(cells)),
        })))
    } else {
        None
    }
}

/// The walk along the run at the place of level 0, if the component names it.
#[inline(always)]
fn level_zero(component: u64, place: u64, until: Time) -> Option<AnyWalk>
    ensures { result ≡ level_zero_walk component place until }
{
    if place < level_zero_runs(component) {
        let run = HeldRun { component, place };
        Some(AnyWalk::AlongRun(RunCursor::new(run, until)))
    } else {
        None
    }
}

/// The walk along the run of level 1.
#[inline(always)]
fn level_one(component: u64, until: Time) -> AnyWalk
    ensures { result ≡ level_one_walk component until }
{
    let place = level_one_place(component);
    AnyWalk::AlongRun(RunCursor::new(HeldRun { component, place }, until))
}

/// Where a scan reads: the component that the seat holds, below this time.
#[derive(Clone, Copy)]
pub struct ReadPoint {
    pub component: u64,
    pub until: Time,
}

impl Merged {
    /// Adds the walks along the component's epochs from the key on, the later one first.
    #[inline(always)]
    fn add_epochs<P: Pace>(&mut self, words: &Words<P>, seat: &mut RawSeat, at: ReadPoint, key: Key)
        requires of { IsSeatOf words.now seat.old }
        requires may { MayScan seat.old.knows at.component at.until }
        requires none { self.old.streams.items ≡ [] }
        ensures of { IsSeatOf words.now seat.new }
        ensures room { length self.new.streams.items ≤ 2 }
        ensures added { HasAdded key seat.old.knows self.old seat.new.knows self.new (found_in_epochs seat.old.knows at.component at.until) }
    {
        let ReadPoint { component, until } = at;
        let cells = words.cells();
        let first = component.saturating_mul(cells);
        let second = first.saturating_add(cells);
        let number = component.saturating_add(1);
        let later = epoch_below(component, number, second, cells, until);
        self.add(words, seat, later, key);
        let earlier = epoch_below(component, component, first, cells, until);
        self.add(words, seat, earlier, key);
    }

    /// Adds the walks along the component's runs from the key on, the newest first.
    #[inline(always)]
    fn add_runs<P: Pace>(&mut self, words: &Words<P>, seat: &mut RawSeat, at: ReadPoint, key: Key)
        requires merges { IsMerging words.now seat.old key self.old }
        requires held { seat.old.knows.view.held ≡ Some at.component }
        requires room { length self.old.streams.items ≤ 2 }
        ensures of { IsSeatOf words.now seat.new }
        ensures added { HasAdded key seat.old.knows self.old seat.new.knows self.new (found_in_runs seat.old.knows at.component at.until) }
    {
        let ReadPoint { component, until } = at;
        self.add(words, seat, level_zero(component, 2, until), key);
        self.add(words, seat, level_zero(component, 1, until), key);
        self.add(words, seat, level_zero(component, 0, until), key);
        self.add(words, seat, Some(level_one(component, until)), key);
    }

    /// Adds the walks along all that the point reads, from the key on.
    #[inline]
    fn add_all<P: Pace>(&mut self, words: &Words<P>, seat: &mut RawSeat, at: ReadPoint, key: Key)
        requires of { IsSeatOf words.now seat.old }
        requires may { MayScan seat.old.knows at.component at.until }
        requires none { self.old.streams.items ≡ [] }
        ensures of { IsSeatOf words.now seat.new }
        ensures added { HasAdded key seat.old.knows self.old seat.new.knows self.new (found_in_component seat.old.knows at.component at.until) }
    {
        self.add_epochs(words, seat, at, key);
        self.add_runs(words, seat, at, key);
    }
}

/// Collects the rows of the keys within the bounds at the point, by rising key: all of them, and
/// answers `None`, or as many as the collector may have, and answers the key of the next one. It
/// goes along the ordered lists of the epochs and the runs, and takes no memory but what the
/// collector takes; if a row is refused, the seat is as after looks. It never waits.
pub fn scan<P: Pace, R: Collector>(
    words: &Words<P>,
    seat: &mut RawSeat,
    point: ReadPoint,
    bounds: Bounds,
    rows: &mut R,
) -> Result<Option<u64>, R::Refusal>
    requires of { IsSeatOf words.now seat.old }
    requires may { MayScan seat.old.knows point.component point.until }
    requires ready { R.is_ready rows.old }
    requires none { R.rows rows.old ≡ [] }
    ensures of { IsSeatOf words.now seat.new }
    ensures looks { LooksAside seat.old.knows seat.new.knows }
    ensures ready { R.is_ready rows.new }
    ensures most { R.most rows.new ≡ R.most rows.old }
    ensures goes_on { R.goes_on rows.old rows.new }
    ensures rows { IfOk result (λ more. IsCollected (left_at (found_in_component seat.old.knows point.component point.until))
        bounds.lo bounds.hi (R.most rows.old) (R.rows rows.new) more) }
{
    let mut merged = Merged::new(bounds.hi);
    merged.add_all(words, seat, point, bounds.lo);
    collect(words, seat, &mut merged, bounds, rows)
}

/// Has the visitor take the rows of all keys within the bounds at the point, by rising key. It
/// answers how many there are, or 2^64 - 1 if all 2^64 keys have a value, and the first of them. It
/// goes along the ordered lists of the epochs and the runs as a scan, and takes no memory. It never
/// waits.
pub fn visit<P: Pace, V: Visitor>(
    words: &Words<P>,
    seat: &mut RawSeat,
    point: ReadPoint,
    bounds: Bounds,
    visitor: &mut V,
) -> KeyCount
    requires of { IsSeatOf words.now seat.old }
    requires may { MayScan seat.old.knows point.component point.until }
    requires ready { V.is_ready visitor.old }
    ensures of { IsSeatOf words.now seat.new }
    ensures looks { LooksAside seat.old.knows seat.new.knows }
    ensures visits { IsVisit V.takes (left_at (found_in_component seat.old.knows point.component point.until))
        bounds.lo bounds.hi result.keys result.first visitor.old visitor.new }
{
    let mut merged = Merged::new(bounds.hi);
    merged.add_all(words, seat, point, bounds.lo);
    visit_keys(words, seat, &mut merged, bounds, visitor)
}
