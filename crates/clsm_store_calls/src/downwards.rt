//! Pages downwards at the words: the greatest keys of a range, at one time. Each is recorded as a
//! page of no rows.
ghost use Rattle.std.specs.Prelude.{◌≡◌, [], None, Some, length, map, take};
ghost use Rattle.clsm_model.specs.{History.plain, Right.Reads, Right.page_deed};
ghost use Rattle.clsm_law.specs.{declared.step.End.TheVariants.Recorded, OpenSteps.open_time, Views.next_word};
ghost use Rattle.clsm_words.specs.{Keeping.Looks, Plays.IsSeatOf};
ghost use Rattle.clsm_scan.specs.Filling.{AreFilled, FillsOn};
ghost use Rattle.clsm_store_calls.specs.{Downwards.IsPageDown, Reading.MayReadBelow, Reading.ReadsAt, Resting.RestsAt, Snapshots.ReadsUnder};

use crate::reading::begin;
use crate::scanning::rows_below;
use crate::snapshotting::{OpenSnapshot, begin_under};
use crate::visiting::end_of_visit;
use clsm_law::End;
use clsm_model::{Time, Value};
use clsm_pins::unpin;
use clsm_scan::{Bounds, Filling, ReadPoint, Row, scan_down};
use clsm_words::{Pace, RawSeat, Words};
use std::alloc::Global;

/// What a page downwards is of: the keys within the bounds; and what its record needs.
#[derive(Clone, Copy)]
pub struct PageDown {
    pub alloc: Global,
    pub bounds: Bounds,
}

/// The answer of a page downwards, beside the rows that it filled: its time, the first key of the
/// range that has a value, and the key of the next row, if one was left out.
#[derive(Clone, Copy)]
pub struct PagedDown {
    pub time: Time,
    pub first: Option<u64>,
    pub more: Option<u64>,
}

/// The first key within the bounds that has a value at the point.
fn first_below<P: Pace>(
    words: &Words<P>,
    seat: &mut RawSeat,
    point: ReadPoint,
    bounds: Bounds,
) -> Option<u64>
    requires of { IsSeatOf words.now seat.old }
    requires may { MayReadBelow seat.old.knows point.component point.until }
    ensures of { IsSeatOf words.now seat.new }
    ensures looks { Looks seat.old.knows seat.new.knows }
    ensures reads { Reads (plain seat.old.knows.past) point.until (page_deed bounds.lo bounds.hi 0 [] result) }
{
    let mut rows: [(u64, Value); 0] = [];
    let mut filling = Filling {
        rows: &mut rows,
        count: 0,
    };
    let Ok(first) = rows_below(words, seat, point, bounds, &mut filling);
    first
}

/// Fills the page at the point, and answers the end of its read too. Its time is not below what is
/// merged into its component, or it is that of the seat's open snapshot.
fn page_below<P: Pace, R: Row>(
    words: &Words<P>,
    seat: &mut RawSeat,
    point: ReadPoint,
    page: PageDown,
    filling: &mut Filling<'_, R>,
) -> (PagedDown, End)
    requires of { IsSeatOf words.now seat.old }
    requires may { MayReadBelow seat.old.knows point.component point.until }
    requires none { filling.old.count ≡ 0 }
    ensures of { IsSeatOf words.now seat.new }
    ensures looks { Looks seat.old.knows seat.new.knows }
    ensures time { result.0.time ≡ point.until }
    ensures ready { AreFilled R.is_row filling.new.rows.now filling.new.count }
    ensures goes_on { FillsOn filling.old.rows 0 filling.new.rows filling.new.count }
    ensures page { IsPageDown (plain seat.old.knows.past) point.until page.bounds.lo page.bounds.hi (length filling.old.rows.now)
        (map R.pair (take filling.new.count filling.new.rows.now)) result.0.more }
    ensures reads { Reads (plain seat.old.knows.past) point.until (page_deed page.bounds.lo page.bounds.hi 0 [] result.0.first) }
    ensures end { result.1 ≡ Recorded (page_deed page.bounds.lo page.bounds.hi 0 [] result.0.first) }
{
    let bounds = page.bounds;
    seat.show_invariant();
    let more = scan_down(words, seat, point, bounds, filling);
    let first = first_below(words, seat, point, bounds);
    let time = point.until;
    (
        PagedDown { time, first, more },
        end_of_visit(page.alloc, bounds, first),
    )
}

/// Fills the page at a time of its own, where no snapshot is open.
pub fn page_down_at<P: Pace, R: Row>(
    words: &Words<P>,
    seat: &mut RawSeat,
    pin_word: u64,
    page: PageDown,
    filling: &mut Filling<'_, R>,
) -> PagedDown
    requires rests { RestsAt words.now seat.old pin_word }
    requires closed { open_time seat.old.knows.view.snapshot ≡ None }
    requires none { filling.old.count ≡ 0 }
    ensures rests { RestsAt words.now seat.new (next_word (next_word pin_word)) }
    ensures reads { ReadsAt seat.old.knows seat.new.knows result.time (page_deed page.bounds.lo page.bounds.hi 0 [] result.first) }
    ensures ready { AreFilled R.is_row filling.new.rows.now filling.new.count }
    ensures goes_on { FillsOn filling.old.rows 0 filling.new.rows filling.new.count }
    ensures page { IsPageDown (plain seat.new.knows.past) result.time page.bounds.lo page.bounds.hi (length filling.old.rows.now)
        (map R.pair (take filling.new.count filling.new.rows.now)) result.more }
{
    let point = begin(words, seat, pin_word);
    let (paged, end) = page_below(words, seat, point, page, filling);
    unpin(words, seat, pin_word.wrapping_add(1), &end);
    paged
}

/// Fills the page at the time of the open snapshot.
pub fn page_down_under<P: Pace, R: Row>(
    words: &Words<P>,
    seat: &mut RawSeat,
    snapshot: OpenSnapshot,
    page: PageDown,
    filling: &mut Filling<'_, R>,
) -> PagedDown
    requires rests { RestsAt words.now seat.old snapshot.pin_word }
    requires opened { open_time seat.old.knows.view.snapshot ≡ Some snapshot.time }
    requires none { filling.old.count ≡ 0 }
    ensures rests { RestsAt words.now seat.new (next_word (next_word snapshot.pin_word)) }
    ensures time { result.time ≡ snapshot.time }
    ensures reads { ReadsUnder seat.old.knows seat.new.knows snapshot.time (page_deed page.bounds.lo page.bounds.hi 0 [] result.first) }
    ensures ready { AreFilled R.is_row filling.new.rows.now filling.new.count }
    ensures goes_on { FillsOn filling.old.rows 0 filling.new.rows filling.new.count }
    ensures page { IsPageDown (plain seat.new.knows.past) result.time page.bounds.lo page.bounds.hi (length filling.old.rows.now)
        (map R.pair (take filling.new.count filling.new.rows.now)) result.more }
{
    let point = begin_under(words, seat, snapshot);
    let (paged, end) = page_below(words, seat, point, page, filling);
    unpin(words, seat, snapshot.pin_word.wrapping_add(1), &end);
    paged
}
