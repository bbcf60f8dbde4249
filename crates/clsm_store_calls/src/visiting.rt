//! Visits of keys at the words: reads of many keys, at one time. Each is recorded as a page of no
//! rows.
ghost use Rattle.std.specs.Prelude.{◌≡◌, [], None, Option, Some};
ghost use Rattle.clsm_model.specs.{History.plain, Right.Reads, Right.page_deed};
ghost use Rattle.clsm_law.specs.{declared.step.End.TheVariants.Recorded, OpenSteps.open_time, Views.next_word};
ghost use Rattle.clsm_words.specs.{Keeping.Looks, Plays.IsSeatOf};
ghost use Rattle.clsm_store_calls.specs.{Reading.MayReadBelow, Reading.ReadsAt, Resting.RestsAt};
ghost use Rattle.clsm_store_calls.specs.{Scanning.IsKeyVisit, Snapshots.ReadsUnder};

use crate::got::Counted;
use crate::reading::begin;
use crate::snapshotting::{OpenSnapshot, begin_under};
use clsm_law::End;
use clsm_model::{Deed, PageRange, Rows};
use clsm_pins::unpin;
use clsm_scan::{Bounds, KeyCount, ReadPoint, Visitor, visit};
use clsm_words::{Pace, RawSeat, Words};
use std::alloc::Global;

/// The end of a visit, which is recorded as a page of no rows. It takes no memory.
pub(crate) fn end_of_visit(alloc: Global, bounds: Bounds, more: Option<u64>) -> End
    ensures { result ≡ Recorded (page_deed bounds.lo bounds.hi 0 [] more) }
{
    let (from, hi, max) = (bounds.lo, bounds.hi, 0);
    let range = PageRange { from, hi, max };
    let rows = Rows::new(Vec::new(alloc));
    End::Recorded(Deed::Page { range, rows, more })
}

/// A visit of the keys within the bounds: what takes their rows, and what its record needs.
#[derive(Drop)]
pub struct Visit<V> {
    pub alloc: Global,
    pub bounds: Bounds,
    pub visitor: V,
}

/// Has the visitor take the rows within the bounds at the point, and answers the end of the visit
/// too. Its time is not below what is merged into its component, or it is that of the seat's open
/// snapshot.
fn visit_below<P: Pace, V: Visitor>(
    words: &Words<P>,
    seat: &mut RawSeat,
    point: ReadPoint,
    wanted: &mut Visit<V>,
) -> (Counted, End)
    requires of { IsSeatOf words.now seat.old }
    requires may { MayReadBelow seat.old.knows point.component point.until }
    requires ready { V.is_ready wanted.old.visitor }
    ensures of { IsSeatOf words.now seat.new }
    ensures looks { Looks seat.old.knows seat.new.knows }
    ensures time { result.0.time ≡ point.until }
    ensures visits { IsKeyVisit V.takes (plain seat.old.knows.past) point.until wanted.old.bounds.lo wanted.old.bounds.hi result.0.keys
        wanted.old.visitor wanted.new.visitor }
    ensures reads { Reads (plain seat.old.knows.past) point.until (page_deed wanted.old.bounds.lo wanted.old.bounds.hi 0 [] result.0.first) }
    ensures end { result.1 ≡ Recorded (page_deed wanted.old.bounds.lo wanted.old.bounds.hi 0 [] result.0.first) }
{
    seat.show_invariant();
    let bounds = wanted.bounds;
    let KeyCount { keys, first } = visit(words, seat, point, bounds, &mut wanted.visitor);
    let time = point.until;
    (
        Counted { time, keys, first },
        end_of_visit(wanted.alloc, bounds, first),
    )
}

/// A visit at a time of its own, where no snapshot is open.
pub fn visit_at<P: Pace, V: Visitor>(
    words: &Words<P>,
    seat: &mut RawSeat,
    pin_word: u64,
    visit: &mut Visit<V>,
) -> Counted
    requires rests { RestsAt words.now seat.old pin_word }
    requires none { open_time seat.old.knows.view.snapshot ≡ None }
    requires ready { V.is_ready visit.old.visitor }
    ensures rests { RestsAt words.now seat.new (next_word (next_word pin_word)) }
    ensures reads { ReadsAt seat.old.knows seat.new.knows result.time (page_deed visit.old.bounds.lo visit.old.bounds.hi 0 [] result.first) }
    ensures visits { IsKeyVisit V.takes (plain seat.new.knows.past) result.time visit.old.bounds.lo visit.old.bounds.hi result.keys
        visit.old.visitor visit.new.visitor }
{
    let point = begin(words, seat, pin_word);
    let (counted, end) = visit_below(words, seat, point, visit);
    unpin(words, seat, pin_word.wrapping_add(1), &end);
    counted
}

/// A visit at the time of the open snapshot.
pub fn visit_under<P: Pace, V: Visitor>(
    words: &Words<P>,
    seat: &mut RawSeat,
    snapshot: OpenSnapshot,
    visit: &mut Visit<V>,
) -> Counted
    requires rests { RestsAt words.now seat.old snapshot.pin_word }
    requires opened { open_time seat.old.knows.view.snapshot ≡ Some snapshot.time }
    requires ready { V.is_ready visit.old.visitor }
    ensures rests { RestsAt words.now seat.new (next_word (next_word snapshot.pin_word)) }
    ensures time { result.time ≡ snapshot.time }
    ensures reads { ReadsUnder seat.old.knows seat.new.knows snapshot.time (page_deed visit.old.bounds.lo visit.old.bounds.hi 0 [] result.first) }
    ensures visits { IsKeyVisit V.takes (plain seat.new.knows.past) result.time visit.old.bounds.lo visit.old.bounds.hi result.keys
        visit.old.visitor visit.new.visitor }
{
    let point = begin_under(words, seat, snapshot);
    let (counted, end) = visit_below(words, seat, point, visit);
    unpin(words, seat, snapshot.pin_word.wrapping_add(1), &end);
    counted
}
