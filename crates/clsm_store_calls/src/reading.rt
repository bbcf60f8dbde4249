//! Reads at the words: a pin, a look at the clock, all below it settled, a search, and the unpin
//! with the record.
ghost use Rattle.std.specs.Prelude.{◌≡◌, ◌≤◌, None, Some, length};
ghost use Rattle.clsm_model.specs.History.{plain, value};
ghost use Rattle.clsm_model.specs.declared.record.Deed.TheVariants.{Get};
ghost use Rattle.clsm_law.specs.declared.step.End.TheVariants.{Recorded};
ghost use Rattle.clsm_law.specs.Views.{next_word};
ghost use Rattle.clsm_words.specs.Keeping.{Looks};
ghost use Rattle.clsm_words.specs.Plays.{IsSeatOf};
ghost use Rattle.clsm_store_calls.specs.Resting.{RestsAt};
ghost use Rattle.clsm_store_calls.specs.Reading.{BeginsRead, MayReadBelow, ReadsAt};

use crate::got::Got;
use clsm_law::{End, Word};
use clsm_memtable::settle_below;
use clsm_model::{Deed, Key, Value};
use clsm_pins::{pin, unpin};
use clsm_runs::Wanted;
use clsm_scan::ReadPoint;
use clsm_search::{newest, value_at};
use clsm_words::{Pace, RawSeat, Words};

/// Leaves the value of the key at the point in the caller's place, which is empty before: by the
/// chains of the component's epochs, and else by its runs. Its time is not below what is merged
/// into the component, or it is that of the seat's open snapshot.
pub(crate) fn value_left<P: Pace>(
    words: &Words<P>,
    seat: &mut RawSeat,
    point: ReadPoint,
    key: Key,
    into: &mut Option<Value>,
)
    requires of { IsSeatOf words.now seat.old }
    requires may { MayReadBelow seat.old.knows point.component point.until }
    requires empty { into.old ≡ None }
    ensures of { IsSeatOf words.now seat.new }
    ensures looks { Looks seat.old.knows seat.new.knows }
    ensures value { into.new ≡ value (plain seat.old.knows.past) key point.until }
{
    let ReadPoint { component, until } = point;
    if let Some(time) = newest(words, seat, component, key, until) {
        value_at(words, seat, component, time, into);
        return;
    }
    seat.show_invariant();
    let wanted = Wanted { key, until };
    wanted.search(words, seat, component, into);
}

/// The value of the key at the point, as `value_left` leaves it.
pub(crate) fn value_below<P: Pace>(
    words: &Words<P>,
    seat: &mut RawSeat,
    point: ReadPoint,
    key: Key,
) -> Option<Value>
    requires of { IsSeatOf words.now seat.old }
    requires may { MayReadBelow seat.old.knows point.component point.until }
    ensures of { IsSeatOf words.now seat.new }
    ensures looks { Looks seat.old.knows seat.new.knows }
    ensures value { result ≡ value (plain seat.old.knows.past) key point.until }
{
    let mut value = None;
    value_left(words, seat, point, key, &mut value);
    value
}

/// Pins a component, and looks at the clock, which gives the time of a read.
#[inline(always)]
fn pin_at_clock<P: Pace>(words: &Words<P>, seat: &mut RawSeat, pin_word: u64) -> ReadPoint
    requires rests { RestsAt words.now seat.old pin_word }
    ensures of { IsSeatOf words.now seat.new }
    ensures begins { BeginsRead seat.old.knows seat.new.knows result.component result.until }
{
    let component = pin(words, seat, pin_word);
    let until = words.look(seat, Word::Clock);
    ReadPoint { component, until }
}

/// Begins a read at a time of its own, below which it settles all.
#[inline(always)]
pub(crate) fn begin<P: Pace>(words: &Words<P>, seat: &mut RawSeat, pin_word: u64) -> ReadPoint
    requires rests { RestsAt words.now seat.old pin_word }
    ensures of { IsSeatOf words.now seat.new }
    ensures begins { BeginsRead seat.old.knows seat.new.knows result.component result.until }
    ensures settled { result.until ≤ length seat.new.knows.past }
{
    let point = pin_at_clock(words, seat, pin_word);
    settle_below(words, seat, point.component, point.until);
    point
}

/// The end of a read with this answer.
#[inline(always)]
pub(crate) fn end_of(key: Key, got: &Got) -> End
    ensures { result ≡ Recorded (Get key got.now.value) }
{
    let reply = got.value;
    End::Recorded(Deed::Get { key, reply })
}

/// Reads the key at a time of its own, and leaves the answer in the caller's place, which has no
/// value before. (An answer that is returned is copied for each call that it passes.)
#[inline(never)]
pub fn read<P: Pace>(words: &Words<P>, seat: &mut RawSeat, pin_word: u64, key: Key, into: &mut Got)
    requires rests { RestsAt words.now seat.old pin_word }
    requires empty { into.old.value ≡ None }
    ensures rests { RestsAt words.now seat.new (next_word (next_word pin_word)) }
    ensures reads { ReadsAt seat.old.knows seat.new.knows into.new.time (Get key into.new.value) }
{
    let point = begin(words, seat, pin_word);
    into.time = point.until;
    value_left(words, seat, point, key, &mut into.value);
    unpin(words, seat, pin_word.wrapping_add(1), &end_of(key, into));
}
