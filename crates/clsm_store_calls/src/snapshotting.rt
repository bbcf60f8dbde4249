//! Snapshots at the words: their opening, their close, and reads under them.
ghost use Rattle.std.specs.Prelude.{◌≡◌, None, Some};
ghost use Rattle.clsm_model.specs.declared.record.Deed.TheVariants.{GetAt};
ghost use Rattle.clsm_law.specs.{declared.step.End.TheVariants.Recorded, OpenSteps.open_time, Views.next_word};
ghost use Rattle.clsm_words.specs.Plays.{IsSeatOf};
ghost use Rattle.clsm_pins.specs.Pinning.{Pins};
ghost use Rattle.clsm_store_calls.specs.{Reading.MayReadBelow, Resting.RestsAt, Snapshots.OpensAt, Snapshots.ReadsUnder};

use crate::got::Got;
use crate::reading::value_below;
use clsm_law::End;
use clsm_memtable::settle_below;
use clsm_model::{Deed, Key, Time};
use clsm_pins::{open_snapshot, pin, unpin};
use clsm_scan::ReadPoint;
use clsm_words::{Pace, RawSeat, Words};

/// The open snapshot of a seat at rest: the word of the seat's pin, and the snapshot's time.
#[derive(Clone, Copy)]
pub struct OpenSnapshot {
    pub pin_word: u64,
    pub time: Time,
}

/// Opens a snapshot, at a time of its own: all below it is settled.
pub fn open_at<P: Pace>(words: &Words<P>, seat: &mut RawSeat, pin_word: u64) -> Time
    requires rests { RestsAt words.now seat.old pin_word }
    requires none { open_time seat.old.knows.view.snapshot ≡ None }
    ensures rests { RestsAt words.now seat.new (next_word (next_word pin_word)) }
    ensures opens { OpensAt seat.old.knows seat.new.knows result }
{
    let component = pin(words, seat, pin_word);
    let time = open_snapshot(words, seat);
    settle_below(words, seat, component, time);
    unpin(
        words,
        seat,
        pin_word.wrapping_add(1),
        &End::Recorded(Deed::Snapshot),
    );
    time
}

/// Begins a read at the time of the open snapshot.
pub(crate) fn begin_under<P: Pace>(
    words: &Words<P>,
    seat: &mut RawSeat,
    snapshot: OpenSnapshot,
) -> ReadPoint
    requires rests { RestsAt words.now seat.old snapshot.pin_word }
    requires opened { open_time seat.old.knows.view.snapshot ≡ Some snapshot.time }
    ensures of { IsSeatOf words.now seat.new }
    ensures pins { Pins seat.old.knows seat.new.knows result.component }
    ensures may { MayReadBelow seat.new.knows result.component result.until }
    ensures time { result.until ≡ snapshot.time }
{
    let component = pin(words, seat, snapshot.pin_word);
    seat.show_invariant();
    ReadPoint {
        component,
        until: snapshot.time,
    }
}

/// The end of a read with this answer under the open snapshot.
pub(crate) fn end_under(key: Key, got: &Got) -> End
    ensures { result ≡ Recorded (GetAt key got.now.value) }
{
    let reply = got.value;
    End::Recorded(Deed::GetAt { key, reply })
}

/// Reads the key at the time of the open snapshot.
pub fn read_under<P: Pace>(
    words: &Words<P>,
    seat: &mut RawSeat,
    snapshot: OpenSnapshot,
    key: Key,
) -> Got
    requires rests { RestsAt words.now seat.old snapshot.pin_word }
    requires opened { open_time seat.old.knows.view.snapshot ≡ Some snapshot.time }
    ensures rests { RestsAt words.now seat.new (next_word (next_word snapshot.pin_word)) }
    ensures time { result.time ≡ snapshot.time }
    ensures reads { ReadsUnder seat.old.knows seat.new.knows snapshot.time (GetAt key result.value) }
{
    let point = begin_under(words, seat, snapshot);
    let value = value_below(words, seat, point, key);
    let time = snapshot.time;
    let got = Got { time, value };
    unpin(
        words,
        seat,
        snapshot.pin_word.wrapping_add(1),
        &end_under(key, &got),
    );
    got
}
