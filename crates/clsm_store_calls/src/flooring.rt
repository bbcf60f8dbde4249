//! The floor of a merge: the time below which it may forget all but the newest version of each key.
//!
//! Words: SNAP of each seat, which its seat alone stores: 0, or 1 plus the time that it noted for
//! its snapshot (`AreNotes` of clsm_law/specs/Law.antt). The snapshot's own time is not below the
//! note, nor below the floor (`AreSnapshots`).
//!
//! - The merger alone has the floor. It takes it while an epoch is frozen, after one look at each
//!   SNAP in the order of the seats. Each snapshot of a seat that it has passed is at or above the
//!   least time found noted, or at or above the epoch's end (`ArePassed`). The floor never falls.
//! - A reader may rely on this: the floor of the runs that it searches is not above its time, be
//!   that the clock under its pin or its open snapshot (`IsReading` of
//!   clsm_words/specs/Knowing.antt).
//! - Beside a seat that opens a snapshot the look may come before the note. The epoch is frozen by
//!   then, and the snapshot takes its time from a look at CLOCK after the note: so that time is at
//!   or above the epoch's end, and the floor is not above it (`snapshotting.rt` of clsm_pins).
ghost use Rattle.std.specs.Prelude.{◌≡◌, ◌≤◌, max, true};
ghost use Rattle.clsm_law.specs.Merging.{epoch_end, is_frozen, least, lesser, noted_time};
ghost use Rattle.clsm_law.specs.Views.{next_word};
ghost use Rattle.clsm_words.specs.Plays.{IsSeatOf};
ghost use Rattle.clsm_store_calls.specs.Flooring.{KeepsFrozen};

use clsm_law::Word;
use clsm_model::Time;
use clsm_words::{Pace, RawMerger, Words};

/// The time that a snapshot word notes.
fn noted_time(word: u64) -> Option<Time>
    ensures { result ≡ noted_time word }
{
    word.checked_sub(1)
}

/// The lesser of two times, if there are any.
fn least(a: Option<Time>, b: Option<Time>) -> Option<Time>
    ensures { result ≡ least a b }
{
    match (a, b) {
        (Some(a), Some(b)) => Some(a.min(b)),
        (a, b) => a.or(b),
    }
}

/// Looks at each snapshot word in the order of the seats, and answers the floor that the merger
/// takes from them, and the least time that it found noted. The floor is never below the one
/// before, and else the end of the frozen epoch, or the least time where that is earlier (as in
/// LevelDB, where the oldest snapshot says what may be dropped).
pub(crate) fn take_floor<P: Pace>(
    words: &Words<P>,
    merger: &mut RawMerger,
    before: Time,
    end: Time,
) -> (Time, Option<Time>)
    requires of { IsSeatOf words.now merger.old }
    requires frozen { is_frozen merger.old.knows.merger.phase ≡ true }
    requires before { before ≡ merger.old.knows.merger.floor }
    requires end { end ≡ epoch_end merger.old.knows.layout merger.old.knows.merger }
    ensures of { IsSeatOf words.now merger.new }
    ensures keeps { KeepsFrozen merger.old.knows merger.new.knows }
    ensures floor { result.0 ≡ merger.new.knows.merger.floor }
    ensures noted { result.1 ≡ merger.new.knows.merger.noted }
    ensures took { result.0 ≡ max before (lesser end result.1) }
    ensures looked { merger.new.knows.merger.rounds ≡ next_word merger.old.knows.merger.rounds }
    ensures kept { before ≤ result.0 }
    ensures early { before ≤ end → result.0 ≤ end }
{
    let mut found = None;
    for seat in 0..words.seats() {
        let word = words.look_as_merger(merger, Word::Snap(seat));
        found = least(found, noted_time(word));
    }
    let floor = before.max(end.min(found.unwrap_or(end)));
    (floor, found)
}
