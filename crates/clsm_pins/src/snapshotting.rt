//! Snapshots: what a seat notes of one, so that no merge forgets what it reads.
ghost use Rattle.std.specs.Prelude.{◌≡◌, true, Some};
ghost use Rattle.clsm_law.specs.declared.view.Mode.TheVariants.{Free};
ghost use Rattle.clsm_law.specs.declared.view.SnapshotState.TheVariants.{Absent};
ghost use Rattle.clsm_law.specs.OpenSteps.{open_time};
ghost use Rattle.clsm_words.specs.Plays.{IsSeatOf};
ghost use Rattle.clsm_pins.specs.Snapshots.{ClosesSnapshot, NotesSnapshot};

use clsm_law::Word;
use clsm_model::Time;
use clsm_words::{Pace, RawSeat, Words};

/// Notes a snapshot in the seat's snapshot word and gives it its time: a look at CLOCK, the note of
/// what it found, and one more look at CLOCK. A merge that does not see the note froze its epoch
/// before that second look, so no floor is above the snapshot's time (as LevelDB's oldest snapshot
/// says what a compaction may drop). The seat is in a read, which its unpin ends with the snapshot.
/// It takes no lock, never waits and is never refused.
pub fn open_snapshot<P: Pace>(words: &Words<P>, seat: &mut RawSeat) -> Time
    requires of { IsSeatOf words.now seat.old }
    requires free { seat.old.knows.view.mode ≡ Free }
    requires pinned { seat.old.knows.view.pinned ≡ true }
    requires absent { seat.old.knows.view.snapshot ≡ Absent }
    ensures of { IsSeatOf words.now seat.new }
    ensures noted { NotesSnapshot seat.old.knows seat.new.knows result }
{
    seat.show_invariant();
    let noted = words.look(seat, Word::Clock);
    seat.show_invariant();
    words.note(seat, noted);
    seat.show_invariant();
    words.look(seat, Word::Clock)
}

/// Closes the seat's snapshot, which is recorded at the snapshot's time: one step. Merges may then
/// forget what only it read. It never waits and is never refused.
pub fn close_snapshot<P: Pace>(words: &Words<P>, seat: &mut RawSeat, time: Time)
    requires of { IsSeatOf words.now seat.old }
    requires opened { open_time seat.old.knows.view.snapshot ≡ Some time }
    ensures of { IsSeatOf words.now seat.new }
    ensures closed { ClosesSnapshot seat.old.knows seat.new.knows time }
{
    seat.show_invariant();
    words.close_snapshot(seat);
}
