//! The members of a batch: each is staged, entered and decided as a write is, in an exclusive hold
//! of the lock, and the commit makes all of them visible.
ghost use Rattle.std.specs.Prelude.{◌≡◌, ◌≤◌, length, map, take, Some, option_copied};
ghost use Rattle.clsm_law.specs.declared.step.Step.TheVariants.{Commit, Decide, Stage};
ghost use Rattle.clsm_law.specs.declared.view.Mode.TheVariants.{Exclusive};
ghost use Rattle.clsm_words.specs.Keeping.{KeepsPlace};
ghost use Rattle.clsm_words.specs.Plays.{IsSeatOf, MayPlay};
ghost use Rattle.clsm_memtable.specs.Filling.{Stages, staged_view};
ghost use Rattle.clsm_memtable.specs.Writing.{Commits, DecidesMember};

use crate::filling::fill_words;
use crate::inserting::DrawnCell;
use clsm_law::Part;
use clsm_model::{Change, Deed, Time, Value};
use clsm_words::{Pace, RawSeat, Words};

/// Stages the key, the length and the words of the next member.
fn stage_cell<P: Pace>(words: &Words<P>, seat: &mut RawSeat, cell: DrawnCell, value: &[u64])
    requires opens { MayPlay words.now seat.old (Stage cell.time cell.key) }
    requires short { length value.now ≤ 8 }
    ensures of { IsSeatOf words.now seat.new }
    ensures place { KeepsPlace seat.old.knows seat.new.knows }
    ensures view { seat.new.knows.view ≡ staged_view seat.old.knows.view cell.time (Some cell.key) (Some (length value.now)) seat.new.knows.view }
    ensures words { take (length value.now) seat.new.knows.view.words ≡ map (λ w. Some w) value.now }
{
    words.stage(seat, cell.time, cell.key);
    seat.show_invariant();
    words.fill(seat, cell.time, Part::Length, value.len() as u64);
    fill_words(words, seat, cell.time, value);
}

/// Stages the next member of the seat's batch, in its exclusive hold of the lock, in which it
/// looked at LIMIT and CLOCK: takes the cell's time, which is behind the members before it and
/// below the limit, and fills this write in the cell, a value or, with `None`, a removal. The time
/// is the seat's then as a drawn one is, and the cell has to be entered and decided before the next
/// member. It never waits and is never refused.
pub fn stage<P: Pace>(words: &Words<P>, seat: &mut RawSeat, cell: DrawnCell, value: Option<&Value>)
    requires opens { MayPlay words.now seat.old (Stage cell.time cell.key) }
    ensures of { IsSeatOf words.now seat.new }
    ensures staged { Stages seat.old.knows seat.new.knows cell.time cell.key (option_copied value.entry) }
{
    match value {
        Some(value) => stage_cell(words, seat, cell, value.words()),
        None => stage_cell(words, seat, cell, &[]),
    }
}

/// Decides the staged member in work, whose cell is linked, inserted and says the deed's write: one
/// exchange, which always wins, since nobody else can cancel the time. The write is one staged
/// member more, which readers see from the commit on; nothing is recorded, and the seat's due
/// stays. No hint leads to the cell yet. It never waits and is never refused.
pub fn decide_member<P: Pace>(words: &Words<P>, seat: &mut RawSeat, time: Time, deed: &Deed)
    requires opens { MayPlay words.now seat.old (Decide time deed.now) }
    requires holds { seat.old.knows.view.mode ≡ Exclusive }
    ensures of { IsSeatOf words.now seat.new }
    ensures decided { DecidesMember seat.old.knows seat.new.knows time deed.now }
{
    seat.show_invariant();
    words.decide(seat, time, deed);
}

/// Commits the staged members, of which there is one at least, in the hold in which they were
/// staged: one store of CLOCK, by which all become visible at the times from `first` on. They are
/// recorded as one batch at `first`, and later calls of the seat have times behind them. It never
/// waits and is never refused.
pub fn commit<P: Pace>(words: &Words<P>, seat: &mut RawSeat, first: Time, members: &[(u64, Change)])
    requires opens { MayPlay words.now seat.old (Commit members.now) }
    requires first { seat.old.knows.view.hold_clock ≡ Some first }
    ensures of { IsSeatOf words.now seat.new }
    ensures committed { Commits seat.old.knows seat.new.knows first members.now }
{
    seat.show_invariant();
    words.commit(seat, first, members);
}
