//! The end of a drawn time: its write stands, or nothing has it.
ghost use Rattle.std.specs.Prelude.{◌≡◌, Some};
ghost use Rattle.clsm_law.specs.declared.step.Step.TheVariants.{Decide};
ghost use Rattle.clsm_law.specs.declared.view.Mode.TheVariants.{Shared};
ghost use Rattle.clsm_words.specs.Plays.{IsSeatOf, MayPlay};
ghost use Rattle.clsm_search.specs.Seeking.{MayLeaveHints};
ghost use Rattle.clsm_memtable.specs.Writing.{Decides, DecidesHinted, GivesUp};

use clsm_law::Answer;
use clsm_model::{Deed, Time};
use clsm_search::{Trace, leave_hints};
use clsm_words::{Pace, RawSeat, Words};

/// What came of a decide.
#[derive(Clone, Copy, PartialEq, Eq, Debug)]
pub enum Decided {
    /// The write stands at its time.
    Done,
    /// Somebody cancelled the time first: no write has it.
    Overtaken,
}

/// Decides the drawn time, whose cell is linked and stands in the ordered list.
#[inline(always)]
fn decide_drawn<P: Pace>(words: &Words<P>, seat: &mut RawSeat, time: Time, deed: &Deed) -> Decided
    requires opens { MayPlay words.now seat.old (Decide time deed.now) }
    requires holds { seat.old.knows.view.mode ≡ Shared }
    ensures of { IsSeatOf words.now seat.new }
    ensures decided { Decides seat.old.knows seat.new.knows time deed.now result }
{
    seat.show_invariant();
    match words.decide(seat, time, deed) {
        Answer::Done => Decided::Done,
        _ => Decided::Overtaken,
    }
}

/// Decides the drawn time, whose cell is linked, was inserted by this search and says the deed's
/// write: one exchange. With `Done` the write stands, the call is recorded at the time, and later
/// calls of the seat have later times; hints lead to the cell then. With
/// `Overtaken` somebody had cancelled the time: nothing is recorded, and the seat's count of such
/// times has moved by one. Either way the time is no longer the seat's. It never waits.
#[inline(always)]
pub fn decide<P: Pace>(
    words: &Words<P>,
    seat: &mut RawSeat,
    time: Time,
    deed: &Deed,
    trace: &Trace,
) -> Decided
    requires opens { MayPlay words.now seat.old (Decide time deed.now) }
    requires holds { seat.old.knows.view.mode ≡ Shared }
    requires hints { MayLeaveHints seat.old.knows trace.now }
    ensures of { IsSeatOf words.now seat.new }
    ensures decided { DecidesHinted seat.old.knows seat.new.knows time deed.now result }
{
    let decided = decide_drawn(words, seat, time, deed);
    if let Decided::Done = decided {
        leave_hints(words, seat, time, trace);
    }
    decided
}

/// Gives up the drawn time, linked or not: one exchange, after which no write has the time. Nothing
/// is recorded. It never waits and is never refused; either the seat's count of times given up has
/// moved by one, or, where somebody else had cancelled the time, its count of those.
pub fn give_up<P: Pace>(words: &Words<P>, seat: &mut RawSeat, time: Time)
    requires of { IsSeatOf words.now seat.old }
    requires drawn { seat.old.knows.view.drawn ≡ Some time }
    requires holds { seat.old.knows.view.mode ≡ Shared }
    ensures of { IsSeatOf words.now seat.new }
    ensures given_up { GivesUp seat.old.knows seat.new.knows time }
{
    seat.show_invariant();
    words.cancel(seat, time);
}
