//! The link of a drawn cell into its chain.
//!
//! Words: the heads of chains, and NEXT of each cell. From a head the words NEXT lead through
//! cells of drawn times of one epoch, whose keys are of this chain, and end; no cell stands there
//! twice (`AreChained`, `AreIn` and `AreOnce` of clsm_law/specs/Law.antt). Cells stand in the
//! order of their links, the last one first, and not by time. STATE tells which are writes.
//!
//! - A writer links its own cell alone, once, by one exchange of the head. Its KEY, length, value
//!   and NEXT are filled before, and stay (`KeepsLinked` of clsm_law/specs/Keeping.antt) until the
//!   region is reused after a reclaim. Only a reclaim empties a chain, once no reader holds the
//!   retired component.
//! - A reader that holds the component finds, from a head on, each write of that epoch with a key
//!   of the chain that is below its past (`IsTrail` of clsm_words/specs/Knowing.antt): a time is
//!   decided as a write only when its cell is linked (`AreStanding`).
//! - Beside a writer a chain grows at its head alone. A cell that is linked after the reader's
//!   look at the head is no write below its past. A writer that loses the exchange gets `Raced`,
//!   and its cell is in no chain.
ghost use Rattle.std.specs.Prelude.{◌≡◌, ◌≢◌, None, IsOk, OnOk, OnErr};
ghost use Rattle.clsm_law.specs.declared.view.Mode.TheVariants.{Free, Exclusive};
ghost use Rattle.clsm_law.specs.Views.{next_word};
ghost use Rattle.clsm_words.specs.Plays.{IsSeatOf, IsFilled};
ghost use Rattle.clsm_memtable.specs.Filling.{Links, StaysUnlinked};

use crate::inserting::DrawnCell;
use clsm_law::{Answer, Part};
use clsm_words::{Pace, RawSeat, Words};
use thiserror::Error;

/// Why a seat did not link its cell: another cell was linked in the chain between the look and the
/// exchange.
#[derive(Clone, Copy, PartialEq, Eq, Debug, Error)]
#[error("raced")]
pub struct Raced;

/// Tries once to link the drawn cell, in which the seat filled this key, in a hold of the lock in
/// which it drew the time: one look at the head of the cell's chain, a fill of the cell's next, and
/// one exchange of the head. With `Ok` the cell stands at the head of its chain. Refused with
/// `Raced` where another cell was linked there since the look: the seat's count of such refusals
/// has then moved by one, and the cell is as it was, but for its next. In an exclusive hold it is
/// never refused. A walk of a chain that the seat had begun is ended. It never waits.
#[inline(always)]
pub(crate) fn try_link<P: Pace>(
    words: &Words<P>,
    seat: &mut RawSeat,
    cell: DrawnCell,
) -> Result<(), Raced>
    requires of { IsSeatOf words.now seat.old }
    requires holds { seat.old.knows.view.mode ≢ Free }
    requires limit { seat.old.knows.view.hold_limit ≢ None }
    requires filled { IsFilled seat.old.knows.view cell.time cell.key }
    ensures of { IsSeatOf words.now seat.new }
    ensures linked { OnOk result (Links seat.old.knows seat.new.knows) }
    ensures uncounted { OnOk result (seat.new.knows.view.raced ≡ seat.old.knows.view.raced) }
    ensures raced { OnErr result (StaysUnlinked seat.old.knows seat.new.knows) }
    ensures counted { OnErr result (seat.new.knows.view.raced ≡ next_word seat.old.knows.view.raced) }
    ensures alone { seat.old.knows.view.mode ≡ Exclusive → IsOk result }
{
    seat.show_invariant();
    let DrawnCell { time, key } = cell;
    let head = words.look(seat, words.head_of(time, key));
    words.fill(seat, time, Part::Next, head);
    match words.link(seat, time, key, head) {
        Answer::Done => Ok(()),
        _ => Err(Raced),
    }
}
