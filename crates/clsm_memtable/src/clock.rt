//! The draw of a time.
ghost use Rattle.std.specs.Prelude.{◌≡◌, ◌≢◌, None, IfOk, IfErr};
ghost use Rattle.clsm_law.specs.declared.view.Mode.TheVariants.{Free, Shared};
ghost use Rattle.clsm_words.specs.Plays.{IsSeatOf};
ghost use Rattle.clsm_memtable.specs.Writing.{IsUnnoted, Draws, FindsRoom, RefusesDraw};

use clsm_law::{Answer, Word};
use clsm_model::Time;
use clsm_words::{Pace, RawSeat, Words};
use thiserror::Error;

/// Why a seat drew no time.
#[derive(Clone, Copy, PartialEq, Eq, Debug, Error)]
pub enum DrawError {
    /// Every time of the epoch is drawn; the clock stands at this time, which is the limit.
    #[error("full @{0}")]
    Full(Time),
    /// Another seat drew the time between the look and the exchange.
    #[error("raced")]
    Raced,
}

/// The times that are left of an epoch.
#[derive(Clone, Copy)]
pub struct Room {
    /// The clock: the first of them.
    pub clock: Time,
    /// The end of the epoch, which is not below the clock.
    pub limit: Time,
}

/// What is left of the epoch, in a hold of the lock: one look at LIMIT and one at CLOCK. In an
/// exclusive hold both stay so until the seat commits. It never waits and is never refused.
pub fn look_room<P: Pace>(words: &Words<P>, seat: &mut RawSeat) -> Room
    requires of { IsSeatOf words.now seat.old }
    requires holds { seat.old.knows.view.mode ≢ Free }
    requires unnoted { IsUnnoted seat.old.knows.view.snapshot }
    ensures of { IsSeatOf words.now seat.new }
    ensures room { FindsRoom seat.old.knows seat.new.knows result.clock result.limit }
{
    seat.show_invariant();
    let limit = words.look(seat, Word::Limit);
    let clock = words.look(seat, Word::Clock);
    Room { clock, limit }
}

/// Draws the next time, in a hold of the lock: one look at LIMIT, one at CLOCK, and one exchange of
/// CLOCK where it is below the limit. With `Ok` the seat has drawn the time, whose cell is not
/// filled yet, and has to decide it or give it up before it leaves the lock. Refused with `Full`
/// where the clock is at the limit: there is no time before the next freeze. Refused with `Raced`
/// where another seat drew the time first: the seat's count of such refusals has then moved by one.
/// After a refusal it has drawn nothing, and its calls are where they were. It never waits.
#[inline(always)]
pub fn draw<P: Pace>(words: &Words<P>, seat: &mut RawSeat) -> Result<Time, DrawError>
    requires of { IsSeatOf words.now seat.old }
    requires holds { seat.old.knows.view.mode ≡ Shared }
    requires unnoted { IsUnnoted seat.old.knows.view.snapshot }
    requires undrawn { seat.old.knows.view.drawn ≡ None }
    ensures of { IsSeatOf words.now seat.new }
    ensures drawn { IfOk result (λ time. Draws seat.old.knows seat.new.knows time) }
    ensures refused { IfErr result (λ refusal. RefusesDraw seat.old.knows seat.new.knows refusal) }
{
    seat.show_invariant();
    let limit = words.look(seat, Word::Limit);
    let time = words.look(seat, Word::Clock);
    if time >= limit {
        return Err(DrawError::Full(time));
    }
    match words.draw(seat, time) {
        Answer::Done => Ok(time),
        _ => Err(DrawError::Raced),
    }
}
