//! Shared holds.
//!
//! Word: LOCK. It is the number of shared holders, or 2^32 while a caller or the merger holds it
//! alone (clause `lock` of `LawOf`, `AreSole` and `IsLockedOut` of clsm_law/specs/Law.antt).
//!
//! - Each shared holder changes it for its own hold alone: it enters by an exchange from the
//!   number that it found to one more, and leaves by a subtraction of 1.
//! - Beside a shared hold there is no freeze and no batch. So LIMIT stays as the seat found it
//!   (`AreLimits`), and CLOCK moves by draws alone. A time is drawn only in a hold (`AreHolding`),
//!   so who enters alone finds none undecided.
//! - Beside other seats an exchange is lost, too, if a shared holder entered or left since the
//!   look: `Busy` says either. Those who wait try again and again, in no order: shared holders
//!   that follow each other without a gap keep out who wants it alone.
//! - Gets, scans and snapshots take no lock.
ghost use Rattle.std.specs.Prelude.{◌≡◌, None, OnOk, OnErr};
ghost use Rattle.clsm_law.specs.declared.view.Mode.TheVariants.{Free, Shared};
ghost use Rattle.clsm_law.specs.Views.{next_word};
ghost use Rattle.clsm_words.specs.Plays.{IsSeatOf};
ghost use Rattle.clsm_lock.specs.Keeping.{Enters, IsRefused, Leaves};

use clsm_law::{Answer, EXCLUSIVE_HOLD, Word};
use clsm_words::{Pace, RawSeat, Words};
use std::sync::Wait;
use std::thread;
use thiserror::Error;

/// Why a seat did not enter: the lock was held exclusively, or another seat entered or left between
/// the look and the exchange.
#[derive(Clone, Copy, PartialEq, Eq, Debug, Error)]
#[error("busy")]
pub struct Busy;

/// Tries once to hold the lock shared: one look at it, and one exchange where the look finds no
/// exclusive holder. It never waits. With `Ok` the seat holds the lock, in a hold in which it has
/// looked at nothing yet. Refused with `Busy` where the look finds an exclusive holder, or the
/// exchange finds that others entered or left since; the seat is then as it was, but that its count
/// of such refusals has moved by one.
#[inline(always)]
pub fn try_lock_shared<P: Pace>(words: &Words<P>, seat: &mut RawSeat) -> Result<(), Busy>
    requires of { IsSeatOf words.now seat.old }
    requires free { seat.old.knows.view.mode ≡ Free }
    ensures of { IsSeatOf words.now seat.new }
    ensures entered { OnOk result (Enters seat.old.knows seat.new.knows seat.old.knows.view.busy) }
    ensures refused { OnErr result (IsRefused seat.old.knows seat.new.knows) }
{
    seat.show_invariant();
    let holders = words.look(seat, Word::Lock);
    if holders >= EXCLUSIVE_HOLD {
        return Err(Busy);
    }
    match words.enter_shared(seat, holders) {
        Answer::Done => Ok(()),
        _ => Err(Busy),
    }
}

/// Holds the lock shared, and waits for that as long as it takes. The seat then holds the lock,
/// in a hold in which it has looked at nothing yet.
#[inline(always)]
pub fn lock_shared<P: Pace, R: Wait>(rt: &R, words: &Words<P>, seat: &mut RawSeat)
    requires of { IsSeatOf words.now seat.old }
    requires free { seat.old.knows.view.mode ≡ Free }
    ensures of { IsSeatOf words.now seat.new }
    ensures entered { Enters seat.old.knows seat.new.knows seat.new.knows.view.busy }
{
    for _ in rt.forever() {
        if try_lock_shared(words, seat).is_ok() {
            return;
        }
        thread::yield_now();
    }
    unreachable!()
}

/// Leaves the lock that the seat holds shared. The seat has drawn no time that it has not decided
/// or given up. It never waits and is never refused.
#[inline(always)]
pub fn unlock_shared<P: Pace>(words: &Words<P>, seat: &mut RawSeat)
    requires of { IsSeatOf words.now seat.old }
    requires holds { seat.old.knows.view.mode ≡ Shared }
    requires undrawn { seat.old.knows.view.drawn ≡ None }
    ensures of { IsSeatOf words.now seat.new }
    ensures left { Leaves seat.old.knows seat.new.knows }
{
    seat.show_invariant();
    words.leave_shared(seat);
}
