//! Times below a read's own are settled before it reads: each is decided then, and none below
//! changes any more.
//!
//! Words: STATE of each cell, and FRONT. A cell's state is 0 while its time is undecided; then it
//! shows what the time came to (`AreShown` of clsm_law/specs/Law.antt). Each time below FRONT is
//! decided (clause `front` of `LawOf`), and FRONT is inside no batch (`uncut_front`).
//!
//! - A state leaves 0 by an exchange: to a write, of the writer that drew the time; to cancelled,
//!   of a reader or of the writer itself. The first one wins. A freeze cancels times that nobody
//!   drew. Only a reclaim brings 0 back, once no reader holds the retired component.
//! - FRONT only rises: a seat that found each time below decided raises it.
//! - A reader may rely on this: after `settle_below` each time below its own is decided for good,
//!   and its past reaches there. So no write can come to stand below the read any more.
//! - Beside a writer that stalls a reader looks `patience + 1` times at most, and makes one
//!   exchange. A writer whose decide comes too late gets `Overtaken`, and its write needs another
//!   time. No reader waits for a writer (docs/DEFINITIONS.md, "Waiting").
ghost use Rattle.std.specs.Prelude.{◌≡◌, ◌+◌, ◌<◌, ◌≤◌, ℕ, false, true, length};
ghost use Rattle.clsm_law.specs.declared.step.Step.TheVariants.{RaiseFront};
ghost use Rattle.clsm_words.specs.Plays.{IsSeatOf, MayPlay};
ghost use Rattle.clsm_words.specs.Keeping.{OnlyReads};
ghost use Rattle.clsm_memtable.specs.Settled.{HasWaited, IsToSettle, MaySettleBelow};

use clsm_law::Word;
use clsm_model::Time;
use clsm_words::{Pace, RawSeat, Words};
use std::hint::spin_loop;

/// Looks once at the time's state. Answers whether it is decided.
fn is_decided<P: Pace>(words: &Words<P>, seat: &mut RawSeat, component: u64, time: Time) -> bool
    requires { IsToSettle words.now seat.old component time }
    ensures of { IsSeatOf words.now seat.new }
    ensures keeps { OnlyReads seat.old.knows seat.new.knows }
    ensures found { result ≡ true → time + 1 ≤ seat.new.knows.view.reached }
    ensures first { result ≡ false → HasWaited seat.new.knows time 0 }
    ensures again { (n : ℕ) → n < seat.old.knows.layout.patience → HasWaited seat.old.knows time n → result ≡ false → HasWaited seat.new.knows time (n + 1) }
{
    let cell = words.cell_of(time);
    words.look(seat, Word::State(cell)) != 0
}

/// Waits a little before another look at a state: the more looks there were, the longer. Each look
/// takes the cell's line from its writer, who fills it meanwhile.
fn pause(looks: u64) {
    for _ in 0..looks.saturating_add(2) {
        spin_loop();
    }
}

/// Looks at the time's state, and as often again as the patience says while it is undecided, with a
/// pause before each of these looks. Answers whether it is decided.
fn is_found_decided<P: Pace>(
    words: &Words<P>,
    seat: &mut RawSeat,
    component: u64,
    time: Time,
) -> bool
    requires { IsToSettle words.now seat.old component time }
    ensures of { IsSeatOf words.now seat.new }
    ensures keeps { OnlyReads seat.old.knows seat.new.knows }
    ensures found { result ≡ true → time + 1 ≤ seat.new.knows.view.reached }
    ensures waited { result ≡ false → HasWaited seat.new.knows time seat.new.knows.layout.patience }
{
    if is_decided(words, seat, component, time) {
        return true;
    }
    let patience = words.patience();
    for look in 0..patience {
        pause(look);
        if is_decided(words, seat, component, time) {
            return true;
        }
    }
    false
}

/// Settles the time: waits for its writer as long as the patience says, and cancels it then.
#[inline(never)]
fn settle<P: Pace>(words: &Words<P>, seat: &mut RawSeat, component: u64, time: Time)
    requires { IsToSettle words.now seat.old component time }
    ensures of { IsSeatOf words.now seat.new }
    ensures keeps { OnlyReads seat.old.knows seat.new.knows }
    ensures settled { time + 1 ≤ seat.new.knows.view.reached }
{
    if !is_found_decided(words, seat, component, time) {
        words.cancel(seat, time);
    }
}

/// Raises FRONT, which the seat found at `front` before, to the time, and its past with it. Where
/// it stands there already, a look says so: readers beside each other then keep its line.
#[inline(always)]
fn raise<P: Pace>(words: &Words<P>, seat: &mut RawSeat, front: Time, time: Time)
    requires may { MayPlay words.now seat.old (RaiseFront time) }
    ensures of { IsSeatOf words.now seat.new }
    ensures keeps { OnlyReads seat.old.knows seat.new.knows }
    ensures settled { time ≤ length seat.new.knows.past }
{
    if front < time || words.confirm_front(seat, time) < time {
        words.raise_front(seat, time);
    }
}

/// Settles each time from `front` and the component's first one on up to `to`.
#[inline(never)]
fn settle_from<P: Pace>(words: &Words<P>, seat: &mut RawSeat, component: u64, front: Time, to: Time)
    requires of { IsSeatOf words.now seat.old }
    requires may { MaySettleBelow seat.old.knows component to }
    requires front { front ≤ seat.old.knows.view.reached }
    ensures of { IsSeatOf words.now seat.new }
    ensures keeps { OnlyReads seat.old.knows seat.new.knows }
    ensures reached { to ≤ seat.new.knows.view.reached }
{
    let merged = component.saturating_mul(words.cells());
    let first = front.max(merged);
    for next in first..to {
        settle(words, seat, component, next);
    }
}

/// Settles each time from the one that FRONT and the component begin with up to `time`, and raises
/// FRONT to `time`: each time below it is decided then, and the seat's past reaches it. A time that
/// is undecided still when it was looked at again as often as the patience says is cancelled, and
/// comes to nothing; its writer finds that out and writes again (the cLSM paper's readers wait for
/// it instead). `component` is what the seat holds, and `time` at most the clock that it looked at
/// in this read. It never waits, takes no memory and is never refused.
#[inline(always)]
pub fn settle_below<P: Pace>(words: &Words<P>, seat: &mut RawSeat, component: u64, time: Time)
    requires of { IsSeatOf words.now seat.old }
    requires may { MaySettleBelow seat.old.knows component time }
    ensures of { IsSeatOf words.now seat.new }
    ensures keeps { OnlyReads seat.old.knows seat.new.knows }
    ensures settled { time ≤ length seat.new.knows.past }
{
    let front = words.look(seat, Word::Front);
    if front < time {
        settle_from(words, seat, component, front, time);
    }
    raise(words, seat, front, time);
}
