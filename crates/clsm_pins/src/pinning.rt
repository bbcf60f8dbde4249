//! The beginning and the end of a read.
//!
//! Words: PIN of each seat, which its seat alone stores, and MERGED, which the merger alone does.
//! PIN is odd exactly while a read of the seat runs (`AreOdd` of clsm_law/specs/Law.antt), and
//! each pin and unpin changes it. A held component is the newest, or the retired one while the
//! merger has not found the seat quiet (`AreHeld`).
//!
//! - A read stores PIN first, and then looks at MERGED. A merge that is published after that look
//!   finds the PIN of this read, and nothing is reclaimed before that changes (`quieting.rt`).
//! - From that look to the unpin the reader may rely on what it holds: its runs stay, its chains
//!   and lists only grow, and what was decided in its cells stays (`KeepsRuns`, `KeepsWays`,
//!   `KeepsSpots` and `KeepsCells` of clsm_words/specs/Knowing.antt). Each time before the
//!   component's first epoch is decided, too.
//! - A clock that is looked at under the pin is not below the floor of the runs that are held
//!   (clauses `begun` and `floors` of `LawOf`). One that was looked at before may be.
ghost use Rattle.std.specs.Prelude.{◌≡◌, false};
ghost use Rattle.clsm_law.specs.declared.step.Step.TheVariants.{Unpin};
ghost use Rattle.clsm_words.specs.Plays.{IsSeatOf, MayPlay};
ghost use Rattle.clsm_pins.specs.Pinning.{Pins, Unpins};

use clsm_law::Word;
use clsm_words::{Ending, Pace, RawSeat, Words};

/// Begins a read: two steps, the pin and one look at MERGED, which gives the component that the
/// seat holds until it unpins. `pin` is the seat's pin word. What the seat holds is neither merged
/// away nor reclaimed meanwhile (the cLSM paper's pinned component). It takes no lock, never waits
/// and is never refused.
#[inline(always)]
pub fn pin<P: Pace>(words: &Words<P>, seat: &mut RawSeat, pin: u64) -> u64
    requires of { IsSeatOf words.now seat.old }
    requires free { seat.old.knows.view.pinned ≡ false }
    requires pin { pin ≡ seat.old.knows.view.pin }
    ensures of { IsSeatOf words.now seat.new }
    ensures pinned { Pins seat.old.knows seat.new.knows result }
{
    seat.show_invariant();
    words.pin(seat, pin);
    words.look(seat, Word::Merged)
}

/// Ends a read with its records, in one step. `pin` is the seat's pin word. It never waits and is
/// never refused.
#[inline(always)]
pub fn unpin<P: Pace, E: Ending>(words: &Words<P>, seat: &mut RawSeat, pin: u64, end: &E)
    requires opens { MayPlay words.now seat.old (Unpin (E.end end.now)) }
    requires pin { pin ≡ seat.old.knows.view.pin }
    ensures of { IsSeatOf words.now seat.new }
    ensures unpinned { Unpins seat.old.knows seat.new.knows (E.end end.now) }
{
    seat.show_invariant();
    words.unpin(seat, pin, end);
}
