//! What the callers of a session do.
ghost use Rattle.std.specs.Prelude.{ℕ, Option, None};
ghost use Rattle.clsm_store_calls.specs.Seats.{StoreId};

use crate::caller::SessionCaller;
use std::marker::Brand;
use std::sync::Wait;

/// The store and the number of a caller's seat, for proofs alone: by it a session knows that it
/// gets back the seats that it gave out. A job only names it as a type parameter.
pub trait Place {
    ghost store: { Option StoreId };

    ghost number: { ℕ };
}

impl Place for Brand {
    ghost store = { None };

    ghost number = { 0 };
}

/// What each caller of a session does.
pub trait Job {
    ghost use Rattle.clsm_store_calls.specs.Seats.{SeatState};

    /// What a caller answers when it has done so.
    type Answer: Send + Drop;

    /// What an answer says of the seat as it was and as it is then. A job that leaves it out says
    /// nothing of it.
    ghost does: { SeatState → SeatState → Self.Answer → Type 0 } = { λ old new answer. Unit {0} };

    /// Makes the calls of one caller, in a thread of its own. `SessionCaller::number` tells the
    /// callers apart.
    fn run<R: Wait, P: Place>(&self, caller: &mut SessionCaller<'_, R, P>) -> Self::Answer
        ensures { does caller.old caller.new result };
}
