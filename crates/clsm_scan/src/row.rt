//! Places for rows.
ghost use Rattle.std.specs.Prelude.{◌≡◌};
ghost use Rattle.clsm_model.specs.Map.{Pair};

use crate::sink::Sink;
use clsm_model::{Key, Value};

/// A place for one row: what it takes is in it then, in place of what was there before.
pub trait Row: Sink<Reply = ()> {
    ghost pair: { Self → Pair };

    ghost is_row: { Self → Type 0 };

    ghost always_ready: { (row : Self) → Self.is_ready row };

    ghost is_taken: { (before after : Self) (pair_taken : Pair) (reply : Unit {0}) → Self.takes before pair_taken reply after
        → (pair after ≡ pair_taken) × is_row after };
}

/// A key with its value.
impl Sink for (u64, Value) {
    type Reply = ();

    ghost takes = { λ before row reply after. after ≡ row };

    ghost is_ready = { λ row. Unit {0} };

    #[inline(always)]
    fn take(&mut self, key: Key, value: Value) {
        *self = (key, value);
    }
}

impl Row for (u64, Value) {
    ghost pair = { λ row. row };

    ghost is_row = { λ row. Unit {0} };

    ghost always_ready = { λ row. tt };

    ghost is_taken = { λ before after pair_taken reply taken. (taken, tt) };
}
