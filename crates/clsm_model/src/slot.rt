//! Slots: what timestamps came to, and what a write does to its key.
ghost use Rattle.std.specs.Prelude.{◌≡◌};

use crate::Key;
use crate::value::Value;

/// What a timestamp came to: nothing, or a write. A write without a value is a removal.
#[derive(Clone, Copy, PartialEq, Eq, Hash, Debug)]
pub enum Slot {
    /// The time was cancelled or skipped: no write has it.
    Nothing,
    /// The write of `key` by the seat with this number.
    Wrote {
        seat: u32,
        key: Key,
        value: Option<Value>,
    },
}

impl Slot {
    ghost use Rattle.clsm_model.specs.Map.{value_after};

    /// What the slot leaves at the key, where its value was `before`.
    pub fn value_after(&self, key: Key, before: Option<Value>) -> Option<Value>
        ensures { result ≡ value_after self.now key before }
    {
        match *self {
            Slot::Wrote {
                key: written,
                value,
                ..
            } if written == key => value,
            _ => before,
        }
    }
}

/// What a write does to its key.
#[derive(Clone, Copy, PartialEq, Eq, Hash, Debug)]
pub enum Change {
    Keep,
    Set(Value),
    Remove,
}
