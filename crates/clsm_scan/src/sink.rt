//! What takes rows.
ghost use Rattle.std.specs.Prelude.{◌≡◌, ◌∷◌, ◌++◌, [], OnOk};
ghost use Rattle.clsm_model.specs.Map.{Pair};

use clsm_model::{Key, Memory, Value};

/// What takes the rows that a source gives, one at a time.
pub trait Sink {
    /// What it says to a row.
    type Reply;

    ghost takes: { Self → Pair → Self.Reply → Self → Type 0 };

    ghost is_ready: { Self → Type 0 };

    /// Takes the row of this key.
    fn take(&mut self, key: Key, value: Value) -> Self::Reply
        requires { is_ready self.old }
        ensures ready { is_ready self.new }
        ensures takes { takes self.old (key, value) result self.new };
}

/// The rows of an answer, one behind the other. A row is refused if memory runs out.
impl Sink for Vec<(u64, Value)> {
    type Reply = Result<(), Memory>;

    ghost takes = { λ before row reply after. OnOk reply (after.items ≡ before.items ++ row ∷ []) };

    ghost is_ready = { λ rows. Unit {0} };

    #[inline(always)]
    fn take(&mut self, key: Key, value: Value) -> Result<(), Memory> {
        let pushed = match value.words() {
            // (one word is written where it stays, and not copied with the room for others)
            [word] => self.push((key, Value::from(*word))),
            _ => self.push((key, value)),
        };
        match pushed {
            Ok(()) => Ok(()),
            Err(_) => Err(Memory),
        }
    }
}
