//! What a read of many keys is given: what has a key, and places for their values.
ghost use Rattle.std.specs.Prelude.{◌≡◌, ℕ, List, Option};

use clsm_model::{Key, Value};

/// What has a key: a key itself, or what its owner has in its place.
pub trait Keyed {
    ghost key: { Self → ℕ };

    /// Its key.
    fn key(&self) -> Key
        ensures { result ≡ key self.now };
}

/// A key is its own.
impl Keyed for u64 {
    ghost key = { λ key. key };

    #[inline(always)]
    fn key(&self) -> Key {
        *self
    }
}

/// A place for the value of a key, or for none: what it takes is in it then, in place of what was
/// there before.
pub trait ValuePlace {
    ghost tells: { Self → Option (List ℕ) → Type 0 };

    /// Takes the value, or none.
    fn take(&mut self, value: &Option<Value>)
        ensures { tells self.new value.now };
}

/// The value itself, or none.
impl ValuePlace for Option<Value> {
    ghost tells = { λ place value. place ≡ value };

    #[inline(always)]
    fn take(&mut self, value: &Option<Value>) {
        *self = *value;
    }
}
