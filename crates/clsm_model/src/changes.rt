//! What an addition and a first write make of a key's old value.
ghost use Rattle.std.specs.Prelude.{◌≡◌};
ghost use Rattle.clsm_model.specs.Changes.{added, put_if_absent, word_sum};

use crate::slot::Change;
use crate::value::Value;

/// The sum of a value's word and another, if it has one word and the sum fits in 64 bits; of no
/// value, that other.
fn word_sum(old: Option<Value>, by: u64) -> Option<u64>
    ensures { result ≡ word_sum old by }
{
    match old {
        None => Some(by),
        Some(value) => match value.words() {
            [word] => word.checked_add(by),
            _ => None,
        },
    }
}

/// What `add` makes of the old value: the sum with its word, which is 0 if there is no value, or
/// `Keep` if the sum passes 2^64 - 1 or the value has several words.
pub fn added(old: Option<Value>, by: u64) -> Change
    ensures { result ≡ added old by }
{
    match word_sum(old, by) {
        Some(word) => Change::Set(Value::from(word)),
        None => Change::Keep,
    }
}

/// What `put_if_absent` makes of the old value: the new one if there was none, else `Keep`.
pub fn put_if_absent(old: Option<Value>, value: Value) -> Change
    ensures { result ≡ put_if_absent old value }
{
    match old {
        None => Change::Set(value),
        Some(_) => Change::Keep,
    }
}
