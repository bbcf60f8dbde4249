//! An exchange of what two keys have.
ghost use Rattle.std.specs.Prelude.{◌≡◌, ◌≤◌, [], vec_len};
ghost use Rattle.std.specs.Vec.{vec_capacity};
ghost use Rattle.clsm_workload.specs.Turns.{conditions_of, leaving, members_of, still};

use clsm_model::{Change, Key, Members, Value};
use clsm_store::Condition;

/// How many members the batch of an exchange has.
pub const MEMBERS: usize = 2;

/// Two keys, and what each had when both were read at one time.
#[derive(Clone, Copy)]
pub struct Exchange {
    pub one: Key,
    pub other: Key,
    pub one_had: Option<Value>,
    pub other_had: Option<Value>,
}

impl Exchange {
    /// That both keys still have what they had.
    pub fn conditions(&self) -> [Condition; 2]
        ensures { result ≡ conditions_of self.now }
    {
        [
            condition_of(self.one, self.one_had),
            condition_of(self.other, self.other_had),
        ]
    }

    /// The writes that leave at each key what the other one had. There is room for them.
    pub fn members(&self, mut room: Vec<(u64, Change)>) -> Members
        requires none { room.items ≡ [] }
        requires room { 2 ≤ vec_capacity room }
        ensures { result ≡ members_of self.now }
    {
        room.push_reserved((self.one, change_to(self.other_had)));
        room.push_reserved((self.other, change_to(self.one_had)));
        Members::new(room)
    }
}

/// That the key still has what it had. That it has no value is tested by a count.
fn condition_of(key: Key, had: Option<Value>) -> Condition
    ensures { result ≡ still key had }
{
    match had {
        Some(value) => Condition::Has(key, Some(value)),
        None => Condition::Counts {
            lo: key,
            hi: key,
            keys: 0,
        },
    }
}

/// The write that leaves this at a key.
fn change_to(had: Option<Value>) -> Change
    ensures { result ≡ leaving had }
{
    match had {
        Some(value) => Change::Set(value),
        None => Change::Remove,
    }
}
