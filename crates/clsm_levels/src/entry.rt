//! The entries of runs, with their values and without.
ghost use Rattle.std.specs.Prelude.{◌≡◌};

use clsm_model::{Key, Time, Value};

/// A write as a run holds it.
#[derive(Clone, Copy, PartialEq, Eq, Hash, Debug)]
pub struct Entry {
    pub key: Key,
    pub time: Time,
    /// None is a removal.
    pub value: Option<Value>,
}

/// A write without its value: by these a merge orders the writes that it reads, and tells which it
/// keeps.
#[derive(Clone, Copy, PartialEq, Eq, Debug)]
pub struct Version {
    pub key: Key,
    pub time: Time,
    pub is_removal: bool,
}

impl Entry {
    ghost use Rattle.clsm_levels.specs.Version.{version_of};

    /// The entry without its value.
    pub fn version(&self) -> Version
        ensures { result ≡ version_of self.now }
    {
        Version {
            key: self.key,
            time: self.time,
            is_removal: self.value.is_none(),
        }
    }
}
