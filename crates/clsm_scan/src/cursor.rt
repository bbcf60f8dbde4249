//! What reads the newest write of each key below a time, by rising key.
ghost use Rattle.std.specs.Prelude.{◌≡◌, ℕ, ◌≤◌};
ghost use Rattle.clsm_levels.specs.Yields.{IsNextFrom};
ghost use Rattle.clsm_words.specs.Keeping.{LooksAside};
ghost use Rattle.clsm_words.specs.Plays.{IsSeatOf};
ghost use Rattle.clsm_scan.specs.Heads.{key_of};
ghost use Rattle.clsm_scan.specs.Reading.{MayReadFrom};

use crate::source::Source;
use clsm_words::{Pace, RawSeat, Words};

/// A cursor over writes of a held component, which may read a write again.
pub trait Cursor: Source {
    /// Reads the newest write below its time of the least key from `from` on that has one, unless
    /// it was read before, and answers its key. What is before `from` may be forgotten. It takes no
    /// memory, and reads no value.
    fn read<P: Pace>(&mut self, words: &Words<P>, seat: &mut RawSeat, from: u64) -> Option<u64>
        requires stands { MayReadFrom Self.is_over Self.stands words.now seat.old self.old from }
        ensures of { IsSeatOf words.now seat.new }
        ensures looks { LooksAside seat.old.knows seat.new.knows }
        ensures over { Self.is_over seat.new.knows self.new }
        ensures same { (k : ℕ) → from ≤ k → Self.found seat.new.knows self.new k ≡ Self.found seat.old.knows self.old k }
        ensures next { IsNextFrom (Self.found seat.old.knows self.old) from (Self.last seat.new.knows self.new) }
        ensures key { result ≡ key_of (Self.last seat.new.knows self.new) }
        ensures stands { Self.stands seat.new.knows self.new from };
}
