//! A walk along the writes of one epoch or run.
ghost use Rattle.std.specs.Prelude.{◌≡◌, ℕ};
ghost use Rattle.clsm_levels.specs.Yields.{IsNextFrom, behind};
ghost use Rattle.clsm_words.specs.Keeping.{LooksAside};
ghost use Rattle.clsm_words.specs.Plays.{IsSeatOf};
ghost use Rattle.clsm_scan.specs.Heads.{key_of};
ghost use Rattle.clsm_scan.specs.Reading.{MayReadFrom};

use crate::source::Source;
use clsm_model::Key;
use clsm_words::{Pace, RawSeat, Words};

/// A walk along writes of a held component, which passes each write once.
pub trait Walk: Source {
    /// Goes to the key: what it comes by from there on is still ahead.
    fn seek<P: Pace>(&mut self, words: &Words<P>, seat: &mut RawSeat, key: Key)
        requires of { IsSeatOf words.now seat.old }
        requires over { Self.is_over seat.old.knows self.old }
        ensures of { IsSeatOf words.now seat.new }
        ensures looks { LooksAside seat.old.knows seat.new.knows }
        ensures over { Self.is_over seat.new.knows self.new }
        ensures same { (k : ℕ) → Self.found seat.new.knows self.new k ≡ Self.found seat.old.knows self.old k }
        ensures stands { Self.stands seat.new.knows self.new key };

    /// The key of the newest write below its time of the least key from `from` on that has one. It
    /// goes on behind that key. It takes no memory, and reads no value.
    fn next<P: Pace>(&mut self, words: &Words<P>, seat: &mut RawSeat, from: u64) -> Option<u64>
        requires stands { MayReadFrom Self.is_over Self.stands words.now seat.old self.old from }
        ensures of { IsSeatOf words.now seat.new }
        ensures looks { LooksAside seat.old.knows seat.new.knows }
        ensures over { Self.is_over seat.new.knows self.new }
        ensures same { (k : ℕ) → Self.found seat.new.knows self.new k ≡ Self.found seat.old.knows self.old k }
        ensures next { IsNextFrom (Self.found seat.old.knows self.old) from (Self.last seat.new.knows self.new) }
        ensures key { result ≡ key_of (Self.last seat.new.knows self.new) }
        ensures stands { Self.stands seat.new.knows self.new (behind from (Self.last seat.new.knows self.new)) };
}
