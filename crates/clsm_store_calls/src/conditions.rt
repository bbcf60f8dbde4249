//! Conditions on the map, and their tests at the words: at one time, in a read that is under way.
ghost use Rattle.std.specs.Prelude.{◌≡◌, IfNone, IfSome, false, true};
ghost use Rattle.clsm_model.specs.History.{plain};
ghost use Rattle.clsm_words.specs.{Keeping.Looks, Plays.IsSeatOf};
ghost use Rattle.clsm_store_calls.specs.Conditions.{AllHold, Holds, IsFirstUnmet};
ghost use Rattle.clsm_store_calls.specs.{Reading.MayReadBelow, Scanning.IsKeyCount};

use crate::reading::value_below;
use clsm_model::{Key, Value};
use clsm_scan::{Bounds, KeyCount, Passing, ReadPoint, visit};
use clsm_words::{Pace, RawSeat, Words};

/// A condition on the map: what a key has, or how many keys of a range have a value.
#[derive(Clone, Copy, PartialEq, Eq, Debug)]
pub enum Condition {
    /// The key has this value, or none.
    Has(Key, Option<Value>),
    /// So many keys from `lo` to `hi` have a value.
    Counts { lo: Key, hi: Key, keys: u64 },
}

/// How many keys within the bounds have a value at the point.
fn keys_below<P: Pace>(
    words: &Words<P>,
    seat: &mut RawSeat,
    point: ReadPoint,
    bounds: Bounds,
) -> u64
    requires of { IsSeatOf words.now seat.old }
    requires may { MayReadBelow seat.old.knows point.component point.until }
    ensures of { IsSeatOf words.now seat.new }
    ensures looks { Looks seat.old.knows seat.new.knows }
    ensures counts { IsKeyCount (plain seat.old.knows.past) point.until bounds.lo bounds.hi result }
{
    seat.show_invariant();
    let KeyCount { keys, .. } = visit(words, seat, point, bounds, &mut Passing);
    keys
}

/// Whether the condition holds at the point. Its time is not below what is merged into its
/// component.
fn is_met<P: Pace>(
    words: &Words<P>,
    seat: &mut RawSeat,
    point: ReadPoint,
    condition: &Condition,
) -> bool
    requires of { IsSeatOf words.now seat.old }
    requires may { MayReadBelow seat.old.knows point.component point.until }
    ensures of { IsSeatOf words.now seat.new }
    ensures looks { Looks seat.old.knows seat.new.knows }
    ensures met { result ≡ true → Holds (plain seat.old.knows.past) point.until condition.now }
    ensures unmet { result ≡ false → ¬ Holds (plain seat.old.knows.past) point.until condition.now }
{
    match condition {
        Condition::Has(key, expected) => value_below(words, seat, point, *key) == *expected,
        Condition::Counts { lo, hi, keys } => {
            let bounds = Bounds { lo: *lo, hi: *hi };
            keys_below(words, seat, point, bounds) == *keys
        }
    }
}

/// The place of the first condition that does not hold at the point, if one does not. Those behind
/// it are not tested.
pub(crate) fn first_unmet<P: Pace>(
    words: &Words<P>,
    seat: &mut RawSeat,
    point: ReadPoint,
    conditions: &[Condition],
) -> Option<usize>
    requires of { IsSeatOf words.now seat.old }
    requires may { MayReadBelow seat.old.knows point.component point.until }
    ensures of { IsSeatOf words.now seat.new }
    ensures looks { Looks seat.old.knows seat.new.knows }
    ensures all { IfNone result (AllHold (plain seat.old.knows.past) point.until conditions.now) }
    ensures first { IfSome result (IsFirstUnmet (plain seat.old.knows.past) point.until conditions.now) }
{
    for index in 0..conditions.len() {
        if !is_met(words, seat, point, &conditions[index]) {
            return Some(index);
        }
    }
    None
}
