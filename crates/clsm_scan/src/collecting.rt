//! The rows of a range of keys, by a cursor, one behind the other.
ghost use Rattle.std.specs.Prelude.{◌≡◌, ◌+◌, [], IfOk, IfSome};
ghost use Rattle.clsm_words.specs.Keeping.{LooksAside};
ghost use Rattle.clsm_words.specs.Plays.{IsSeatOf};
ghost use Rattle.clsm_scan.specs.Collected.{IsCollected, IsNextKey, left_at};
ghost use Rattle.clsm_scan.specs.Reading.{HasReadTo, MayReadFrom};

use crate::collector::Collector;
use crate::cursor::Cursor;
use clsm_model::Key;
use clsm_words::{Pace, RawSeat, Words};

/// The keys from `lo` to `hi`.
#[derive(Clone, Copy)]
pub struct Bounds {
    pub lo: Key,
    pub hi: Key,
}

/// The next key from `from` to `hi` that has a value, if there is one: the cursor has read it, but
/// not its value. Removed keys are skipped.
pub(crate) fn next_key<C: Cursor, P: Pace>(
    words: &Words<P>,
    seat: &mut RawSeat,
    cursor: &mut C,
    from: u64,
    hi: Key,
) -> Option<u64>
    requires stands { MayReadFrom C.is_over C.stands words.now seat.old cursor.old from }
    ensures of { IsSeatOf words.now seat.new }
    ensures looks { LooksAside seat.old.knows seat.new.knows }
    ensures over { C.is_over seat.new.knows cursor.new }
    ensures next { IsNextKey (left_at (C.found seat.old.knows cursor.old)) from hi (C.last seat.new.knows cursor.new) result }
    ensures read { IfSome result (λ key. HasReadTo C.is_over C.found C.stands words.now seat.old seat.new cursor.old cursor.new (key + 1)) }
{
    let mut sought = from;
    while sought <= hi {
        let Some(key) = cursor.read(words, seat, sought) else {
            return None;
        };
        if key > hi {
            return None;
        }
        if cursor.has_value(words, seat) {
            return Some(key);
        }
        let Some(behind) = key.checked_add(1) else {
            return None;
        };
        sought = behind;
    }
    None
}

/// Collects the rows of the keys within the bounds, by rising key: all of them, and answers `None`,
/// or as many as there may be, and answers the key of the next one. Refused as the collector
/// refuses a row.
pub fn collect<C: Cursor, P: Pace, R: Collector>(
    words: &Words<P>,
    seat: &mut RawSeat,
    cursor: &mut C,
    bounds: Bounds,
    rows: &mut R,
) -> Result<Option<u64>, R::Refusal>
    requires stands { MayReadFrom C.is_over C.stands words.now seat.old cursor.old bounds.lo }
    requires ready { R.is_ready rows.old }
    requires none { R.rows rows.old ≡ [] }
    ensures of { IsSeatOf words.now seat.new }
    ensures looks { LooksAside seat.old.knows seat.new.knows }
    ensures ready { R.is_ready rows.new }
    ensures most { R.most rows.new ≡ R.most rows.old }
    ensures goes_on { R.goes_on rows.old rows.new }
    ensures rows { IfOk result (λ more. IsCollected (left_at (C.found seat.old.knows cursor.old)) bounds.lo bounds.hi
        (R.most rows.old) (R.rows rows.new) more) }
{
    let mut from = bounds.lo;
    while let Some(key) = next_key(words, seat, cursor, from, bounds.hi) {
        if rows.is_full() {
            return Ok(Some(key));
        }
        rows.collect(words, seat, cursor)?;
        let Some(behind) = key.checked_add(1) else {
            return Ok(None);
        };
        from = behind;
    }
    Ok(None)
}
