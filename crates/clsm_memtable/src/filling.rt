//! The parts of a drawn cell.
ghost use Rattle.std.specs.Prelude.{◌≡◌, length, map, take, false, Some, option_copied};
ghost use Rattle.clsm_words.specs.Plays.{IsSeatOf};
ghost use Rattle.clsm_memtable.specs.Filling.{Fills, FillsParts, MayFill};

use clsm_law::Part;
use clsm_model::{Key, Time, Value};
use clsm_words::{Pace, RawSeat, Words};

/// Fills the words of the value into the drawn cell.
#[inline(always)]
pub(crate) fn fill_words<P: Pace>(words: &Words<P>, seat: &mut RawSeat, time: Time, value: &[u64])
    requires { MayFill words.now seat.old time (length value.now) }
    ensures of { IsSeatOf words.now seat.new }
    ensures filled { FillsParts seat.old.knows seat.new.knows }
    ensures key { seat.new.knows.view.key ≡ seat.old.knows.view.key }
    ensures length { seat.new.knows.view.length ≡ seat.old.knows.view.length }
    ensures words { take (length value.now) seat.new.knows.view.words ≡ map (λ w. Some w) value.now }
{
    for (index, word) in value.iter().enumerate() {
        seat.show_invariant();
        words.fill(seat, time, Part::Value(index as u64), *word);
    }
}

/// Fills the parts of the drawn cell, except its next.
#[inline(always)]
fn fill_cell<P: Pace>(words: &Words<P>, seat: &mut RawSeat, time: Time, key: Key, value: &[u64])
    requires { MayFill words.now seat.old time (length value.now) }
    ensures of { IsSeatOf words.now seat.new }
    ensures filled { FillsParts seat.old.knows seat.new.knows }
    ensures key { seat.new.knows.view.key ≡ Some key }
    ensures length { seat.new.knows.view.length ≡ Some (length value.now) }
    ensures words { take (length value.now) seat.new.knows.view.words ≡ map (λ w. Some w) value.now }
{
    seat.show_invariant();
    words.fill(seat, time, Part::Key, key);
    seat.show_invariant();
    words.fill(seat, time, Part::Length, value.len() as u64);
    fill_words(words, seat, time, value);
}

/// Fills the drawn cell with this write, a value or, with `None`, a removal: its key, its length in
/// words, which is 0 of a removal, and its words; what stands behind them in the cell is left as it
/// is. It links nothing, never waits and is never refused.
pub fn fill<P: Pace>(
    words: &Words<P>,
    seat: &mut RawSeat,
    time: Time,
    key: Key,
    value: Option<&Value>,
)
    requires of { IsSeatOf words.now seat.old }
    requires drawn { seat.old.knows.view.drawn ≡ Some time }
    requires unlinked { seat.old.knows.view.linked ≡ false }
    ensures of { IsSeatOf words.now seat.new }
    ensures filled { Fills seat.old.knows seat.new.knows key (option_copied value.entry) }
{
    match value {
        Some(value) => fill_cell(words, seat, time, key, value.words()),
        None => fill_cell(words, seat, time, key, &[]),
    }
}
