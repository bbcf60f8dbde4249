//! Visits of the keys of a range that have a value, by a cursor.
ghost use Rattle.std.specs.Prelude.{◌≡◌, ◌∷◌, [], true};
ghost use Rattle.clsm_model.specs.Map.{Pair};
ghost use Rattle.clsm_words.specs.Keeping.{LooksAside};
ghost use Rattle.clsm_words.specs.Plays.{IsSeatOf};
ghost use Rattle.clsm_scan.specs.Collected.{IsVisit, StepsBehind, left_at};
ghost use Rattle.clsm_scan.specs.Heads.{has_value, rows_of};
ghost use Rattle.clsm_scan.specs.Reading.{MayReadFrom};

use crate::collecting::{Bounds, next_key};
use crate::cursor::Cursor;
use crate::sink::Sink;
use crate::source::Source;
use clsm_model::{Key, Value};
use clsm_words::{Pace, RawSeat, Words};

/// How many keys of a range have a value, and the first of them.
#[derive(Clone, Copy)]
pub struct KeyCount {
    pub keys: u64,
    pub first: Option<u64>,
}

/// What is done at each row of a range.
pub trait Visitor {
    ghost takes: { Self → Pair → Self → Type 0 };

    ghost is_ready: { Self → Type 0 };

    /// Takes the row of the write that the source came by last. It has the row given to it only if
    /// it wants the value.
    fn visit<S: Source, P: Pace>(&mut self, words: &Words<P>, seat: &mut RawSeat, source: &S)
        requires of { IsSeatOf words.now seat.old }
        requires over { S.is_over seat.old.knows source.now }
        requires has { has_value (S.last seat.old.knows source.now) ≡ true }
        requires ready { is_ready self.old }
        ensures of { IsSeatOf words.now seat.new }
        ensures looks { LooksAside seat.old.knows seat.new.knows }
        ensures ready { is_ready self.new }
        ensures takes { (row : Pair) → rows_of (S.last seat.old.knows source.now) ≡ row ∷ [] → takes self.old row self.new };
}

/// The visitor that only passes: no value is read.
#[derive(Clone, Copy)]
pub struct Passing;

impl Visitor for Passing {
    ghost takes = { λ before row after. Unit {0} };

    ghost is_ready = { λ visitor. Unit {0} };

    #[inline(always)]
    fn visit<S: Source, P: Pace>(&mut self, _words: &Words<P>, _seat: &mut RawSeat, _source: &S) {}
}

/// The visitor that calls a function with the key and the value.
#[derive(Drop)]
pub struct Calling<'a, F> {
    pub call: &'a mut F,
}

impl<F: FnMut(u64, Value)> Sink for Calling<'_, F> {
    type Reply = ();

    ghost takes = { λ before row reply after. StepsBehind (λ f f'. F.step f row.0 row.1 tt f') before.call after.call };

    ghost is_ready = { λ sink. F.IsAlwaysCallable sink.call.now };

    #[inline(always)]
    fn take(&mut self, key: Key, value: Value) {
        (self.call)(key, value);
    }
}

impl<F: FnMut(u64, Value)> Visitor for Calling<'_, F> {
    ghost takes = { λ before row after. StepsBehind (λ f f'. F.step f row.0 row.1 tt f') before.call after.call };

    ghost is_ready = { λ visitor. F.IsAlwaysCallable visitor.call.now };

    #[inline(always)]
    fn visit<S: Source, P: Pace>(&mut self, words: &Words<P>, seat: &mut RawSeat, source: &S) {
        source.give(words, seat, self);
    }
}

/// Has the visitor take the rows of all keys within the bounds that have a value, by rising key. It
/// answers how many there are, or 2^64 - 1 if all 2^64 keys have a value, and the first of them. It
/// takes no memory.
pub fn visit_keys<C: Cursor, P: Pace, V: Visitor>(
    words: &Words<P>,
    seat: &mut RawSeat,
    cursor: &mut C,
    bounds: Bounds,
    visitor: &mut V,
) -> KeyCount
    requires stands { MayReadFrom C.is_over C.stands words.now seat.old cursor.old bounds.lo }
    requires ready { V.is_ready visitor.old }
    ensures of { IsSeatOf words.now seat.new }
    ensures looks { LooksAside seat.old.knows seat.new.knows }
    ensures visits { IsVisit V.takes (left_at (C.found seat.old.knows cursor.old)) bounds.lo bounds.hi result.keys result.first visitor.old visitor.new }
{
    let mut keys = 0_u64;
    let mut first = None;
    let mut from = bounds.lo;
    while let Some(key) = next_key(words, seat, cursor, from, bounds.hi) {
        visitor.visit(words, seat, cursor);
        keys = keys.saturating_add(1);
        first = Some(first.unwrap_or(key));
        let Some(behind) = key.checked_add(1) else {
            return KeyCount { keys, first };
        };
        from = behind;
    }
    KeyCount { keys, first }
}
