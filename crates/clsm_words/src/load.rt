//! Values that stand in words, read word by word.
ghost use Rattle.std.specs.Prelude.{◌≡◌, ℕ, ◌<◌, ◌≤◌, ◌∷◌, [], List, Option, Some, IfSome, slice_index};
ghost use Rattle.clsm_law.specs.Views.{length_of, words_of};
ghost use Rattle.clsm_words.specs.declared.words.WordTable.{WordTable};

use crate::pace::Pace;
use crate::words::Words;
use clsm_model::Value;

/// A place where a value stands, as seats of one kind look at it.
pub trait Load<S> {
    ghost stands: { WordTable → S → Self → Type 0 };

    ghost value: { S → Self → Option (List ℕ) };

    ghost looks: { WordTable → S → S → Type 0 };

    /// How many words the value has.
    fn length<P: Pace>(&self, words: &Words<P>, seat: &mut S) -> usize
        requires { stands words.now seat.old self.now }
        ensures looks { looks words.now seat.old seat.new }
        ensures told { result ≡ length_of (value seat.old self.now) }
        ensures some { 1 ≤ result }
        ensures few { result ≤ 8 };

    /// This one of its words.
    fn word<P: Pace>(&self, words: &Words<P>, seat: &mut S, index: usize) -> u64
        requires stands { stands words.now seat.old self.now }
        requires inside { index < length_of (value seat.old self.now) }
        ensures looks { looks words.now seat.old seat.new }
        ensures told { result ≡ slice_index (words_of (value seat.old self.now)) index };

    ghost stands_on: { (words : WordTable) (a b : S) (at : Self) → stands words a at → looks words a b → stands words b at };

    ghost value_stays: { (words : WordTable) (a b : S) (at : Self) → stands words a at → looks words a b → value b at ≡ value a at };

    ghost looks_on: { (words : WordTable) (a b c : S) → looks words a b → looks words b c → looks words a c };
}

/// The value that stands at the place: only its own words are looked at.
#[inline]
pub fn load_value<S, L: Load<S>, P: Pace>(words: &Words<P>, seat: &mut S, at: &L) -> Value
    requires { L.stands words.now seat.old at.now }
    ensures looks { L.looks words.now seat.old seat.new }
    ensures told { L.value seat.old at.now ≡ Some result }
{
    let count = at.length(words, seat);
    load_words(words, seat, at, count)
}

/// The word of the value that stands at the place, if that is its only one.
#[inline(always)]
pub fn load_word<S, L: Load<S>, P: Pace>(words: &Words<P>, seat: &mut S, at: &L) -> Option<u64>
    requires { L.stands words.now seat.old at.now }
    ensures looks { L.looks words.now seat.old seat.new }
    ensures told { IfSome result (λ word. L.value seat.old at.now ≡ Some (word ∷ [])) }
{
    if at.length(words, seat) == 1 {
        Some(at.word(words, seat, 0))
    } else {
        None
    }
}

/// Leaves the value that stands at the place, as `load_value`, in the caller's place: a value of
/// one word is copied no further.
#[inline(always)]
pub fn load_into<S, L: Load<S>, P: Pace>(
    words: &Words<P>,
    seat: &mut S,
    at: &L,
    into: &mut Option<Value>,
)
    requires { L.stands words.now seat.old at.now }
    ensures looks { L.looks words.now seat.old seat.new }
    ensures told { into.new ≡ L.value seat.old at.now }
{
    let count = at.length(words, seat);
    if count == 1 {
        *into = Some(Value::from(at.word(words, seat, 0)));
    } else {
        load_words_into(words, seat, at, count, into);
    }
}

/// Leaves the value with so many words that stands at the place in the caller's place.
#[inline(never)]
fn load_words_into<S, L: Load<S>, P: Pace>(
    words: &Words<P>,
    seat: &mut S,
    at: &L,
    count: usize,
    into: &mut Option<Value>,
)
    requires stands { L.stands words.now seat.old at.now }
    requires counted { count ≡ length_of (L.value seat.old at.now) }
    requires some { 1 ≤ count }
    requires few { count ≤ 8 }
    ensures looks { L.looks words.now seat.old seat.new }
    ensures told { into.new ≡ L.value seat.old at.now }
{
    *into = Some(load_words(words, seat, at, count));
}

/// The value with so many words that stands at the place.
#[inline]
fn load_words<S, L: Load<S>, P: Pace>(words: &Words<P>, seat: &mut S, at: &L, count: usize) -> Value
    requires stands { L.stands words.now seat.old at.now }
    requires counted { count ≡ length_of (L.value seat.old at.now) }
    requires some { 1 ≤ count }
    requires few { count ≤ 8 }
    ensures looks { L.looks words.now seat.old seat.new }
    ensures told { L.value seat.old at.now ≡ Some result }
{
    let first = at.word(words, seat, 0);
    let mut read = [first, 0, 0, 0, 0, 0, 0, 0];
    for index in 1..count {
        read[index] = at.word(words, seat, index);
    }
    Value::of_padded(read, count)
}
