//! What a thread makes its calls on: a seat of a store, a caller of a session, or a map under a
//! lock.
use crate::draws::Call;
use clsm_model::{Change, Key, Value};
use clsm_session::{Place, SessionCaller};
use clsm_store::Caller;
use clsm_words::Free;
use std::alloc::Global;
use std::collections::BTreeMap;
use std::sync::{RwLock, Wait};
use std::thread;

/// The rows of the keys from `lo` to `hi`: all of them, or the first so many.
#[derive(Clone, Copy)]
pub struct Span {
    lo: Key,
    hi: Key,
    most: Option<usize>,
}

impl Span {
    fn all(lo: Key, hi: Key) -> Span {
        Span { lo, hi, most: None }
    }

    /// So many rows from this key on.
    fn first(lo: Key, rows: usize) -> Span {
        Span {
            lo,
            hi: u64::MAX,
            most: Some(rows),
        }
    }
}

/// What a thread makes its calls on.
pub trait Target {
    /// How often a write is tried while there is no room for it, before the thread gives up.
    const TRIES: u32;

    /// The number of the thread.
    fn number(&self) -> u32;

    /// The first word that the key has.
    fn first_word<R: Wait>(&mut self, rt: &R, key: Key) -> Option<u64>;

    /// Puts the word at the key. Answers whether there was room for it.
    fn put_word<R: Wait>(&mut self, rt: &R, key: Key, word: u64) -> bool;

    /// Adds one to the second word that the key has. Answers whether there was room for it.
    fn increase<R: Wait>(&mut self, rt: &R, key: Key) -> bool;

    /// Makes the writes of a batch, once. Answers whether they were made.
    fn write_all<R: Wait>(&mut self, rt: &R, members: &[(u64, Change)]) -> bool;

    /// How many rows it reads of the span.
    fn rows<R: Wait>(&mut self, rt: &R, alloc: Global, span: Span) -> Option<usize>;

    /// Makes the call, a write again while there is no room for it. Answers whether it was answered
    /// as it should be.
    #[inline]
    fn make<R: Wait>(&mut self, rt: &R, alloc: Global, call: &Call) -> bool {
        match call {
            Call::Put { key, word } => self.write(rt, *key, Some(*word)),
            Call::Change { key } => self.write(rt, *key, None),
            Call::Get { key, word } => self.first_word(rt, *key) == *word,
            Call::Scan { lo, hi, rows } => {
                self.rows(rt, alloc, Span::all(*lo, *hi)) == Some(*rows)
            }
            Call::Page { from, rows } => {
                self.rows(rt, alloc, Span::first(*from, *rows)) == Some(*rows)
            }
        }
    }

    /// Puts the word, or changes the value that is there, as often as it is tried.
    #[inline]
    fn write<R: Wait>(&mut self, rt: &R, key: Key, word: Option<u64>) -> bool {
        for _ in 0..Self::TRIES {
            let is_made = match word {
                Some(word) => self.put_word(rt, key, word),
                None => self.increase(rt, key),
            };
            if is_made {
                return true;
            }
            thread::yield_now();
        }
        false
    }
}

/// The value with one more in its second word.
fn increased(value: &Value) -> Value {
    let words = value.words();
    let count = *words.get(1).unwrap_or(&0);
    Value::new(&[words[0], count.wrapping_add(1)]).unwrap()
}

/// What is written where the key has this value.
fn increase_of(old: Option<Value>) -> Change {
    match old {
        Some(value) => Change::Set(increased(&value)),
        None => Change::Keep,
    }
}

/// A write with no room is refused at once.
impl Target for Caller<'_, Free> {
    const TRIES: u32 = 1 << 24;

    fn number(&self) -> u32 {
        self.seat.number()
    }

    #[inline]
    fn first_word<R: Wait>(&mut self, _rt: &R, key: Key) -> Option<u64> {
        Some(self.get(key).value?.first())
    }

    #[inline]
    fn put_word<R: Wait>(&mut self, rt: &R, key: Key, word: u64) -> bool {
        self.put(rt, key, Value::from(word)).is_ok()
    }

    #[inline]
    fn increase<R: Wait>(&mut self, rt: &R, key: Key) -> bool {
        self.rmw(rt, key, &|old| increase_of(old)).is_ok()
    }

    #[inline]
    fn write_all<R: Wait>(&mut self, rt: &R, members: &[(u64, Change)]) -> bool {
        self.batch(rt, members).is_ok()
    }

    fn rows<R: Wait>(&mut self, _rt: &R, alloc: Global, span: Span) -> Option<usize> {
        let Span { lo, hi, most } = span;
        let rows = match most {
            Some(most) => self.page(alloc, lo, hi, most).ok()?.rows,
            None => self.scan(alloc, lo, hi).ok()?.rows,
        };
        Some(rows.as_slice().len())
    }
}

/// A write waits for room, and is refused where the merger can make none.
impl<W: Wait, P: Place> Target for SessionCaller<'_, W, P> {
    const TRIES: u32 = 1;

    fn number(&self) -> u32 {
        SessionCaller::number(self)
    }

    #[inline]
    fn first_word<R: Wait>(&mut self, _rt: &R, key: Key) -> Option<u64> {
        Some(self.get(key).value?.first())
    }

    #[inline]
    fn put_word<R: Wait>(&mut self, _rt: &R, key: Key, word: u64) -> bool {
        self.put(key, Value::from(word)).is_ok()
    }

    #[inline]
    fn increase<R: Wait>(&mut self, _rt: &R, key: Key) -> bool {
        self.rmw(key, &|old| increase_of(old)).is_ok()
    }

    #[inline]
    fn write_all<R: Wait>(&mut self, _rt: &R, members: &[(u64, Change)]) -> bool {
        self.batch(members).is_ok()
    }

    fn rows<R: Wait>(&mut self, _rt: &R, _alloc: Global, span: Span) -> Option<usize> {
        let Span { lo, hi, most } = span;
        let rows = match most {
            Some(most) => self.page(lo, hi, most).ok()?.rows,
            None => self.scan(lo, hi).ok()?.rows,
        };
        Some(rows.as_slice().len())
    }
}

/// A map under a lock, for the thread with this number.
#[derive(Drop)]
pub struct MapCaller<'a> {
    pub number: u32,
    pub map: &'a RwLock<BTreeMap<u64, Value>>,
}

/// There is always room, but for no batch.
impl Target for MapCaller<'_> {
    const TRIES: u32 = 1;

    fn number(&self) -> u32 {
        self.number
    }

    #[inline]
    fn first_word<R: Wait>(&mut self, rt: &R, key: Key) -> Option<u64> {
        match self.map.read(rt).get(&key) {
            Some(value) => Some(value.first()),
            None => None,
        }
    }

    #[inline]
    fn put_word<R: Wait>(&mut self, rt: &R, key: Key, word: u64) -> bool {
        let value = Value::from(word);
        self.map.write(rt).insert(key, value).is_ok()
    }

    #[inline]
    fn increase<R: Wait>(&mut self, rt: &R, key: Key) -> bool {
        match self.map.write(rt).get_mut(&key) {
            Some(value) => {
                *value = increased(value);
                true
            }
            None => false,
        }
    }

    fn write_all<R: Wait>(&mut self, _rt: &R, _members: &[(u64, Change)]) -> bool {
        false
    }

    fn rows<R: Wait>(&mut self, rt: &R, alloc: Global, span: Span) -> Option<usize> {
        let Span { lo, hi, most } = span;
        let map = self.map.read(rt);
        let mut rows = Vec::new(alloc);
        if lo <= hi {
            for (key, value) in map.range(lo..=hi).take(most.unwrap_or(usize::MAX)) {
                rows.push((*key, *value)).ok()?;
            }
        }
        Some(rows.len())
    }
}
