//! Read-modify-writes that most programs make: an addition to a counter, a first write, and the
//! replacement of an expected value.
ghost use Rattle.std.specs.Prelude.{◌≡◌};
ghost use Rattle.clsm_model.specs.Changes.{Adds, PutsIfAbsent};
ghost use Rattle.clsm_store.specs.Changes.{Replaces};
ghost use Rattle.clsm_store.specs.Promises.{ChangesBy, TriesToChangeBy};

use crate::caller::Caller;
use crate::seat::Seat;
use crate::store::Store;
use clsm_model::{Change, Key, Value, added, put_if_absent};
use clsm_store_calls::{Full, Rmw, TryPutError};
use clsm_words::Pace;
use std::sync::Wait;

/// What `try_replace` makes of the old value: the desired one, or with `None` a removal, if the old
/// one is the expected one; else `Keep`.
pub fn replaced(old: Option<Value>, expected: Option<Value>, desired: Option<Value>) -> Change
    ensures { Replaces old expected desired result }
{
    if old != expected {
        return Change::Keep;
    }
    match desired {
        Some(value) => Change::Set(value),
        None => Change::Remove,
    }
}

impl<P: Pace> Store<P> {
    /// Adds the number to the key's word, which counts as 0 if the key has no value, in one
    /// read-modify-write. It keeps the value if the sum passes 2^64 - 1 or the value has several
    /// words: the answer's `change` tells. It waits and is refused as `put`.
    pub fn add<R: Wait>(&self, rt: &R, seat: &mut Seat, key: Key, by: u64) -> Result<Rmw, Full>
        requires { seat.old.store ≡ self.now }
        ensures { ChangesBy seat.old seat.new key (Adds by) result }
    {
        self.rmw(rt, seat, key, &|old| added(old, by))
    }

    /// Writes the value at the key if the key has none, and else keeps what it has, in one
    /// read-modify-write: the answer's `old` tells. It waits and is refused as `put`.
    pub fn put_if_absent<R: Wait>(
        &self,
        rt: &R,
        seat: &mut Seat,
        key: Key,
        value: Value,
    ) -> Result<Rmw, Full>
        requires { seat.old.store ≡ self.now }
        ensures { ChangesBy seat.old seat.new key (PutsIfAbsent value) result }
    {
        self.rmw(rt, seat, key, &|old| put_if_absent(old, value))
    }

    /// Adds the number to the key's word as `add`, but tries each exchange once and never waits.
    /// Refused as `try_rmw`.
    pub fn try_add(&self, seat: &mut Seat, key: Key, by: u64) -> Result<Rmw, TryPutError>
        requires { seat.old.store ≡ self.now }
        ensures { TriesToChangeBy seat.old seat.new key (Adds by) result }
    {
        self.try_rmw(seat, key, &|old| added(old, by))
    }

    /// Writes the value at the key if the key has none as `put_if_absent`, but tries each exchange
    /// once and never waits. Refused as `try_rmw`.
    pub fn try_put_if_absent(
        &self,
        seat: &mut Seat,
        key: Key,
        value: Value,
    ) -> Result<Rmw, TryPutError>
        requires { seat.old.store ≡ self.now }
        ensures { TriesToChangeBy seat.old seat.new key (PutsIfAbsent value) result }
    {
        self.try_rmw(seat, key, &|old| put_if_absent(old, value))
    }

    /// Replaces the key's value, if it is the expected one, by the desired one, in one
    /// read-modify-write that tries each exchange once and never waits. With `None` the key is
    /// expected to have no value, or is to have none. It keeps another value than the expected one:
    /// the answer's `old` and `change` tell. Refused as `try_rmw`.
    pub fn try_replace(
        &self,
        seat: &mut Seat,
        key: Key,
        expected: Option<Value>,
        desired: Option<Value>,
    ) -> Result<Rmw, TryPutError>
        requires { seat.old.store ≡ self.now }
        ensures { TriesToChangeBy seat.old seat.new key (λ value change. Replaces value expected desired change) result }
    {
        self.try_rmw(seat, key, &|old| replaced(old, expected, desired))
    }
}

impl<'a, P: Pace> Caller<'a, P> {
    /// As `Store::add`.
    pub fn add<R: Wait>(&mut self, rt: &R, key: Key, by: u64) -> Result<Rmw, Full>
        ensures { ChangesBy self.old.seat self.new.seat key (Adds by) result }
    {
        self.store.add(rt, &mut self.seat, key, by)
    }

    /// As `Store::put_if_absent`.
    pub fn put_if_absent<R: Wait>(&mut self, rt: &R, key: Key, value: Value) -> Result<Rmw, Full>
        ensures { ChangesBy self.old.seat self.new.seat key (PutsIfAbsent value) result }
    {
        self.store.put_if_absent(rt, &mut self.seat, key, value)
    }
    /// As `Store::try_add`.
    pub fn try_add(&mut self, key: Key, by: u64) -> Result<Rmw, TryPutError>
        ensures { TriesToChangeBy self.old.seat self.new.seat key (Adds by) result }
    {
        self.store.try_add(&mut self.seat, key, by)
    }

    /// As `Store::try_put_if_absent`.
    pub fn try_put_if_absent(&mut self, key: Key, value: Value) -> Result<Rmw, TryPutError>
        ensures { TriesToChangeBy self.old.seat self.new.seat key (PutsIfAbsent value) result }
    {
        self.store.try_put_if_absent(&mut self.seat, key, value)
    }

    /// As `Store::try_replace`.
    pub fn try_replace(
        &mut self,
        key: Key,
        expected: Option<Value>,
        desired: Option<Value>,
    ) -> Result<Rmw, TryPutError>
        ensures { TriesToChangeBy self.old.seat self.new.seat key (λ value change. Replaces value expected desired change) result }
    {
        self.store
            .try_replace(&mut self.seat, key, expected, desired)
    }
}
