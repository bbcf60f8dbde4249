//! Short lists of records that are drawn: lawful ones, made by calls that are played on plain maps,
//! and such lists with one field altered.
use super::{END, KEYS};
use clsm_model::{
    CallRecord, Change, Deed, Key, Members, Memory, PageRange, PlainMap, Rows, Slot, Time, Value,
};
use rand_core::utils::NextWord;
use rand_pcg::Pcg32;
use std::alloc::{AllocError, Global};

/// A list has at least two calls, and fewer than so many more.
const MORE_CALLS: u32 = 8;

/// What was played so far: what each time came to, and the time of each seat's open snapshot.
#[derive(Drop)]
struct Played {
    draws: Pcg32,
    slots: Vec<Slot>,
    open: [Option<Time>; 3],
}

fn draw_value(draws: &mut Pcg32) -> Option<Value> {
    Value::new(&[u64::from(draws.next_word() % 3)]).ok()
}

fn draw_key(draws: &mut Pcg32) -> u64 {
    u64::from(draws.next_word()) % KEYS
}

/// The deed that leaves this at the key.
fn write_of(is_rmw: bool, key: Key, old: Option<Value>, left: Option<Value>) -> Deed {
    match (is_rmw, left) {
        (true, Some(value)) => {
            let change = Change::Set(value);
            Deed::Rmw { key, old, change }
        }
        (true, None) => {
            let change = Change::Remove;
            Deed::Rmw { key, old, change }
        }
        (false, Some(value)) => Deed::Put { key, value },
        (false, None) => Deed::Remove { key },
    }
}

impl Played {
    /// The time of the next call that is not at an open snapshot.
    fn clock(&self) -> Time {
        self.slots.len() as u64
    }

    /// The plain map of the writes below the time.
    fn map_at(&self, alloc: Global, time: Time) -> Result<PlainMap, Memory> {
        let end = self.slots.len().min(time as usize);
        PlainMap::replay(alloc, &self.slots[..end])
    }

    /// A write of the key. A time behind it may be given up.
    fn draw_write(&mut self, alloc: Global, seat: u32, key: Key) -> Result<(Time, Deed), Memory> {
        let time = self.clock();
        let old = self.map_at(alloc, time)?.get(key);
        let drawn = draw_value(&mut self.draws);
        let is_removal = self.draws.next_word() % 3 == 0;
        let value = if is_removal { None } else { drawn };
        let slot = Slot::Wrote { seat, key, value };
        self.slots.push(slot).map_err(AllocError::from)?;
        if self.draws.next_word() % 2 == 0 {
            self.slots.push(Slot::Nothing).map_err(AllocError::from)?;
        }
        let is_rmw = self.draws.next_word() % 2 == 0;
        Ok((time, write_of(is_rmw, key, old, value)))
    }

    /// A read of one key, an opening or a close.
    fn draw_read(&mut self, alloc: Global, seat: usize, key: Key) -> Result<(Time, Deed), Memory> {
        let now = self.clock();
        let open = self.open[seat % 3];
        match (open, self.draws.next_word() % 3) {
            (None, 0) => {
                self.open[seat % 3] = Some(now);
                Ok((now, Deed::Snapshot))
            }
            (Some(time), 0) => {
                self.open[seat % 3] = None;
                Ok((time, Deed::Close))
            }
            (Some(time), 1) => {
                let reply = self.map_at(alloc, time)?.get(key);
                Ok((time, Deed::GetAt { key, reply }))
            }
            (None, 1) => {
                let old = self.map_at(alloc, now)?.get(key);
                let change = Change::Keep;
                Ok((now, Deed::Rmw { key, old, change }))
            }
            _ => {
                let reply = self.map_at(alloc, now)?.get(key);
                Ok((now, Deed::Get { key, reply }))
            }
        }
    }

    /// A scan or a page, at the open snapshot where there is one.
    fn draw_range(&mut self, alloc: Global, seat: usize) -> Result<(Time, Deed), Memory> {
        let now = self.clock();
        let time = self.open[seat % 3].unwrap_or(now);
        let lo = draw_key(&mut self.draws);
        let hi = draw_key(&mut self.draws);
        let all = self.map_at(alloc, time)?.range(lo, hi)?;
        if self.draws.next_word() % 2 == 0 {
            let rows = Rows::new(all);
            return Ok((time, Deed::Scan { lo, hi, rows }));
        }
        let from = lo;
        let max = draw_key(&mut self.draws);
        let count = all.len().min(max as usize);
        let more = match all.get(count) {
            Some((next, _)) => Some(*next),
            None => None,
        };
        let rows = Rows::new(all[..count].to_vec(alloc)?);
        let range = PageRange { from, hi, max };
        Ok((time, Deed::Page { range, rows, more }))
    }

    /// A batch of one, two or three writes.
    fn draw_batch(&mut self, alloc: Global, seat: u32) -> Result<(Time, Deed), Memory> {
        let time = self.clock();
        let mut items = Vec::new(alloc);
        for _ in 0..1 + self.draws.next_word() % 3 {
            let key = draw_key(&mut self.draws);
            let drawn = draw_value(&mut self.draws);
            let is_removal = self.draws.next_word() % 3 == 0;
            let value = if is_removal { None } else { drawn };
            let change = match &value {
                Some(value) => Change::Set(*value),
                None => Change::Remove,
            };
            let slot = Slot::Wrote { seat, key, value };
            self.slots.push(slot).map_err(AllocError::from)?;
            items.push((key, change)).map_err(AllocError::from)?;
        }
        let members = Members::new(items);
        Ok((time, Deed::Batch { members }))
    }

    /// One call of some seat.
    fn draw_call(&mut self, alloc: Global) -> Result<CallRecord, Memory> {
        let seat = self.draws.next_word() % 3;
        let key = draw_key(&mut self.draws);
        let (time, deed) = match self.draws.next_word() % 4 {
            0 => self.draw_write(alloc, seat, key)?,
            1 => self.draw_batch(alloc, seat)?,
            2 => self.draw_read(alloc, seat as usize, key)?,
            _ => self.draw_range(alloc, seat as usize)?,
        };
        Ok(CallRecord { seat, time, deed })
    }
}

/// Alters one field of the record.
fn alter(draws: &mut Pcg32, call: &mut CallRecord) {
    let drawn = draw_value(draws);
    let drawn_key = draw_key(draws);
    match draws.next_word() % 8 {
        0 => call.seat = draws.next_word() % 4,
        1 => call.time = END - 1 + u64::from(draws.next_word() % 3),
        2 | 3 | 4 => call.time = u64::from(draws.next_word() % 8),
        _ => match &mut call.deed {
            Deed::Put { key, .. } | Deed::Remove { key } => *key = drawn_key,
            Deed::Rmw { old, .. } => *old = drawn,
            Deed::Get { reply, .. } | Deed::GetAt { reply, .. } => *reply = drawn,
            Deed::Scan { hi, .. } => *hi = drawn_key,
            Deed::Page { more, .. } => *more = Some(drawn_key),
            Deed::Snapshot => call.deed = Deed::Close,
            Deed::Close => call.deed = Deed::Snapshot,
            Deed::Batch { members } => members.clear(),
        },
    }
}

/// Neighbours of two seats may stand in either order.
fn mix(draws: &mut Pcg32, records: &mut [CallRecord]) {
    for place in 1..records.len() {
        if records[place - 1].seat != records[place].seat && draws.next_word() % 2 == 0 {
            records.swap(place - 1, place);
        }
    }
}

/// The list of this number: lawful where the number is even, else with a field altered.
pub fn draw(alloc: Global, number: u64) -> Result<Vec<CallRecord>, Memory> {
    let mut played = Played {
        draws: Pcg32::new(number, 1),
        slots: Vec::new(alloc),
        open: [None; 3],
    };
    let mut records = Vec::new(alloc);
    let calls = 2 + played.draws.next_word() % MORE_CALLS;
    for _ in 0..calls {
        let call = played.draw_call(alloc)?;
        records.push(call).map_err(AllocError::from)?;
    }
    mix(&mut played.draws, &mut records);
    if number % 2 == 1 {
        let place = played.draws.next_word() % calls;
        if let Some(call) = records.get_mut(place as usize) {
            alter(&mut played.draws, call);
        }
    }
    Ok(records)
}
