//! The turns of a worker, drawn by chance.
ghost use Rattle.std.specs.Prelude.{◌≡◌, ◌≤◌, ◌&&◌, ◌==◌};
ghost use Rattle.clsm_workload.specs.Calls.{workload_of};
ghost use Rattle.clsm_workload.specs.Workload.{after_draw, deal_of, drawn, keys_from, many_of, pair_of, swap_of, turn_from, words_by};

use crate::load::Load;
use crate::turn::{MANY, Turn};
use clsm_model::{Change, Deal, Key, Value};
use rand_core::utils::NextWord;
use rand_pcg::Lcg64Xsh32;
use std::marker::Model;

/// The turns of one worker, drawn by chance: six of sixteen are puts, one a remove, four gets, one
/// an `add`, one a `claim`, one a scan of 16 keys, and two a snapshot's, or a scan of all keys.
/// With batches, one of the puts is a batch of two keys that follow each other; with exchanges,
/// one more is an exchange; with reads of several keys, one of the gets is a read of keys that
/// follow each other.
#[derive(Drop)]
pub struct Workload {
    words: Lcg64Xsh32,
    keys: u64,
    batch: bool,
    many: bool,
    swap: bool,
}

impl Model for Workload {
    ghost use Rattle.std.specs.Prelude.{◌≤◌};
    ghost use Rattle.clsm_workload.specs.Workload.{Source};

    ghost Value = { Source };

    ghost view = { λ w. record { words = w.words; keys = w.keys; batch = w.batch; many = w.many; swap = w.swap } };

    ghost invariant = { λ w. (1 ≤ w.keys) × (w.keys ≤ 1000000) };
}

/// The three words that a call draws: which call, which key, and which words it writes.
#[derive(Clone, Copy)]
struct Draw {
    call: u32,
    key: u32,
    first: u32,
}

impl Workload {
    /// The turns that the load asks of the worker with this number.
    pub fn new(load: &Load, worker: u32) -> Workload
        ensures { result ≡ workload_of load.now worker }
    {
        Workload {
            words: Lcg64Xsh32::new(load.seed, u64::from(worker)),
            keys: load.keys,
            batch: load.batch,
            many: load.many,
            swap: load.swap,
        }
    }

    /// The next turn, for a worker that has a snapshot open or has none.
    pub fn next(&mut self, has_snapshot: bool) -> Turn
        ensures turn { result ≡ turn_from self.old (drawn self.old.words) has_snapshot }
        ensures words { self.new ≡ record self.old { words = after_draw self.old.words } }
    {
        let draw = self.draw();
        let number = draw.call % 16;
        if is_among(self.batch, number, BATCH_NUMBER) {
            return Turn::Call(pair_by(draw, self.keys));
        }
        if is_among(self.swap, number, SWAP_NUMBER) {
            return swap_by(draw, self.keys);
        }
        if is_among(self.many, number, MANY_NUMBER) {
            return many_by(draw, self.keys);
        }
        Turn::Call(deal_by(draw, self.keys, has_snapshot))
    }

    /// The next three words.
    fn draw(&mut self) -> Draw
        ensures draw { result ≡ drawn self.old.words }
        ensures words { self.new ≡ record self.old { words = after_draw self.old.words } }
    {
        let call = self.words.next_word();
        let key = self.words.next_word();
        let first = self.words.next_word();
        Draw { call, key, first }
    }
}

/// The numbers of sixteen at which a batch, an exchange, and a read of several keys stand.
const BATCH_NUMBER: u32 = 0;

const SWAP_NUMBER: u32 = 1;

const MANY_NUMBER: u32 = 7;

/// Whether such turns are among the others, and this number is theirs.
fn is_among(are_drawn: bool, number: u32, theirs: u32) -> bool
    ensures { result ≡ (are_drawn && number == theirs) }
{
    are_drawn && number == theirs
}

/// The exchange of a draw: of its key, and of a key by its third word.
fn swap_by(draw: Draw, keys: u64) -> Turn
    requires some { 1 ≤ keys }
    requires at_most { keys ≤ 1000000 }
    ensures { result ≡ swap_of draw keys }
{
    Turn::Swap {
        one: u64::from(draw.key) % keys,
        other: u64::from(draw.first) % keys,
    }
}

/// The read of several keys of a draw: of its key and those behind it.
fn many_by(draw: Draw, keys: u64) -> Turn
    requires some { 1 ≤ keys }
    requires at_most { keys ≤ 1000000 }
    ensures { result ≡ many_of draw keys }
{
    Turn::Many {
        keys: keys_by(u64::from(draw.key) % keys, keys),
    }
}

/// The key and those behind it; behind the last key is the first.
fn keys_by(key: Key, keys: u64) -> [u64; MANY]
    requires below { key ≤ keys }
    requires some { 1 ≤ keys }
    requires at_most { keys ≤ 1000000 }
    ensures { result ≡ keys_from key keys }
{
    [key, (key + 1) % keys, (key + 2) % keys, (key + 3) % keys]
}

/// The batch of a draw: one value at the key and at the key behind it, which is 0 behind the last.
/// Of one key both members are.
fn pair_by(draw: Draw, keys: u64) -> Deal
    requires some { 1 ≤ keys }
    requires at_most { keys ≤ 1000000 }
    ensures { result ≡ pair_of draw keys }
{
    let key = u64::from(draw.key) % keys;
    let next = (key + 1) % keys;
    let value = value_by(u64::from(draw.first));
    Deal::Batch {
        members: [(key, Change::Set(value)), (next, Change::Set(value))],
    }
}

/// The call of a draw where there are calls of one key alone.
fn deal_by(draw: Draw, keys: u64, has_snapshot: bool) -> Deal
    requires some { 1 ≤ keys }
    requires at_most { keys ≤ 1000000 }
    ensures { result ≡ deal_of draw keys has_snapshot }
{
    let key = u64::from(draw.key) % keys;
    let value = value_by(u64::from(draw.first));
    match draw.call % 16 {
        0..=5 => Deal::Put { key, value },
        6 => Deal::Remove { key },
        7..=10 => Deal::Get { key },
        11 => Deal::Add { key, by: 1 },
        12 => Deal::Claim { key, value },
        13 => Deal::Scan {
            lo: key,
            hi: key + 15,
        },
        14 if has_snapshot => Deal::GetAt { key },
        14 => Deal::Snap,
        _ if has_snapshot => Deal::Close,
        _ => Deal::Scan {
            lo: 0,
            hi: keys - 1,
        },
    }
}

/// The value that is written by this word: one to eight words that rise from it on.
fn value_by(first: u64) -> Value
    ensures { result ≡ words_by first }
{
    let count = 1 + (first % 8) as usize;
    let words = [
        first,
        first.wrapping_add(1),
        first.wrapping_add(2),
        first.wrapping_add(3),
        first.wrapping_add(4),
        first.wrapping_add(5),
        first.wrapping_add(6),
        first.wrapping_add(7),
    ];
    match Value::new(&words[..count]) {
        Ok(value) => value,
        Err(_) => unreachable!(),
    }
}
