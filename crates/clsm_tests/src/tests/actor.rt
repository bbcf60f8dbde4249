//! An actor plays acts in a thread of its own, and keeps the records of its calls.
use super::act::{Act, Answer, Step, Write, read_as};
use super::drawn::{Load, Mix, after, draw, next};
use super::gate::Gates;
use clsm_model::Key;
use clsm_store::{
    Answer as Called, BatchError, Call, CallRecord, Caller, Change, Counted, Deed, Filled, Full,
    Got, Members, MergeError, Merger, Page, PageRange, Pages, ReclaimError, Rmw, Rows, Scan,
    Stopped, Swept, Time, TryBatchError, TryPutError, Value,
};
use std::alloc::Global;
use std::ops::Range;
use std::process::Abort;
use std::sync::Wait;
use std::thread;

/// The most calls by chance that an actor makes.
const ATTEMPTS: u64 = 20_000;

/// How often the merger tries to go on beside others, and how often it lets these go on before a
/// sweep.
const TRIES: u64 = 1_000_000;

const PAUSES: u64 = 100;

/// The rows of a page that is filled.
const FILLED: usize = 3;

/// A caller, and the merger, if it is this actor's.
#[derive(Drop)]
pub(super) struct Actor<'a> {
    pub(super) caller: Caller<'a, Gates>,
    pub(super) merger: Option<Merger<'a, Gates>>,
    pub(super) records: Vec<CallRecord>,
    /// What it drew last.
    pub(super) word: u64,
    /// Whether a call was refused memory.
    pub(super) refused: bool,
}

fn answer_of_merge(merged: &Result<u64, MergeError>) -> Answer {
    match merged {
        Ok(merges) => Answer::Merged(*merges),
        Err(MergeError::RunFull(_)) => Answer::RunFull,
        Err(MergeError::NotFrozen) => Answer::Other,
    }
}

fn answer_of_reclaim(reclaimed: &Result<(), ReclaimError>) -> Answer {
    match reclaimed {
        Ok(()) => Answer::Clean,
        Err(ReclaimError::Pinned(seat)) => Answer::Pinned(seat.0),
        Err(_) => Answer::Other,
    }
}

fn answer_of_stop(stopped: &Stopped) -> Answer {
    match stopped {
        Stopped::Pinned(seat) => Answer::Pinned(seat.0),
        Stopped::RunFull(_) => Answer::RunFull,
        Stopped::Worn(_) => Answer::Other,
    }
}

fn answer_of_sweep(swept: &Result<(), Stopped>) -> Answer {
    match swept {
        Ok(()) => Answer::Clean,
        Err(stopped) => answer_of_stop(stopped),
    }
}

fn answer_of_sweep_if(swept: &Result<Swept, Stopped>) -> Answer {
    match swept {
        Ok(Swept::Done) => Answer::Clean,
        Ok(Swept::Waited) => Answer::Waited,
        Err(stopped) => answer_of_stop(stopped),
    }
}

/// How the call is answered.
fn answer_of(answer: &Called) -> Answer {
    match answer {
        Called::Write(Ok(time))
        | Called::Try(Ok(time))
        | Called::Batch(Ok(time))
        | Called::Snapshot(Ok(time))
        | Called::Close(Some(time)) => Answer::At(*time),
        Called::Write(Err(full)) => Answer::Full(full.time),
        Called::Try(Err(refusal)) => Answer::Refused(*refusal),
        Called::Batch(Err(BatchError::Full { time })) => Answer::Full(*time),
        Called::Batch(Err(refusal)) => Answer::Unbatched(*refusal),
        Called::Read(got) | Called::ReadAt(Some(got)) => read_as(got.time, &got.value),
        Called::Scan(Ok(scan)) => Answer::Rows(scan.time, scan.rows.as_slice().len()),
        Called::Page(Ok(page)) => { Answer::Page(page.time, page.rows.as_slice().len(), page.more) }
        _ => Answer::NoMemory,
    }
}

pub(super) fn one_word(rt: &impl Abort, word: u64) -> Value {
    Value::new(&[word]).expect(rt, "one word")
}

fn eight_words(rt: &impl Abort) -> Value {
    Value::new(&[1, 2, 3, 4, 5, 6, 7, 8]).expect(rt, "eight words")
}

/// The member of a batch that the write is.
fn member_of(rt: &impl Abort, write: &Write) -> (u64, Change) {
    match *write {
        Write::Word(key, word) => (key, Change::Set(one_word(rt, word))),
        Write::Eight(key) => (key, Change::Set(eight_words(rt))),
        Write::Remove(key) => (key, Change::Remove),
        Write::Keep(key) => (key, Change::Keep),
    }
}

/// The members of a batch that the writes are.
pub(super) fn members_of(rt: &impl Abort, alloc: Global, writes: &[Write]) -> Members {
    let mut members = Vec::with_capacity(alloc, writes.len()).expect(rt, "memory");
    for write in writes {
        members.push(member_of(rt, write)).expect(rt, "memory");
    }
    Members::new(members)
}

/// A batch of these writes.
fn batch_of(rt: &impl Abort, alloc: Global, writes: &[Write]) -> Call {
    let members = members_of(rt, alloc, writes);
    Call::Batch { members }
}

/// The call that the act is. A change is none of these, nor is a read of many keys.
fn call_of(rt: &impl Abort, alloc: Global, act: &Act) -> Call {
    let hi = u64::MAX;
    match *act {
        Act::Put(key, word) => {
            let value = one_word(rt, word);
            Call::Put { key, value }
        }
        Act::PutEight(key) => {
            let value = eight_words(rt);
            Call::Put { key, value }
        }
        Act::TryPut(key, word) => {
            let value = one_word(rt, word);
            Call::Try { key, value }
        }
        Act::Remove(key) => Call::Remove { key },
        Act::Batch(writes) => batch_of(rt, alloc, writes),
        Act::BatchTwo(key, word) => {
            let next = key.wrapping_add(1);
            batch_of(
                rt,
                alloc,
                &[Write::Word(key, word), Write::Word(next, word)],
            )
        }
        Act::Get(key) => Call::Get { key },
        Act::GetAt(key) => Call::GetAt { key },
        Act::Scan(lo) => Call::Scan { lo, hi },
        Act::Page(from, rows) => {
            let max = rows as u64;
            Call::Page { from, hi, max }
        }
        Act::Snapshot => Call::Snap,
        Act::Close => Call::Close,
        _ => panic!(rt; "no call"),
    }
}

impl<'a> Actor<'a> {
    /// Keeps the record of a call.
    pub(super) fn keep(&mut self, rt: &impl Abort, time: Time, deed: Deed) {
        let record = self.caller.record_of(time, deed);
        self.records.push(record).expect(rt, "memory");
    }

    /// A change of the key's value, whose record is kept.
    fn change<R: Abort + Wait>(&mut self, rt: &R, key: Key) -> Answer {
        let Rmw { time, old, change } = match self.caller.rmw(rt, key, &|old| next(old)) {
            Ok(rmw) => rmw,
            Err(Full { time }) => return Answer::Full(time),
        };
        let answer = match &change {
            Change::Keep => read_as(time, &old),
            _ => Answer::At(time),
        };
        let record = self.caller.record_of(time, Deed::Rmw { key, old, change });
        self.records.push(record).expect(rt, "memory");
        answer
    }

    /// A batch that tries the lock once, whose record is kept.
    fn try_batch(&mut self, rt: &impl Abort, alloc: Global, writes: &[Write]) -> Answer {
        let members = members_of(rt, alloc, writes);
        let time = match self.caller.try_batch(members.as_slice()) {
            Ok(time) => time,
            Err(TryBatchError::Busy) => return Answer::Refused(TryPutError::Busy),
            Err(TryBatchError::Refused(BatchError::Full { time })) => return Answer::Full(time),
            Err(TryBatchError::Refused(refusal)) => return Answer::Unbatched(refusal),
        };
        let record = self.caller.record_of(time, Deed::Batch { members });
        self.records.push(record).expect(rt, "memory");
        Answer::At(time)
    }

    /// A call of the seat, whose record is kept.
    fn call<R: Abort + Wait>(&mut self, rt: &R, alloc: Global, act: &Act) -> Answer {
        if let Act::Change(key) = act {
            return self.change(rt, *key);
        }
        if let Act::GetMany(from, keys) = act {
            return self.get_many(rt, *from, *keys);
        }
        if let Act::GetManyAt(from, keys) = act {
            return self.get_many_at(rt, *from, *keys);
        }
        let call = call_of(rt, alloc, act);
        let called = self.caller.play(rt, alloc, &call);
        let answer = answer_of(&called);
        if let Some(record) = call.into_record(self.caller.seat.number(), called) {
            self.records.push(record).expect(rt, "memory");
        }
        answer
    }

    /// A command of the merger.
    fn command<R: Wait>(&mut self, rt: &R, act: &Act) -> Answer {
        let Some(merger) = self.merger.take() else {
            return Answer::Other;
        };
        let (merger, answer) = match act {
            Act::Freeze => {
                let (merger, frozen) = merger.freeze(rt);
                (merger, frozen.map_or(Answer::Other, Answer::Frozen))
            }
            Act::Merge => {
                let (merger, merged) = merger.merge();
                (merger, answer_of_merge(&merged))
            }
            Act::Reclaim => {
                let (merger, reclaimed) = merger.reclaim();
                (merger, answer_of_reclaim(&reclaimed))
            }
            Act::SweepIfUsed(used) => {
                let (merger, swept) = merger.sweep_if_used(rt, *used);
                (merger, answer_of_sweep_if(&swept))
            }
            _ => {
                let (merger, swept) = merger.sweep(rt);
                (merger, answer_of_sweep(&swept))
            }
        };
        self.merger = Some(merger);
        answer
    }

    /// Makes calls by chance until so many are answered. Where one is refused, other threads go on
    /// first.
    fn call_on<R: Abort + Wait>(&mut self, rt: &R, alloc: Global, load: &Load) -> Answer {
        let own = load.keys.wrapping_add(u64::from(self.caller.seat.number()));
        let before = self.records.len();
        for _ in 0..ATTEMPTS {
            if self.records.len() >= before.saturating_add(load.answers) {
                return Answer::Done;
            }
            self.word = after(self.word.wrapping_add(own));
            let reads_snapshot = self.caller.snapshot_time().is_some();
            let call = draw(load, self.word, own, reads_snapshot);
            if let Answer::Full(_) = self.call(rt, alloc, &call) {
                assert!(rt; matches!(load.mix, Mix::Changing));
                thread::yield_now();
            }
        }
        Answer::Other
    }

    /// Puts the words from the first on, at so many keys in turn.
    fn put_in_turn<R: Abort + Wait>(
        &mut self,
        rt: &R,
        alloc: Global,
        keys: u64,
        words: Range<u64>,
    ) -> Answer {
        for word in words {
            let key = word.checked_rem(keys).expect(rt, "a key");
            match self.call(rt, alloc, &Act::Put(key, word)) {
                Answer::At(_) => (),
                refused => return refused,
            }
        }
        Answer::Done
    }

    /// Gets each key of a scan, and scans again. The audit tells whether these are right.
    fn read_all<R: Abort + Wait>(&mut self, rt: &R, alloc: Global) -> Answer {
        let lo = 0;
        let scan = self.caller.scan(alloc, lo, u64::MAX).expect(rt, "memory");
        for row in scan.rows.as_slice() {
            self.call(rt, alloc, &Act::Get(row.0));
        }
        self.call(rt, alloc, &Act::Scan(lo));
        Answer::Done
    }

    /// Fills a page of the rows from the key on.
    fn fill_page(&mut self, rt: &impl Abort, alloc: Global, from: u64) {
        let (hi, max) = (u64::MAX, FILLED as u64);
        let mut page = [(0, Value::from(0)); FILLED];
        let Filled { time, rows, more } = self.caller.page_into(from, hi, &mut page);
        let mut found = Vec::new(alloc);
        found.extend_from_slice(&page[..rows]).expect(rt, "memory");
        let range = PageRange { from, hi, max };
        let rows = Rows::new(found);
        let record = self
            .caller
            .record_of(time, Deed::Page { range, rows, more });
        self.records.push(record).expect(rt, "memory");
    }

    /// Reads all pages from the key on, in turn: one that is refused memory once more. Answers how
    /// many there are.
    fn read_pages(&mut self, rt: &impl Abort, alloc: Global, from: u64, max: usize) -> Answer {
        self.fill_page(rt, alloc, from);
        let hi = u64::MAX;
        let mut pages = Pages::new(from, hi, max);
        let max = pages.max as u64;
        let mut read = 0_u64;
        for _ in 0..TRIES {
            let from = pages.next;
            let Ok(page) = self.caller.next_page(alloc, &mut pages) else {
                continue;
            };
            let (Some(from), Some(page)) = (from, page) else {
                return Answer::Count(read);
            };
            let Page { time, rows, more } = page;
            let range = PageRange { from, hi, max };
            let deed = Deed::Page { range, rows, more };
            let record = self.caller.record_of(time, deed);
            self.records.push(record).expect(rt, "memory");
            read = read.wrapping_add(1);
        }
        Answer::Other
    }

    /// Counts the keys from this one on. The count is recorded as a page of no rows.
    fn count(&mut self, rt: &impl Abort, alloc: Global, from: u64) -> Answer {
        let (hi, max) = (u64::MAX, 0);
        let Counted { time, keys, first } = self.caller.count(alloc, from, hi);
        let range = PageRange { from, hi, max };
        let (rows, more) = (Rows::new(Vec::new(alloc)), first);
        let deed = Deed::Page { range, rows, more };
        let record = self.caller.record_of(time, deed);
        self.records.push(record).expect(rt, "memory");
        Answer::Keys(time, keys)
    }

    /// Visits the keys from this one on. What was visited is kept as the record of a scan.
    fn visit(&mut self, rt: &impl Abort, alloc: Global, lo: Key) -> Answer {
        let hi = u64::MAX;
        let mut rows = Vec::new(alloc);
        let mut is_kept = true;
        let counted = self.caller.visit(
            alloc,
            lo,
            hi,
            &mut |key, value| is_kept = is_kept && rows.push((key, value)).is_ok(),
        );
        assert!(rt; is_kept && rows.len() as u64 == counted.keys);
        let answer = Answer::Rows(counted.time, rows.len());
        let rows = Rows::new(rows);
        let record = self
            .caller
            .record_of(counted.time, Deed::Scan { lo, hi, rows });
        self.records.push(record).expect(rt, "memory");
        answer
    }

    /// Scans the keys from this one on in the present. The scan is recorded as a read of that key.
    fn scan_now(&mut self, rt: &impl Abort, alloc: Global, lo: Key) -> Answer {
        let Ok(scan) = self.caller.scan_now(alloc, lo, u64::MAX) else {
            return Answer::NoMemory;
        };
        let rows = scan.rows.as_slice();
        let reply = match rows.first() {
            Some((key, value)) if *key == lo => Some(*value),
            _ => None,
        };
        let answer = Answer::Rows(scan.time, rows.len());
        let record = self
            .caller
            .record_of(scan.time, Deed::Get { key: lo, reply });
        self.records.push(record).expect(rt, "memory");
        answer
    }

    /// Sweeps so often, beside others. Answers how often it did.
    fn sweep_on<R: Wait>(&mut self, rt: &R, sweeps: u64) -> Answer {
        let mut swept = 0_u64;
        for round in 0..TRIES {
            if swept == sweeps {
                break;
            }
            thread::yield_now();
            if round % PAUSES > 0 {
                continue;
            }
            match self.command(rt, &Act::Sweep) {
                Answer::Clean => swept = swept.wrapping_add(1),
                Answer::Pinned(_) => (),
                _ => break,
            }
        }
        Answer::Count(swept)
    }

    /// Plays the acts of a case, each of which has to be answered so. At most one call may be
    /// refused memory.
    pub(super) fn play<R: Abort + Wait>(
        &mut self,
        rt: &R,
        alloc: Global,
        case: &str,
        steps: &[Step],
    ) {
        for (place, (act, expected)) in steps.iter().enumerate() {
            let gates = self.caller.store.pace();
            let answer = match act {
                Act::Freeze | Act::Merge | Act::Reclaim | Act::Sweep | Act::SweepIfUsed(_) => {
                    self.command(rt, act)
                }
                Act::TryBatch(writes) => self.try_batch(rt, alloc, writes),
                Act::BatchIf(demands, writes) => self.batch_if(rt, alloc, demands, writes),
                Act::TryBatchIf(demands, writes) => self.try_batch_if(rt, alloc, demands, writes),
                Act::Room => Answer::Count(self.caller.room()),
                Act::Count(lo) => self.count(rt, alloc, *lo),
                Act::Visit(lo) => self.visit(rt, alloc, *lo),
                Act::ScanNow(lo) => self.scan_now(rt, alloc, *lo),
                Act::Pages(from, max) => self.read_pages(rt, alloc, *from, *max),
                Act::Sweeps(sweeps) => self.sweep_on(rt, *sweeps),
                Act::Calls(mix, keys, answers) => {
                    let load = Load {
                        mix: *mix,
                        keys: *keys,
                        answers: *answers,
                    };
                    self.call_on(rt, alloc, &load)
                }
                Act::PutInTurn(keys, first, end) => {
                    self.put_in_turn(rt, alloc, *keys, *first..*end)
                }
                Act::ReadAll => self.read_all(rt, alloc),
                Act::First(turn) => gates.first.take_turn(turn),
                Act::Second(turn) => gates.second.take_turn(turn),
                _ => self.call(rt, alloc, act),
            };
            let is_refused = answer == Answer::NoMemory && !self.refused;
            self.refused = self.refused || is_refused;
            assert!(rt; is_refused || answer.is(expected), "{case}, act {place}");
        }
    }
}
