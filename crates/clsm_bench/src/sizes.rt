//! How much is measured for a line, and how large its store is.
use crate::calls::Round;
use crate::draws::{NEW_KEYS, Series};
use crate::lines::Beside::Scanner;
use crate::lines::Filling::Epoch;
use crate::lines::Line;
use crate::lines::Role::*;
use crate::mixes::Mix::{FewKeys, WholeScans};
use crate::options::Options;
use clsm_store::Config;

/// The most entries that a run has room for.
const MOST_ENTRIES: u32 = 4_194_304;

/// The rows that a thread scans or pages through at most in one round, but for those of a single
/// call.
const MOST_ROWS: u32 = 200_000;

/// The keys of a mix of few.
const FEW_KEYS: u32 = 64;

/// A line's work, by so many threads.
#[derive(Clone, Copy)]
pub struct Work<'a> {
    pub line: &'a Line,
    pub options: &'a Options,
    pub threads: u32,
}

impl Line {
    /// The options, with as many keys and cells as the line has at most.
    pub fn limit(&self, options: &Options) -> Options {
        let (keys, cells) = match &self.role {
            Several(FewKeys(cells), _) => (FEW_KEYS, *cells),
            Several(WholeScans(keys), _) => (*keys, u32::MAX),
            _ => (u32::MAX, u32::MAX),
        };
        Options {
            keys: options.keys.min(keys),
            cells: options.cells.min(cells),
            ..*options
        }
    }

    /// The keys that are written before the time is taken.
    pub fn filled(&self, options: &Options) -> u32 {
        match (&self.role, &self.filling) {
            (Puts | RisingPuts | Batches(_) | HotBatches(_), Epoch) => 0,
            (Mixed | HotMixed | OnePuts, Epoch) => options.keys.min(options.cells / 2),
            (_, Epoch) => options.keys.min(options.cells),
            _ => options.keys,
        }
    }
}

impl Work<'_> {
    /// The cells of an epoch that each thread may use.
    fn room(&self) -> u32 {
        self.options.cells / self.threads.max(1)
    }

    /// How many members a batch has: as many as the line says, where the thread's part of an epoch
    /// has room for them.
    pub fn members(&self) -> u32 {
        match &self.line.role {
            Batches(size) | HotBatches(size) => self.room().min(*size).max(1),
            _ => 1,
        }
    }

    /// The writes of the batches of each thread: as many as the options say at most, but for those
    /// of a single batch.
    fn writes(&self) -> u32 {
        let members = self.members().max(1);
        let batches = self.options.calls.min(self.room()) / members;
        batches.max(1).saturating_mul(members)
    }

    /// The calls for which each thread has room, as many as the options say at most: in one epoch,
    /// but for reads and beside a merger. Where others get or scan, or what is put has a value,
    /// half of the times that are left are for puts: a reader may cancel one, and the put then
    /// takes another.
    fn calls(&self, is_merged: bool) -> u32 {
        let options = self.options;
        let room = match &self.line.role {
            Several(mix, _) => return mix.calls(options, self.threads),
            _ if is_merged => options.calls,
            Batches(_) | HotBatches(_) => return self.writes(),
            Scans(rows) | Pages(rows) => {
                let rows = options.keys.min(*rows);
                (MOST_ROWS / rows.max(1)).max(1)
            }
            OnePuts => options.cells / 4,
            Puts if matches!(self.line.beside, Scanner) => self.room() / 4,
            Puts | RisingPuts => self.room(),
            Mixed | HotMixed => self.room() / 4,
            _ => options.calls,
        };
        options.calls.min(room)
    }

    /// What all threads share: of the series each makes the calls for which it has room.
    pub fn round<'a>(&self, series: &'a Series<'a>, is_merged: bool) -> Round<'a> {
        Round::new(series, self.calls(is_merged), self.threads)
    }

    /// The sizes of a store, with one more seat than there are threads. A run has room for the
    /// filled keys, and beside a merger also for the new keys of the threads, and four epochs.
    pub fn sizes(&self, is_merged: bool) -> Config {
        let Work {
            line,
            options,
            threads,
        } = *self;
        let mut run = line.filled(options);
        if is_merged {
            let new = threads.saturating_mul(options.calls.min(NEW_KEYS));
            let epochs = options.cells.saturating_mul(4);
            run = run.saturating_add(new).saturating_add(epochs);
        }
        Config {
            cells: options.cells as usize,
            seats: threads.saturating_add(1) as usize,
            shards: 1,
            run: run.clamp(4, MOST_ENTRIES) as usize,
            patience: 16,
        }
    }
}
