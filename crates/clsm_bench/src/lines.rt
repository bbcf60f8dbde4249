//! The lines that are printed, by their series, and what is measured for each.
use crate::lines::Beside::{Batcher, Merger, Nothing, Scanner, Session};
use crate::lines::Filling::{BothEpochs, Epoch, HalfEpoch, Runs};
use crate::lines::Role::*;
use crate::mixes::Draw::{self, One, Uniform, Zipf};
use crate::mixes::Mix::{
    self, FewKeys, GetsAndPuts, MostlyGets, PagesAndInserts, ScansAndPuts, Sustained, WholeScans,
};

/// What is measured.
pub enum Role {
    /// Gets of the filled keys, each as often.
    Gets,
    /// The same, nine times in ten of one of a few.
    HotGets,
    /// Gets of keys that nothing was put at.
    AbsentGets,
    /// Puts at keys that had no value, each far from the one before.
    Puts,
    /// The same, each the next one above the one before.
    RisingPuts,
    /// The first thread puts at keys that had no value, the others get.
    OnePuts,
    /// Batches of so many writes beside as many puts: at keys that had no value, or each at one of
    /// a few.
    Batches(u32),
    HotBatches(u32),
    /// Nine calls in ten are gets, the others puts at filled keys.
    Mixed,
    HotMixed,
    /// Calls of several kinds, with their filled keys drawn so.
    Several(Mix, Draw),
    /// Scans of a range that has so many keys, or of all keys if they are fewer.
    Scans(u32),
    /// Pages of so many rows, or of all keys if they are fewer. A page of one row is a seek.
    Pages(u32),
    /// The last of so many merges under no snapshot, beside one under an old one. The first merge
    /// is into level 0, the fourth into level 1.
    Merges(u32),
    /// A freeze beside a reclaim.
    Freeze,
    /// An audit of all records, beside one of the first tenth.
    Audit,
}

/// Where the filled keys are.
pub enum Filling {
    /// In the epoch, and nothing was merged.
    Epoch,
    /// In a run of level 1.
    Runs,
    /// In a run of level 1, and half an epoch of writes at the same keys.
    HalfEpoch,
    /// In a run of level 1, and a frozen epoch and half a new one of writes at the same keys.
    BothEpochs,
}

/// What goes on beside the calls.
pub enum Beside {
    Nothing,
    /// The merger sweeps again and again.
    Merger,
    /// The merger of a session, whose callers make the calls: it sweeps when half of the epoch is
    /// used.
    Session,
    /// A seat scans all keys again and again.
    Scanner,
    /// A seat writes batches of 16 at a few of the filled keys again and again, and merges where
    /// there is no time for one.
    Batcher,
}

/// A line that is printed.
pub struct Line {
    /// The series that it is of.
    pub series: &'static str,
    pub name: &'static str,
    /// The fewest and the most threads that are measured.
    pub fewest: u32,
    pub most: u32,
    /// What the threads do.
    pub role: Role,
    /// Where the filled keys are.
    pub filling: Filling,
    /// What goes on beside the threads.
    pub beside: Beside,
}

/// One of the two ways in which a line's work is done.
#[derive(Clone, Copy, PartialEq, Eq)]
pub enum Way {
    First,
    Second,
}

/// All filled keys.
const ALL: u32 = u32::MAX;

/// The line of a series, by its name, its numbers of threads, what they do, where the filled keys
/// are, and what goes on beside the threads.
macro_rules! line {
    ($series:expr, $name:expr; $fewest:expr, $most:expr; $role:expr, $filling:expr, $beside:expr) => {
        Line {
            series: $series,
            name: $name,
            fewest: $fewest,
            most: $most,
            role: $role,
            filling: $filling,
            beside: $beside,
        }
    };
}

/// The lines of writes and merges, of mixes, and of what goes on beside others.
const LINES: [Line; 39] = [
    line!("calls", "puts scattered"; 1, 4; Puts, Epoch, Nothing),
    line!("calls", "puts rising"; 1, 4; RisingPuts, Epoch, Nothing),
    line!("calls", "one puts epoch"; 2, 4; OnePuts, Epoch, Nothing),
    line!("calls", "one puts runs"; 2, 4; OnePuts, Runs, Nothing),
    line!("calls", "mixed epoch"; 1, 4; Mixed, Epoch, Nothing),
    line!("calls", "mixed hot epoch"; 1, 4; HotMixed, Epoch, Nothing),
    line!("mixes", "scans of 16"; 1, 4; Several(Mix::Scans, Uniform), HalfEpoch, Session),
    line!("mixes", "scans 95, puts 5"; 1, 4; Several(ScansAndPuts, Uniform), HalfEpoch, Session),
    line!("mixes", "pages 95, inserts 5"; 1, 4; Several(PagesAndInserts, Uniform), HalfEpoch, Session),
    line!("mixes", "gets 95, puts 5, uniform"; 1, 4; Several(MostlyGets, Uniform), HalfEpoch, Session),
    line!("mixes", "gets 95, puts 5, Zipf"; 1, 4; Several(MostlyGets, Zipf), HalfEpoch, Session),
    line!("mixes", "gets 50, puts 50, uniform"; 1, 4; Several(GetsAndPuts, Uniform), HalfEpoch, Session),
    line!("mixes", "gets 50, puts 50, Zipf"; 1, 4; Several(GetsAndPuts, Zipf), HalfEpoch, Session),
    line!("mixes", "gets 50, puts 50, one key"; 1, 4; Several(GetsAndPuts, One), HalfEpoch, Session),
    line!("mixes", "all calls, 64 keys, 65,536 cells"; 1, 4; Several(FewKeys(65_536), Uniform), HalfEpoch, Session),
    line!("mixes", "all calls, 64 keys, 4,096 cells"; 1, 4; Several(FewKeys(4_096), Uniform), HalfEpoch, Session),
    line!("mixes", "all calls, 10,000 keys, whole scans"; 1, 4; Several(WholeScans(10_000), Uniform), HalfEpoch, Session),
    line!("mixes", "puts sustained, uniform"; 1, 4; Several(Sustained, Uniform), HalfEpoch, Session),
    line!("mixes", "puts sustained, Zipf"; 1, 4; Several(Sustained, Zipf), HalfEpoch, Session),
    line!("beside", "gets runs, merger"; 1, 4; Gets, Runs, Merger),
    line!("beside", "puts, merger"; 1, 4; Puts, Epoch, Merger),
    line!("beside", "one puts runs, merger"; 2, 4; OnePuts, Runs, Merger),
    line!("beside", "gets runs, scans"; 1, 4; Gets, Runs, Scanner),
    line!("beside", "puts runs, scans"; 1, 4; Puts, Runs, Scanner),
    line!("batches", "batches of 1, new keys"; 1, 4; Batches(1), Epoch, Nothing),
    line!("batches", "batches of 1, hot keys"; 1, 4; HotBatches(1), Epoch, Nothing),
    line!("batches", "batches of 4, new keys"; 1, 4; Batches(4), Epoch, Nothing),
    line!("batches", "batches of 4, hot keys"; 1, 4; HotBatches(4), Epoch, Nothing),
    line!("batches", "batches of 16, new keys"; 1, 4; Batches(16), Epoch, Nothing),
    line!("batches", "batches of 16, hot keys"; 1, 4; HotBatches(16), Epoch, Nothing),
    line!("batches", "batches of 256, new keys"; 1, 4; Batches(256), Epoch, Nothing),
    line!("batches", "batches of 256, hot keys"; 1, 4; HotBatches(256), Epoch, Nothing),
    line!("batches", "batches of 65,536, new keys"; 1, 4; Batches(65_536), Epoch, Nothing),
    line!("batches", "batches of 65,536, hot keys"; 1, 4; HotBatches(65_536), Epoch, Nothing),
    line!("batches", "gets runs, batches"; 1, 4; Gets, Runs, Batcher),
    line!("batches", "gets hot runs, batches"; 1, 4; HotGets, Runs, Batcher),
    line!("merges", "merge into level 0, under a snapshot"; 1, 1; Merges(1), Epoch, Nothing),
    line!("merges", "merge into level 1, under a snapshot"; 1, 1; Merges(4), Epoch, Nothing),
    line!("merges", "freeze, reclaim"; 1, 1; Freeze, Epoch, Nothing),
];

/// Gets of keys of each kind, where the filled keys are there.
macro_rules! gets {
    ($place:literal, $filling:expr) => {
        &[
            line!("calls", concat!("gets present ", $place); 1, 4; Gets, $filling, Nothing),
            line!("calls", concat!("gets hot ", $place); 1, 4; HotGets, $filling, Nothing),
            line!("calls", concat!("gets absent ", $place); 1, 4; AbsentGets, $filling, Nothing),
        ]
    };
}

/// Reads of one row, of 16, of 1,000 and of all, where the filled keys are there: by so many threads
/// at most, and by one thread where they are of more than 16.
macro_rules! scans {
    ($most:expr, $place:literal, $filling:expr) => {
        &[
            line!("scans", concat!("page of 1, ", $place); 1, $most; Pages(1), $filling, Nothing),
            line!("scans", concat!("scan of 16, ", $place); 1, $most; Scans(16), $filling, Nothing),
            line!("scans", concat!("page of 16, ", $place); 1, $most; Pages(16), $filling, Nothing),
            line!("scans", concat!("scan of 1,000, ", $place); 1, 1; Scans(1_000), $filling, Nothing),
            line!("scans", concat!("scan of all, ", $place); 1, 1; Scans(ALL), $filling, Nothing),
        ]
    };
}

/// All lines, in the order in which they are printed.
pub const TABLES: [&[Line]; 8] = [
    gets!("epoch", Epoch),
    gets!("runs", Runs),
    &LINES,
    scans!(4, "epoch", Epoch),
    scans!(1, "runs", Runs),
    scans!(1, "half an epoch", HalfEpoch),
    scans!(1, "both epochs", BothEpochs),
    &[line!("audit", "audit of all and of a tenth"; 1, 1; Audit, Epoch, Nothing)],
];
