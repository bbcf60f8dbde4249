//! What a run is asked for: how much its workers do, and what it shows.
ghost use Rattle.std.specs.Prelude.{◌≤◌};

use clsm_model::Config;

/// How much a run asks of each of its workers.
#[derive(Clone, Copy, Debug)]
pub struct Load {
    /// The turns that it takes, each of which is a call, or an exchange.
    pub ops: u32,
    /// The number of keys, 1 to 1,000,000: its calls are of keys below it.
    pub keys: u64,
    /// What its calls are drawn by, beside its own number.
    pub seed: u64,
    /// Whether batches are among its calls.
    pub batch: bool,
    /// Whether reads of several keys at one time are.
    pub many: bool,
    /// Whether exchanges of what two keys have are: batches with conditions.
    pub swap: bool,
    pub ghost some_keys: { 1 ≤ keys },
    pub ghost not_too_many_keys: { keys ≤ 1000000 },
}

/// What a run shows beside its verdict.
#[derive(Clone, Copy, Debug, PartialEq, Eq)]
pub struct Shows {
    /// How many calls of each kind a second, their times, the refusals, and what the store tells
    /// of itself, at the end.
    pub stats: bool,
    /// One line that moves while it runs.
    pub progress: bool,
    /// Each record, in place of the verdict.
    pub records: bool,
    /// Behind each record the moments of its call.
    pub clock: bool,
}

/// What a run is asked for: the sizes of its store, how much each of its workers does, whether a
/// write waits for room or is refused without, and what it shows.
#[derive(Clone, Copy, Debug)]
pub struct AskedRun {
    pub config: Config,
    pub load: Load,
    pub waits: bool,
    pub shows: Shows,
}
