//! What a command line can ask for: one of four commands, with its options.
use clsm_model::Config;
use clsm_workload::Shows;

/// What the program is asked to do.
#[derive(PartialEq, Eq, Debug, Drop)]
pub enum Options {
    /// `clsm script`: the commands of the standard input, at a store of these sizes.
    Script(Config),
    /// `clsm run`: calls by threads.
    Run(RunOptions),
    /// `clsm audit`: the records of the standard input.
    Audit(AuditOptions),
    /// `clsm explore`: every order of the steps of scripts.
    Explore(ExploreOptions),
}

/// The options of `clsm run`.
#[derive(Clone, Copy, PartialEq, Eq, Debug)]
pub struct RunOptions {
    /// The sizes of the store. The seats are the threads: 1 to 64.
    pub config: Config,
    /// The calls of each thread: 0 to 1,000,000.
    pub ops: u64,
    /// The keys that they are of: 1 to 1,000,000.
    pub keys: u64,
    /// What the calls are drawn from.
    pub seed: u64,
    /// `--batch`: batches are among the calls.
    pub batch: bool,
    /// `--many`: reads of several keys at one time are.
    pub many: bool,
    /// `--swap`: batches with conditions are, which exchange what two keys have.
    pub swap: bool,
    /// `--wait`: a write waits for room.
    pub wait: bool,
    /// `--stats`, `--progress`, `--records` and `--clock`.
    pub shows: Shows,
}

/// The options of `clsm audit`.
#[derive(Clone, Copy, PartialEq, Eq, Debug)]
pub struct AuditOptions {
    /// The seats that records may be of.
    pub seats: usize,
    /// The cells of a region of the store that they were made at.
    pub cells: usize,
    /// `--order`
    pub order: bool,
    /// `--history`
    pub history: bool,
}

/// The options of `clsm explore`.
#[derive(PartialEq, Eq, Debug, Drop)]
pub struct ExploreOptions {
    /// As in `Config`.
    pub cells: usize,
    /// As in `Config`.
    pub shards: usize,
    /// As in `Config`.
    pub patience: usize,
    /// `--merge`
    pub merge: bool,
    /// How many worlds there may be: 1 to 4,000,000.
    pub limit: usize,
    /// `--answers`
    pub answers: bool,
    /// `--schedule`
    pub schedule: bool,
    /// `--count`
    pub count: bool,
    /// `--progress`
    pub progress: bool,
    /// The scripts, one to three.
    pub scripts: Vec<String>,
}
