//! The sizes by which all rows are played.
use clsm_model::Config;

/// The sizes of the store and of the machine.
pub(crate) const SIZES: Config = Config {
    cells: 4,
    seats: 2,
    shards: 3,
    run: 4,
    patience: 0,
};
