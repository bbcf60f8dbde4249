//! What the checks of two threads share: the sizes of their store, and what the one puts.
use clsm_model::Key;
use clsm_store::{Config, Value};

/// There is a seat for each thread.
pub(crate) const SIZES: Config = Config {
    cells: 64,
    seats: 2,
    shards: 1,
    run: 64,
    patience: 2,
};

/// What is put: the value, and its key.
#[derive(Clone, Copy)]
pub struct Write {
    pub key: Key,
    pub value: Value,
}
