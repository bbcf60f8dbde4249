//! The store that threads share.
use clsm_words::{Pace, Words};
use std::marker::Model;

/// A store, which threads share by reference. Contracts see which one it is, and its sizes.
#[derive(Drop)]
pub struct Store<P: Pace> {
    pub(crate) words: Words<P>,
}

impl<P: Pace> Model for Store<P> {
    ghost use Rattle.clsm_store_calls.specs.Seats.{StoreId};
    ghost use Rattle.clsm_store_calls.specs.Resting.{store_of};

    ghost Value = { StoreId };

    ghost view = { λ s. store_of s.words };
}

impl<P: Pace> Store<P> {
    /// The pace that the store was opened with.
    #[inline]
    pub fn pace(&self) -> &P {
        self.words.pace()
    }
}
