//! What a seat at the words knows, as contracts and proofs see it.
use clsm_law::{Layout, MergerView, View};
use clsm_model::{Batch, Key, Slot, Time};
use std::collections::LinkedList;

/// A place of an ordered list, a cell plus 1, with the key of its cell.
#[derive(Clone, Copy, PartialEq, Eq, Debug)]
pub struct Spot {
    pub place: u64,
    pub key: Key,
}

/// What a seat at the words knows. No value of it is made.
pub struct Known {
    /// True for a caller's seat, and true for the merger's; neither for one that only carries what
    /// another knew.
    pub seated: bool,
    pub merges: bool,
    pub number: u64,
    /// How many callers' seats the merger's has dealt.
    pub dealt: u64,
    pub layout: Layout,
    pub view: View,
    /// What the merger's seat has in place of a caller's view.
    pub merger: MergerView,
    /// The words as its last step left them.
    pub row: LinkedList<u64>,
    /// The times still to walk of the chain whose head it looked at last, and which chain that is.
    pub trail: LinkedList<Time>,
    pub region: u64,
    pub chain: u64,
    /// The places of the ordered lists that it met while it holds its component.
    pub spots: LinkedList<Spot>,
    /// The places of the ordered list that its drawn cell belongs to, as its last step left them.
    pub order: LinkedList<u64>,
    /// The floor that the runs of the component that it holds were merged with.
    pub floor: Time,
    /// What each time below the view's past came to, and the batches that begin below it.
    pub past: LinkedList<Slot>,
    pub batches: LinkedList<Batch>,
    /// A beginning of the history that another seat told this one: what its times came to, and
    /// its batches.
    pub told: LinkedList<Slot>,
    pub told_batches: LinkedList<Batch>,
    /// The greatest due that other seats told this one.
    pub heard: Time,
}
