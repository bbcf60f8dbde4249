//! What pages ask for.
use crate::Key;

/// What a page asks for: the first `max` keys with `from <= key <= hi`.
#[derive(Clone, Copy, PartialEq, Eq, Hash, Debug)]
pub struct PageRange {
    pub from: u64,
    pub hi: Key,
    pub max: u64,
}
