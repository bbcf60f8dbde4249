//! The operations on a word.
/// An operation on a word.
#[derive(Clone, Copy)]
pub enum Operation {
    Load,
    Store(u64),
    Subtract(u64),
    Raise(u64),
    /// From the first word to the second.
    Exchange(u64, u64),
}
