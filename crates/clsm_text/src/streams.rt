//! The streams of a program.

/// The streams of a program: what it reads, what it writes, and where it says why it does not end
/// well.
#[derive(Drop)]
pub struct Streams<R, W, E> {
    pub input: R,
    pub output: W,
    pub faults: E,
}
