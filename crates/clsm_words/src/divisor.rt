//! Divisions by the sizes of a store, which are mostly powers of two.
ghost use Rattle.std.specs.Prelude.{◌≡◌, ℕ, ◌+◌, ◌-◌, ◌*◌, ◌/◌, ◌^◌, ◌%◌, ◌<◌, ◌≤◌, ◌==◌};

use clsm_law::Layout;
use std::marker::Model;

/// A number by which others are divided: by a mask, where it is a power of two, and otherwise by a
/// multiplication, which takes a third of the time of a division. Contracts see it as that number.
#[derive(Drop)]
pub struct Divisor {
    by: u64,
    /// Its logarithm, rounded down.
    bits: u32,
    /// It is 2 to that power.
    has_mask: bool,
    /// 2^64 - 1, divided by it and rounded down.
    reciprocal: u64,
}

impl Model for Divisor {
    ghost Value = { ℕ };

    ghost view = { λ d. d.by };

    ghost invariant = { λ d. (0 < d.by) × (d.has_mask ≡ (d.by == 2 ^ d.bits)) × (d.reciprocal ≡ (2 ^ 64 - 1) / d.by) };
}

impl Divisor {
    /// The number, tested once.
    fn new(by: u64) -> Divisor
        requires { 0 < by }
        ensures { result ≡ by }
    {
        let bits = by.ilog2();
        Divisor {
            by,
            bits,
            has_mask: by == 1 << bits,
            reciprocal: u64::MAX / by,
        }
    }

    /// What is left of the number.
    #[inline(always)]
    #[tactic(auto, using(crate::proofs::Masks::masked))]
    pub(crate) fn rest(&self, number: u64) -> u64
        ensures { result ≡ number % self.now }
    {
        if self.has_mask {
            return number & (self.by - 1);
        }
        let rest = number - self.quotient(number) * self.by;
        if rest < self.by { rest } else { rest - self.by }
    }

    /// The number divided by it and rounded down, or one less.
    #[inline(always)]
    fn quotient(&self, number: u64) -> u64
        ensures fits { result * self.now ≤ number }
        ensures near { number < result * self.now + 2 * self.now }
    {
        let product = number as u128 * self.reciprocal as u128;
        (product >> 64) as u64
    }
}

/// The numbers by which times, cells and keys are divided.
#[derive(Drop)]
pub struct Divisors {
    /// The cells of one region.
    pub(crate) region: Divisor,
    /// The cells of both.
    pub(crate) ring: Divisor,
    /// The chains of one region.
    pub(crate) chains: Divisor,
}

impl Divisors {
    /// Those of the layout.
    pub(crate) fn of(layout: &Layout) -> Divisors
        ensures region { result.region ≡ layout.now.cells }
        ensures ring { result.ring ≡ 2 * layout.now.cells }
        ensures chains { result.chains ≡ layout.now.chains }
    {
        Divisors {
            region: Divisor::new(layout.cells),
            ring: Divisor::new(2 * layout.cells),
            chains: Divisor::new(layout.chains),
        }
    }
}
