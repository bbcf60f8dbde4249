//! Mixes of calls of several kinds, and how their keys are drawn.
use crate::options::Options;
use rand_core::utils::NextWord;
use rand_pcg::Pcg32;
use std::alloc::{AllocError, Global};
use std::num::saturating_f64_to_u64;

/// The most calls that a thread makes in one round, as they are all drawn before.
const MOST_DRAWN: u32 = 1 << 20;

/// The most where scans are of all keys.
const MOST_WITH_ALL: u32 = 2_000;

/// The rows of a scan or page of some keys.
const SOME_ROWS: u32 = 16;

/// The exponent of Zipf's law.
const EXPONENT: f64 = 0.99;

/// The weight of the first rank.
const FIRST_WEIGHT: f64 = 1_099_511_627_776.0;

/// A prime above the most keys, by which ranks are scattered over keys.
const SCATTER: u64 = 2_654_435_761;

/// How often each of the filled keys is drawn.
pub enum Draw {
    /// Each as often.
    Uniform,
    /// By Zipf's law: the key of rank r by the weight 1 / r^0.99.
    Zipf,
    /// One of them always.
    One,
}

/// Calls of several kinds, by their shares in a hundred.
pub enum Mix {
    /// Scans of 16 rows.
    Scans,
    /// 95 scans of 16 rows, 5 puts at filled keys.
    ScansAndPuts,
    /// 95 pages of 16 rows, 5 puts at keys that had no value.
    PagesAndInserts,
    /// 95 gets, 5 puts at filled keys.
    MostlyGets,
    /// 50 gets, 50 puts at filled keys.
    GetsAndPuts,
    /// Of a few keys 40 gets, 40 puts, 10 changes and 10 scans of 16 rows. The store has so many
    /// cells at most.
    FewKeys(u32),
    /// The same shares, of so many keys at most; the scans are of all of them.
    WholeScans(u32),
    /// Puts at filled keys, epoch after epoch.
    Sustained,
}

/// The kind of a call.
pub enum Kind {
    Get,
    /// A put at a filled key, or at one that had no value.
    Put,
    Insert,
    Change,
    Scan,
    Page,
}

impl Mix {
    /// The kind of the calls with this number of a hundred.
    pub fn kind(&self, number: u32) -> Kind {
        match (self, number) {
            (Mix::Scans, _) | (Mix::ScansAndPuts, 0..95) => Kind::Scan,
            (Mix::FewKeys(_) | Mix::WholeScans(_), 0..10) => Kind::Scan,
            (Mix::PagesAndInserts, 0..95) => Kind::Page,
            (Mix::MostlyGets, 0..95) => Kind::Get,
            (Mix::GetsAndPuts, 0..50) => Kind::Get,
            (Mix::FewKeys(_) | Mix::WholeScans(_), 10..50) => Kind::Get,
            (Mix::FewKeys(_) | Mix::WholeScans(_), 50..60) => Kind::Change,
            (Mix::PagesAndInserts, _) => Kind::Insert,
            _ => Kind::Put,
        }
    }

    /// The rows of a scan or page, of all keys where they are fewer.
    pub fn rows(&self) -> u32 {
        match self {
            Mix::WholeScans(_) => u32::MAX,
            _ => SOME_ROWS,
        }
    }

    /// The calls of each of so many threads.
    pub fn calls(&self, options: &Options, threads: u32) -> u32 {
        let calls = match (self, options.puts) {
            (Mix::Sustained, Some(puts)) => puts / threads.max(1),
            (Mix::WholeScans(_), _) => options.calls.min(MOST_WITH_ALL),
            _ => options.calls,
        };
        calls.min(MOST_DRAWN)
    }
}

/// A number below the bound, each about as often; 0 if there is none.
#[inline]
pub fn below(bound: u32, word: u32) -> u32 {
    let wide = u64::from(word).wrapping_mul(u64::from(bound)) >> 32;
    u32::try_from(wide).unwrap_or(0)
}

/// How the filled keys are drawn: of so many each as often, or by their ranks, where it has the
/// sums of the weights of all ranks up to each.
#[derive(Drop)]
pub struct Ranks {
    keys: u32,
    sums: Vec<u64>,
}

impl Ranks {
    pub fn new(alloc: Global, draw: &Draw, keys: u32) -> Result<Ranks, AllocError> {
        let (keys, ranked) = match draw {
            Draw::Uniform => (keys, 0),
            Draw::Zipf => (keys, keys),
            Draw::One => (keys.min(1), 0),
        };
        let mut sums = Vec::new(alloc);
        let mut sum = 0_u64;
        for rank in 1..=ranked {
            let weight = FIRST_WEIGHT / f64::from(rank).powf(EXPONENT);
            sum = sum.saturating_add(saturating_f64_to_u64(weight));
            sums.push(sum)?;
        }
        Ok(Ranks { keys, sums })
    }

    /// The index of a key.
    pub fn draw(&self, words: &mut Pcg32) -> u32 {
        let word = words.next_word();
        let Some(total) = self.sums.last() else {
            return below(self.keys, word);
        };
        let wide = u128::from(*total).wrapping_mul(u128::from(word)) >> 32;
        let point = u64::try_from(wide).unwrap_or(0);
        let rank = self.sums.partition_point(|sum| *sum <= point) as u64;
        let index = rank.wrapping_mul(SCATTER) % u64::from(self.keys.max(1));
        u32::try_from(index).unwrap_or(0)
    }
}
