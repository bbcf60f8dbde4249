//! Which keys are called.
use crate::lines::{Filling, Line, Role};
use crate::mixes::{Draw, Kind, Mix, Ranks, below};
use crate::sizes::Work;
use clsm_model::Key;
use rand_core::utils::NextWord;
use rand_pcg::Pcg32;
use std::alloc::{AllocError, Global};

/// The number that stands for a thread in the keys that are filled: no thread has it.
pub const FILLER: u32 = 64;

/// The number that stands for a thread in keys that nothing is put at.
const NOBODY: u32 = 65;

/// The new keys of one thread, which it puts at again and again.
pub const NEW_KEYS: u32 = 65_536;

/// The keys at one of which nine in ten calls of a hot draw are.
const HOT: u32 = 16;

/// A call, and what is to be answered.
#[derive(Clone, Copy)]
pub enum Call {
    Put { key: Key, word: u64 },
    /// Adds one to the second word of the value, which counts as 0 where there is none.
    Change { key: Key },
    Get { key: Key, word: Option<u64> },
    Scan { lo: Key, hi: Key, rows: usize },
    Page { from: u64, rows: usize },
}

/// What all threads of a measurement call: so many keys are filled, which are there by rising size
/// too where they are scanned. With members, the puts are made so many at once, as a batch.
#[derive(Drop)]
pub struct Series<'a> {
    role: &'a Role,
    filling: &'a Filling,
    pub keys: u32,
    pub cells: u32,
    sorted: Vec<u64>,
    ranks: Ranks,
    pub members: Option<u32>,
}

/// The puts that make a filling.
#[derive(Clone, Copy)]
pub struct Puts {
    /// The epochs that are filled and merged.
    pub merges: u32,
    /// The keys that are put at then, before a freeze.
    pub frozen: u32,
    /// The keys that are put at behind it.
    pub last: u32,
}

/// The calls of one thread. Those of a mix are drawn before the time is taken.
#[derive(Drop)]
pub struct Draws<'a> {
    series: &'a Series<'a>,
    number: u32,
    words: Pcg32,
    drawn: Vec<Call>,
}

/// The key of a thread's write of this index: no other number or index has it, and near indices
/// have keys that are far apart.
#[inline]
pub fn key_of(number: u32, index: u32) -> u64 {
    let number = (u64::from(number) << 32) | u64::from(index);
    number.wrapping_mul(0x9e37_79b9_7f4a_7c15).rotate_right(32)
}

/// So many filled keys, by rising size.
fn sorted_keys(alloc: Global, keys: u32) -> Result<Vec<u64>, AllocError> {
    let mut sorted = Vec::new(alloc);
    for index in 0..keys {
        sorted.push(key_of(FILLER, index))?;
    }
    sorted.sort()?;
    Ok(sorted)
}

impl<'a> Series<'a> {
    pub fn new(alloc: Global, work: &Work<'a>) -> Result<Series<'a>, AllocError> {
        let Line { role, filling, .. } = work.line;
        let keys = work.line.filled(work.options);
        let sorted = match role {
            Role::Scans(_) | Role::Pages(_) | Role::Several(..) => sorted_keys(alloc, keys)?,
            _ => Vec::new(alloc),
        };
        let draw = match role {
            Role::Several(_, draw) => draw,
            _ => &Draw::Uniform,
        };
        Ok(Series {
            role,
            filling,
            keys,
            cells: work.options.cells,
            sorted,
            ranks: Ranks::new(alloc, draw, keys)?,
            members: None,
        })
    }

    /// The puts that make the filling.
    pub fn puts(&self) -> Puts {
        let cells = self.cells;
        let merges = self.keys.div_ceil(cells.max(1));
        let merges = merges.div_ceil(4).saturating_mul(4);
        let (merges, frozen, last) = match self.filling {
            Filling::Epoch => (0, 0, self.keys),
            Filling::Runs => (merges, 0, 0),
            Filling::HalfEpoch => (merges, 0, cells / 2),
            Filling::BothEpochs => (merges, cells, cells / 2),
        };
        Puts {
            merges,
            frozen,
            last,
        }
    }

    /// A scan or page of so many filled keys, all of them at most, from one of them on.
    fn range(&self, word: u32, rows: u32, is_page: bool) -> Call {
        let rows = self.sorted.len().min(rows as usize);
        let starts = (self.sorted.len() - rows).saturating_add(1);
        let first = below(u32::try_from(starts).unwrap_or(0), word) as usize;
        let part = self.sorted.get(first..).unwrap_or(&[]);
        let lo = *part.first().unwrap_or(&0);
        let hi = *part.get(rows.saturating_sub(1)).unwrap_or(&0);
        match is_page {
            true => Call::Page { from: lo, rows },
            false => Call::Scan { lo, hi, rows },
        }
    }

    /// The call of this index of the thread with this number in a mix, which draws these words.
    fn mixed(&self, mix: &Mix, words: &mut Pcg32, number: u32, index: u32) -> Call {
        let kind = mix.kind(below(100, words.next_word()));
        let drawn = self.ranks.draw(words);
        let (key, word) = (key_of(FILLER, drawn), u64::from(drawn));
        match kind {
            Kind::Get => Call::Get {
                key,
                word: Some(word),
            },
            Kind::Put => Call::Put { key, word },
            Kind::Insert => Call::Put {
                key: key_of(number, index % NEW_KEYS),
                word: u64::from(index),
            },
            Kind::Change => Call::Change { key },
            Kind::Scan => self.range(words.next_word(), mix.rows(), false),
            Kind::Page => self.range(words.next_word(), mix.rows(), true),
        }
    }

    /// The call of this index of the thread with this number, which draws these words.
    #[inline]
    fn call(&self, words: &mut Pcg32, number: u32, index: u32) -> Call {
        let word = words.next_word();
        let drawn = match self.role {
            Role::HotGets | Role::HotMixed if word % 10 != 0 => below(HOT.min(self.keys), word),
            _ => below(self.keys, word),
        };
        let (key, old, new) = (key_of(FILLER, drawn), u64::from(drawn), u64::from(index));
        match self.role {
            Role::AbsentGets => Call::Get {
                key: key_of(NOBODY, drawn),
                word: None,
            },
            Role::RisingPuts => Call::Put {
                key: (u64::from(number) << 32) | new,
                word: new,
            },
            Role::OnePuts if number > 0 => Call::Get {
                key,
                word: Some(old),
            },
            Role::HotBatches(_) => Call::Put {
                key: key_of(FILLER, below(HOT, word)),
                word: new,
            },
            Role::Puts | Role::OnePuts | Role::Batches(_) => Call::Put {
                key: key_of(number, index % NEW_KEYS),
                word: new,
            },
            Role::Mixed | Role::HotMixed if words.next_word() % 10 == 0 => {
                Call::Put { key, word: old }
            }
            Role::Scans(rows) => self.range(word, *rows, false),
            Role::Pages(rows) => self.range(word, *rows, true),
            _ => Call::Get {
                key,
                word: Some(old),
            },
        }
    }
}

impl<'a> Draws<'a> {
    /// The calls of the thread with this number, of which there are so many.
    pub fn new(
        alloc: Global,
        series: &'a Series<'a>,
        number: u32,
        calls: u32,
    ) -> Result<Draws<'a>, AllocError> {
        let mut words = Pcg32::new(u64::from(number), 1);
        let mut drawn = Vec::new(alloc);
        if let Role::Several(mix, _) = series.role {
            for index in 0..calls {
                drawn.push(series.mixed(mix, &mut words, number, index))?;
            }
        }
        Ok(Draws {
            series,
            number,
            words,
            drawn,
        })
    }

    /// The call of this index.
    #[inline]
    pub fn call(&mut self, index: u32) -> Call {
        match self.drawn.get(index as usize) {
            Some(call) => *call,
            None => self.series.call(&mut self.words, self.number, index),
        }
    }
}
