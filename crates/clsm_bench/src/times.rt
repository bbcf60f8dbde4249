//! The times of rounds, and how they are printed.
use std::alloc::{AllocError, Global};

/// The median of numbers, with the least and the greatest of them.
#[derive(Clone, Copy)]
struct Spread {
    median: u64,
    least: u64,
    greatest: u64,
}

impl Spread {
    fn new(mut numbers: Vec<u64>) -> Result<Spread, AllocError> {
        numbers.sort()?;
        Ok(Spread {
            median: *numbers.get(numbers.len() / 2).unwrap_or(&0),
            least: *numbers.first().unwrap_or(&0),
            greatest: *numbers.last().unwrap_or(&0),
        })
    }

    /// As a line shows it, or as three values of a row.
    fn text(&self, alloc: Global, is_csv: bool) -> Result<String, AllocError> {
        let (median, least, greatest) = (self.median, self.least, self.greatest);
        if is_csv {
            return format!(in alloc; "{median},{least},{greatest}");
        }
        format!(in alloc; "{median} [{least} {greatest}]")
    }
}

/// The spreads of both times and of the hundredths as one text.
fn line_of(alloc: Global, spreads: [Spread; 3], is_csv: bool) -> Result<String, AllocError> {
    let [first, second, percent] = spreads;
    let first = first.text(alloc, is_csv)?;
    let second = second.text(alloc, is_csv)?;
    let percent = percent.text(alloc, is_csv)?;
    if is_csv {
        return format!(in alloc; "{first},{second},{percent}");
    }
    format!(in alloc; "ps {first} ps {second} percent {percent}")
}

/// The spread of the times in the first way as a text.
fn line_of_one(alloc: Global, first: Spread, is_csv: bool) -> Result<String, AllocError> {
    let first = first.text(alloc, is_csv)?;
    if is_csv {
        return Ok(first);
    }
    format!(in alloc; "ps {first}")
}

/// The times of rounds in both ways, or in the first alone, in picoseconds a call, and how many hundredths of the first
/// each second one is.
#[derive(Drop)]
pub struct Times {
    firsts: Vec<u64>,
    seconds: Vec<u64>,
    percents: Vec<u64>,
}

impl Times {
    pub fn new(alloc: Global) -> Times {
        Times {
            firsts: Vec::new(alloc),
            seconds: Vec::new(alloc),
            percents: Vec::new(alloc),
        }
    }

    /// Adds a round's time in the first way.
    pub fn push_first(&mut self, first: u64) -> Result<(), AllocError> {
        self.firsts.push(first)?;
        Ok(())
    }

    /// Adds the time in the second way of the round that had this one in the first.
    pub fn push_second(&mut self, first: u64, second: u64) -> Result<(), AllocError> {
        self.seconds.push(second)?;
        self.percents
            .push(second.saturating_mul(100) / first.max(1))?;
        Ok(())
    }

    /// As a line shows them, or as the values of a row.
    pub fn text(self, alloc: Global, is_csv: bool) -> Result<String, AllocError> {
        let first = Spread::new(self.firsts)?;
        if self.seconds.is_empty() {
            return line_of_one(alloc, first, is_csv);
        }
        let second = Spread::new(self.seconds)?;
        let percent = Spread::new(self.percents)?;
        line_of(alloc, [first, second, percent], is_csv)
    }
}
