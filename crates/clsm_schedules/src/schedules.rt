//! Schedules of the pure machine, played event by event. Their answers were written out by hand.
//!
//! A schedule is a line `== NAME`, a row `sizes` and further rows, each of which is played; a row
//! that begins with `#` is a remark. For each schedule it is printed how many rows were played, or
//! which one was answered otherwise, and how.
//!
//! A row is a word and what belongs to it. The first number of a caller's row is its seat. A VALUE
//! is one to eight words, or `none`. A WORD of the machine is its name and its numbers, a DEED is
//! written as in a record, and a STEP as `Line::step` reads it.
//!
//! Single steps:
//! - `done SEAT STEP`, `lost SEAT STEP`: it is answered so.
//! - `found SEAT NUMBER WORD`: a look at the word finds this.
//! - `refused SEATS STEPS`: each of the steps, which are separated by `; `, is refused to each of
//!   the seats, which are separated by commas, and the world stays as it was.
//!
//! What the world tells:
//! - `has NUMBER WORD`, `has-none WORD`.
//! - `undecided TIME`: it was not drawn, or is not decided yet. `nothing TIME`: it was cancelled,
//!   or skipped. `wrote TIME SEAT KEY VALUE`: the seat wrote this there.
//! - `calls SEAT COUNT`: it has so many records. `call INDEX SEAT TIME DEED`: that of this index.
//! - `is-run`: the events so far make the same world from the opening on. `refused-without N
//!   PLACE`: without the event of this number they are refused at the place.
//! - `layout` and five sizes that are asked for, and the cells, seats, chains and entries that
//!   there then are. `no-layout` and five sizes, and the number of their refusal.
//!
//! A second world, which is opened with the first: `copies` makes it a copy of the first, `swaps`
//! takes the one for the other, and `equal` and `differ` compare them, by `==` and by hash.
//!
//! Parts of calls stand in `writes.rt`, `batches.rt`, `reads.rt` and `merging.rt`, each with its
//! row.

mod batches;
mod line;
mod merging;
mod play;
mod reads;
mod told;
mod writes;

use crate::schedules::play::{Wrong, play_rows};
use anyhow::Result;
use std::alloc::Global;
use std::io::{Stdout, Write};

/// Plays the schedules in their order. At most one allocation of a run is made to fail: a schedule
/// that is refused memory is played once more.
pub(crate) fn play_schedules(alloc: Global, text: &str, mut screen: Stdout) -> Result<()> {
    for schedule in text.split("== ").skip(1) {
        let (name, rows) = schedule.split_once('\n').unwrap_or((schedule, ""));
        let mut played = play_rows(alloc, rows);
        if let (_, Err(Wrong::Memory)) = played {
            played = play_rows(alloc, rows);
        }
        match played {
            (count, Ok(())) => writeln!(screen, "{name}: {count} rows")?,
            (count, Err(wrong)) => writeln!(screen, "{name}, row {count}: {wrong:?}")?,
        }
    }
    Ok(())
}
