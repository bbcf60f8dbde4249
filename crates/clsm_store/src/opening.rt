//! How a store opens.
ghost use Rattle.std.specs.Prelude.{◌≡◌, ◌<◌, ◌+◌, replicate, vec_len, All, IfOk};
ghost use Rattle.clsm_law.specs.Merging.{unseen};
ghost use Rattle.clsm_words.specs.Plays.{AreFreshFrom, IsFreshMerger};
ghost use Rattle.clsm_store_calls.specs.Freezing.{IsClean};
ghost use Rattle.clsm_store_calls.specs.Merging.{IsReady, clean_of};
ghost use Rattle.clsm_store_calls.specs.Seats.{AreNew};
ghost use Rattle.clsm_store.specs.Opening.{Opens};
ghost use Rattle.clsm_store_calls.specs.Resting.{store_of};

use crate::merger::Clean;
use crate::seat::Seat;
use crate::store::Store;
use clsm_law::{Layout, Reader};
use clsm_model::{Config, OpenError};
use clsm_search::FrozenWalk;
use clsm_store_calls::MergerSeat;
use clsm_words::{Free, Pace, RawMerger, RawSeat, Words};
use std::alloc::{AllocError, Global};

/// An opened store, the seats of its callers, numbered from 0, and the merger's token.
#[derive(Drop)]
pub struct Opened<P: Pace> {
    pub store: Store<P>,
    pub seats: Vec<Seat>,
    pub merger: Clean,
}

/// Opens an empty store of these sizes, and makes all its room. Refused with the first size out of
/// its range, in the order cells, seats, shards, run, patience, and with `Memory` only if all
/// are in their ranges. Nothing is kept after a refusal.
pub fn open(alloc: Global, config: Config) -> Result<Opened<Free>, OpenError>
    ensures { Opens config result }
{
    open_paced(alloc, config, Free)
}

/// As `open`, with a pace: it is called before each atomic step on the store.
pub fn open_paced<P: Pace>(alloc: Global, config: Config, pace: P) -> Result<Opened<P>, OpenError>
    ensures { Opens config result }
{
    let layout = Layout::new(config)?;
    let Ok((words, raw, merger)) = Words::new(alloc, &layout, pace) else {
        return Err(OpenError::Memory);
    };
    let Ok(seats) = seat_all(alloc, &words, raw) else {
        return Err(OpenError::Memory);
    };
    let Ok(merger) = seat_merger(alloc, &layout, merger) else {
        return Err(OpenError::Memory);
    };
    Ok(Opened {
        store: Store { words },
        seats,
        merger: Clean { merger },
    })
}

/// The seats of callers that have done nothing yet.
fn seat_all<P: Pace>(
    alloc: Global,
    words: &Words<P>,
    raw: Vec<RawSeat>,
) -> Result<Vec<Seat>, AllocError>
    requires fresh { AreFreshFrom 0 words.now raw.items }
    requires few { vec_len raw < 65 }
    ensures new { IfOk result (λ seats. AreNew (store_of words.now) (vec_len raw) seats.items) }
    ensures at { IfOk result (λ seats. All (λ seat. seat.store ≡ store_of words.now) seats.items) }
{
    let mut seats = Vec::with_capacity(alloc, raw.len())?;
    for raw in raw {
        let seat = Seat {
            raw,
            pin: 0,
            snapshot: None,
        };
        seats.push(seat)?;
    }
    Ok(seats)
}

/// What is noted of so many seats at first: nothing.
fn unseen(alloc: Global, seats: usize) -> Result<Vec<Reader>, AllocError>
    ensures { IfOk result (λ seen. vec_len seen ≡ seats) }
{
    let mut seen = Vec::with_capacity(alloc, seats)?;
    for _ in 0..seats {
        seen.push(Reader {
            first_pin: None,
            quiet: false,
            looks: 0,
        })?;
    }
    Ok(seen)
}

/// The merger, which has done nothing yet, with all its room.
fn seat_merger(alloc: Global, layout: &Layout, raw: RawMerger) -> Result<MergerSeat, AllocError>
    requires fresh { IsFreshMerger raw }
    requires layout { raw.knows.layout ≡ layout.now }
    ensures new { IfOk result (λ merger. clean_of merger ≡ record {
      merger = record {
        store = record { table = raw.table; layout = raw.knows.layout };
        merges = 0;
        holds = 0;
        busy = 0;
        polls = 0;
        polled = 0;
      };
      floor = 0;
      rounds = 0;
      readers = replicate raw.knows.layout.seats unseen;
    }) }
    ensures clean { IfOk result (λ merger. IsClean merger.raw.knows merger.merges) }
    ensures ready { IfOk result IsReady }
{
    Ok(MergerSeat {
        raw,
        merges: 0,
        floor: 0,
        noted: None,
        walk: FrozenWalk::new(alloc, layout.cells)?,
        seen: unseen(alloc, layout.seats as usize)?,
    })
}
