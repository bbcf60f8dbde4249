//! Steps as both sides tell them, and which of them are compared.
use crate::steps::command::{Command, SweepPart};
use clsm_law::{Part, Word};
use clsm_model::Deal;
use clsm_words::Kind;
use std::alloc::{AllocError, Global};

/// A step that the machine made, and the number of who made it.
#[derive(Clone, Copy)]
pub(crate) struct Made {
    pub(crate) player: u32,
    pub(crate) kind: Kind,
    /// Whether it stores in an entry of a run the word that is there.
    pub(crate) is_vain: bool,
}

/// What the two sides look for in ways of their own.
#[derive(Clone, Copy)]
pub(crate) enum Search {
    /// The place of a write in its list.
    Place,
    /// The places of a batch's members, before its hold of the lock too.
    Members,
    /// The rows of a scan.
    Rows,
    /// The writes of an epoch that is merged.
    Epoch,
    Nothing,
}

impl Search {
    pub(crate) fn of(command: &Command) -> Search {
        match command {
            Command::Call(Deal::Scan { .. }) | Command::Page { .. } => Search::Rows,
            Command::Call(
                Deal::Put { .. } | Deal::Remove { .. } | Deal::Add { .. } | Deal::Claim { .. },
            ) => Search::Place,
            Command::Call(Deal::Batch { .. }) => Search::Members,
            Command::Merger(SweepPart::Merge) => Search::Epoch,
            _ => Search::Nothing,
        }
    }

    /// Whether the call searches behind a step of this kind, if it did so before it or not.
    fn goes_on(self, kind: Kind, searches: bool) -> bool {
        match (self, kind) {
            (Search::Place, Kind::Look(Word::Limit)) => true,
            (Search::Place, Kind::LeaveShared) => false,
            (Search::Members, Kind::Look(Word::Clock) | Kind::EnterExclusive) => true,
            (Search::Members, Kind::Unpin | Kind::LeaveExclusive) => false,
            (Search::Rows, Kind::RaiseFront | Kind::Look(Word::Merged)) => true,
            (Search::Rows, Kind::Look(Word::Clock)) => false,
            (Search::Epoch, Kind::Look(Word::Snap(_))) => true,
            _ => searches,
        }
    }

    /// Whether a search of the machine alone makes the step: a look for rows or for an epoch's
    /// writes.
    fn is_own(self, kind: Kind) -> bool {
        matches!(self, Search::Rows | Search::Epoch) && is_of_search(kind)
    }
}

/// Whether the step is a look at a list, a chain, a cell or a run, or at LIMIT, which says what
/// list that is.
fn is_of_search(kind: Kind) -> bool {
    matches!(
        kind,
        Kind::Look(
            Word::Limit
                | Word::Order(_)
                | Word::Head { .. }
                | Word::Cell { .. }
                | Word::State(_)
                | Word::Count(_)
                | Word::Entry { .. }
        )
    )
}

fn is_of_hints(kind: Kind) -> bool {
    matches!(kind, Kind::StoreHint | Kind::Look(Word::Hint { .. }))
}

/// Whether the step is a look by which an entry of a run is found.
fn is_of_runs(kind: Kind) -> bool {
    matches!(
        kind,
        Kind::Look(Word::Count(_) | Word::Entry { part: 0, .. })
    )
}

fn is_key(kind: Kind) -> bool {
    matches!(
        kind,
        Kind::Look(Word::Cell {
            part: Part::Key,
            ..
        })
    )
}

fn is_link(kind: Kind) -> bool {
    matches!(kind, Kind::Look(Word::Order(_)))
}

/// Whether the first of the steps is a look of a walk through a list that goes on behind it.
fn is_of_walk(steps: &[Made]) -> bool {
    let Some((first, rest)) = steps.split_first() else {
        return false;
    };
    if !is_key(first.kind) && !is_link(first.kind) {
        return false;
    }
    match rest.iter().find(|made| !is_key(made.kind)) {
        Some(next) => is_link(next.kind),
        None => false,
    }
}

/// The places of those of the machine's steps of a call that the store makes too.
pub(crate) fn shared(
    alloc: Global,
    search: Search,
    steps: &[Made],
) -> Result<Vec<usize>, AllocError> {
    let mut places = Vec::new(alloc);
    let mut searches = false;
    for place in 0..steps.len() {
        let made = &steps[place];
        let is_own = searches && (search.is_own(made.kind) || is_of_walk(&steps[place..]));
        if !is_own && !made.is_vain && !is_of_runs(made.kind) {
            places.push(place)?;
        }
        searches = search.goes_on(made.kind, searches);
    }
    Ok(places)
}

/// Where two lists of steps differ: the place in the machine's, and what stands there on both
/// sides.
#[derive(Clone, Copy)]
pub(crate) struct Difference {
    pub(crate) place: usize,
    pub(crate) store: Option<Kind>,
    pub(crate) machine: Option<Kind>,
}

/// The first difference between the store's steps of a call and those of the machine, but for
/// steps of the store's own: of hints, and looks of its searches.
pub(crate) fn differ(search: Search, store: &[Kind], machine: &[Kind]) -> Option<Difference> {
    let mut place = 0;
    let mut searches = false;
    for kind in store {
        let next = machine.get(place).copied();
        if next == Some(*kind) {
            place = place.saturating_add(1);
        } else if !is_of_hints(*kind) && !is_of_runs(*kind) && !(searches && is_of_search(*kind)) {
            let store = Some(*kind);
            return Some(Difference {
                place,
                store,
                machine: next,
            });
        }
        searches = search.goes_on(*kind, searches);
    }
    let machine = machine.get(place).copied();
    if machine.is_none() {
        return None;
    }
    let store = None;
    Some(Difference {
        place,
        store,
        machine,
    })
}
