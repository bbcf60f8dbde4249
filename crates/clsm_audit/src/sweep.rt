//! A sweep over the begins and ends of calls, in the order of moments.
ghost use Rattle.std.specs.Prelude.{◌≡◌, ◌∷◌, ◌++◌, [], List, None, Some, true, false};
ghost use Rattle.std.specs.List.Sorted.{IsSortedBy};
ghost use Rattle.clsm_audit.specs.Moments.{ComesBehind, HasFirst, HasLatest, HasSwept, comes_before};

use crate::event::Event;

/// The begin of a call that is too early, and an end before it of a call with a later place.
#[derive(Clone, Copy)]
pub struct Overtaken {
    pub begin: Event,
    pub finish: Event,
}

/// What a sweep has seen: the end of the latest place, and of the calls that are too early the one
/// with the lowest index.
#[derive(Clone, Copy)]
pub struct Sweep {
    pub latest: Option<Event>,
    pub found: Option<Overtaken>,
}

/// Sweeps over all events.
pub fn sweep_over(events: &[Event]) -> Sweep
    requires { IsSortedBy comes_before events.now }
    ensures { HasSwept events.now result }
{
    let mut sweep = Sweep {
        latest: None,
        found: None,
    };
    for event in events {
        sweep.pass(event);
    }
    sweep
}

impl Sweep {
    /// Passes the next event.
    fn pass(&mut self, event: &Event)
        ensures { (events : List Event) → HasSwept events self.old → ComesBehind events event.now →
            HasSwept (events ++ event.now ∷ []) self.new }
    {
        if event.is_end {
            self.latest = Some(later(self.latest, *event));
        } else {
            self.found = self.found_at(event);
        }
    }

    /// The first call that is too early, with this begin.
    fn found_at(&self, begin: &Event) -> Option<Overtaken>
        ensures { (events : List Event) → HasSwept events self.now → begin.now.is_end ≡ false →
            ComesBehind events begin.now → HasFirst (events ++ begin.now ∷ []) result }
    {
        let Some(latest) = self.latest else {
            return self.found;
        };
        if latest.time <= begin.time {
            return self.found;
        }
        match self.found {
            Some(found) if found.begin.index <= begin.index => Some(found),
            _ => Some(Overtaken {
                begin: *begin,
                finish: latest,
            }),
        }
    }
}

/// The end of the later one of two places.
fn later(latest: Option<Event>, finish: Event) -> Event
    ensures { (events : List Event) → HasLatest events latest → finish.is_end ≡ true →
        HasLatest (events ++ finish ∷ []) (Some result) }
{
    let Some(latest) = latest else {
        return finish;
    };
    if latest.time < finish.time {
        return finish;
    }
    latest
}
