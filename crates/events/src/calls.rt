// The calls that begin, read, close and cancel an event.
ghost use Rattle.std.specs.Prelude.{◌≡◌, ◌<◌, [], None};
ghost use Rattle.events.specs.Outcomes.{Outcome};
ghost use Rattle.events.specs.DayEvents.{day_events, last_end, with_reading, event_refusal, after_event};

use crate::event::{Edge, Event, EventState, Events, Reading, RunningEvent};
use crate::fault::BookFault;
use crate::resource::Resource;
use crate::sample::Sample;
use rolls::limits::{MAX_EVENTS, MAX_RESOURCES, MINUTES_PER_DAY};
use rolls::roll::Roll;

const SILENT: Reading = Reading {
    start: None,
    end: None,
};

// A call on the day's events; a resource is named by its code.
#[derive(Clone, Copy)]
pub enum EventCall<'a> {
    Begin {
        start: u64,
    },
    Read {
        resource: &'a [u8],
        edge: Edge,
        sample: Sample,
    },
    Close {
        end: u64,
    },
    Cancel,
}

impl Events {
    // No event, closed or running.
    pub fn none() -> Events
        ensures closed { (day_events result).closed ≡ [] }
        ensures running { (day_events result).running ≡ None }
    {
        let nothing = Event {
            start: 0,
            end: 0,
            readings: [SILENT; MAX_RESOURCES],
        };
        Events {
            state: EventState::Quiet,
            readings: [SILENT; MAX_RESOURCES],
            closed: Roll::empty(nothing),
        }
    }

    // The closed events in order.
    pub fn closed(&self) -> &[Event]
        ensures { result.now ≡ (day_events self.now).closed }
    {
        self.closed.as_slice()
    }

    // The running event, if one runs.
    pub fn running(&self) -> Option<RunningEvent>
        ensures { result ≡ (day_events self.now).running }
    {
        match self.state {
            EventState::Quiet => None,
            EventState::Running { start } => Some(RunningEvent {
                start,
                readings: self.readings,
            }),
        }
    }

    // The end of the last closed event, or the start of the day.
    fn last_end(&self) -> u64
        ensures { result ≡ last_end self.now.closed }
    {
        self.closed
            .as_slice()
            .last()
            .map_or(0, |event| u64::from(event.end))
    }

    // Enters a reading of the running event at the resource's place.
    fn enter(&mut self, place: usize, edge: Edge, kilowatts: Option<u32>)
        requires { place < 16 }
        ensures readings { self.new.readings ≡ with_reading self.old.readings place edge kilowatts }
        ensures state { self.new.state ≡ self.old.state }
        ensures closed { self.new.closed ≡ self.old.closed }
    {
        match edge {
            Edge::Start => self.readings[place].start = kilowatts,
            Edge::End => self.readings[place].end = kilowatts,
        }
    }

    // Takes one call, by whether an event runs and by the call's kind together.
    pub fn decide(
        &mut self,
        resources: &Roll<Resource, MAX_RESOURCES>,
        call: EventCall<'_>,
    ) -> Result<(), BookFault>
        ensures { Outcome
            (event_refusal resources.now (day_events self.old).closed (day_events self.old).running call.entry)
            tt
            (day_events self.old)
            (after_event resources.now (day_events self.old).closed (day_events self.old).running call.entry)
            result
            (day_events self.new) }
    {
        match (self.state, call) {
            (EventState::Running { .. }, EventCall::Begin { .. }) => Err(BookFault::EventRuns),
            (EventState::Quiet, EventCall::Begin { start }) => {
                if self.closed.len() >= MAX_EVENTS {
                    return Err(BookFault::EventsFull);
                }
                if start >= MINUTES_PER_DAY || start < self.last_end() {
                    return Err(BookFault::BadMinute);
                }
                self.readings = [SILENT; MAX_RESOURCES];
                self.state = EventState::Running {
                    // Bounded just above, so the cast loses nothing; `try_from` would have an error to answer for.
                    start: start as u16,
                };
                Ok(())
            }
            (EventState::Quiet, _) => Err(BookFault::NoEventRuns),
            (
                EventState::Running { .. },
                EventCall::Read {
                    resource,
                    edge,
                    sample,
                },
            ) => {
                // Who or what a code does not name is refused in this form, here and where members are named.
                let Some(place) = resources.place_named(resource) else {
                    return Err(BookFault::NoSuchResource);
                };
                let kind = resources.as_slice()[place].kind;
                let kilowatts = sample.reading(kind)?;
                self.enter(place, edge, kilowatts);
                Ok(())
            }
            (EventState::Running { start }, EventCall::Close { end }) => {
                if end < u64::from(start) || end > MINUTES_PER_DAY {
                    return Err(BookFault::BadMinute);
                }
                let readings = self.readings;
                self.state = EventState::Quiet;
                let event = Event {
                    start,
                    // Bounded just above.
                    end: end as u16,
                    readings,
                };
                // There is a place: an event begins only while fewer than all are taken.
                self.closed.push(event).ok_or(BookFault::EventsFull)?;
                Ok(())
            }
            (EventState::Running { .. }, EventCall::Cancel) => {
                self.state = EventState::Quiet;
                Ok(())
            }
        }
    }
}
