// The events of a day: those that are closed, and the one that runs.
ghost use Rattle.std.specs.Prelude.{ℕ, ◌+◌, ◌<◌, ◌≤◌, length, slice_index_or};
ghost use Rattle.events.specs.States.{running_count, running_start, no_event};

use rolls::limits::{MAX_EVENTS, MAX_RESOURCES};
use rolls::roll::Roll;

// One of the two readings of an event.
#[derive(Clone, Copy, PartialEq, Eq, Debug)]
pub enum Edge {
    Start,
    End,
}

// A resource's readings at the start and at the end of an event, in kW; none where the meter was silent.
#[derive(Clone, Copy)]
pub struct Reading {
    pub start: Option<u32>,
    pub end: Option<u32>,
}

// A closed event; its readings stand at the places of their resources.
#[derive(Clone, Copy)]
pub struct Event {
    pub start: u16,
    pub end: u16,
    pub readings: [Reading; MAX_RESOURCES],
}

// An event that was begun and is neither closed nor cancelled.
#[derive(Clone, Copy)]
pub struct RunningEvent {
    pub start: u16,
    pub readings: [Reading; MAX_RESOURCES],
}

// Whether an event runs. No option of a running event: a call is decided by one match on this state and the call's
// kind together, so the state is plain numbers, and the readings stand in a table beside it.
#[derive(Clone, Copy, PartialEq, Eq, Debug)]
pub enum EventState {
    Quiet,
    Running { start: u16 },
}

// The closed events in order, and the state of the running one with its readings beside it.
// While none runs, those readings mean nothing.
#[derive(Drop)]
pub struct Events {
    pub(crate) state: EventState,
    pub(crate) readings: [Reading; MAX_RESOURCES],
    pub(crate) closed: Roll<Event, MAX_EVENTS>,
    ghost few: { length closed + running_count state ≤ 4 },
    ghost starts: { (k : ℕ) → k < length closed → (slice_index_or closed k no_event).start ≤ 1439 },
    ghost ends: { (k : ℕ) → k < length closed → (slice_index_or closed k no_event).end ≤ 1440 },
    ghost runs: { running_start state ≤ 1439 },
}
