// The minutes of an event.
ghost use Rattle.std.specs.Prelude.{◌≡◌, ◌<◌, pos};
ghost use Rattle.settlement.specs.Shortfalls.{counts, minutes_in as minutes_of};

use events::event::Event;

pub(crate) const MINUTES_PER_HOUR: u16 = 60;

// An event counts with so many minutes or more.
const COUNTED_EVENT_MINUTES: u16 = 10;

// Whether an event counts.
pub(crate) fn is_counted(event: &Event) -> bool
    ensures { result ≡ counts event.now }
{
    event.end.saturating_sub(event.start) >= COUNTED_EVENT_MINUTES
}

// An event's minutes in the hour at a place.
pub(crate) fn minutes_in(event: &Event, hour: usize) -> u16
    requires { hour < 24 }
    ensures { pos result ≡ minutes_of event.now hour }
{
    // A place is below 24, so it and its minutes are small.
    let first = MINUTES_PER_HOUR * u16::try_from(hour).unwrap();
    let end = event.end.min(first + MINUTES_PER_HOUR);
    let start = event.start.max(first);
    end.saturating_sub(start)
}
