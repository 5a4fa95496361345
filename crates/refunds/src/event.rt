// An event of the day, beside the tables that it stands in.
ghost use Rattle.std.specs.Prelude.{◌≡◌, ◌<◌, ◌≤◌, ◌/◌, length};
ghost use Rattle.settlement.specs.Days.{event as event_of};
ghost use Rattle.settlement.specs.Figures.{the_day};

use crate::minutes::MINUTES_PER_HOUR;
use events::event::Event;
use inputs::tables::Tables;
use rolls::hour::HourPlace;

#[derive(Clone, Copy)]
pub(crate) struct EventOfDay<'a> {
    pub(crate) tables: &'a Tables,
    pub(crate) event: &'a Event,
    ghost start: { event.now.start ≤ 1439 },
}

impl<'a> EventOfDay<'a> {
    // The closed event at a place.
    pub(crate) fn at(tables: &'a Tables, place: usize) -> EventOfDay<'a>
        requires { place < length (the_day tables.now).closed }
        ensures tables { result.tables.now ≡ tables.now }
        ensures event { result.event.now ≡ event_of (the_day tables.now) place }
    {
        EventOfDay {
            tables,
            event: &tables.closed_events()[place],
        }
    }

    // The hour in which it starts.
    pub(crate) fn starting_hour(&self) -> HourPlace
        ensures { result.place ≡ self.now.event.now.start / 60 }
    {
        // A start is below 1440, so this is below 24.
        HourPlace::at(usize::from(self.event.start / MINUTES_PER_HOUR))
    }
}
