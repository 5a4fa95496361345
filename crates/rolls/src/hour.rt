// The hours of the day as places in tables.
ghost use Rattle.std.specs.Prelude.{◌≡◌, ◌<◌};
ghost use Rattle.std.specs.Option.{option_map};
ghost use Rattle.rolls.specs.Hours.{place_of_hour};

use crate::limits::HOURS;

// Hour ending h stands at place h - 1.
#[derive(Clone, Copy, PartialEq, Eq, Debug)]
pub struct HourPlace {
    place: usize,
    ghost within: { place < 24 },
}

impl HourPlace {
    // The place of hour ending 1 to 24.
    pub fn of(hour: u64) -> Option<HourPlace>
        ensures { option_map (λ p. p.place) result ≡ place_of_hour hour }
    {
        // No `From` turns `usize` into `u64`, so the counts are cast.
        if hour == 0 || hour > HOURS as u64 {
            return None;
        }
        Some(HourPlace {
            place: (hour - 1) as usize,
        })
    }

    // The hour at a place.
    pub fn at(place: usize) -> HourPlace
        requires { place < 24 }
        ensures { result.place ≡ place }
    {
        HourPlace { place }
    }

    // The place as an index of a table.
    pub fn index(self) -> usize
        ensures value { result ≡ self.place }
        ensures within { result < 24 }
    {
        self.place
    }
}
