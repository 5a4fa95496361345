// Which hours of the day are settled.
ghost use Rattle.std.specs.Prelude.{◌≡◌, length, true, false, replicate, if◌then◌else◌, count_by, slice_index_or, slice_set};

use rolls::hour::HourPlace;
use rolls::limits::HOURS;
use std::mem;

// Hour ending h stands at place h - 1.
#[derive(Clone, Copy)]
pub struct SettledHours {
    flags: [bool; HOURS],
    ghost whole: { length flags ≡ 24 },
}

impl SettledHours {
    // No hour settled.
    pub fn none() -> SettledHours
        ensures { result.flags ≡ replicate 24 false }
    {
        SettledHours {
            flags: [false; HOURS],
        }
    }

    // Whether an hour is settled.
    pub fn is_settled(&self, hour: HourPlace) -> bool
        ensures { result ≡ slice_index_or self.now.flags hour.place false }
    {
        self.flags[hour.index()]
    }

    // Marks an hour as settled.
    pub fn settle(&mut self, hour: HourPlace)
        ensures { self.new.flags ≡ slice_set self.old.flags hour.place true }
    {
        self.flags[hour.index()] = true;
    }

    // Clears an hour, and answers how many settled hours that cleared: one or none.
    pub fn clear(&mut self, hour: HourPlace) -> usize
        ensures cleared { result ≡ (if slice_index_or self.old.flags hour.place false then 1 else 0) }
        ensures flags { self.new.flags ≡ slice_set self.old.flags hour.place false }
    {
        usize::from(mem::replace(&mut self.flags[hour.index()], false))
    }

    // Clears every hour, and answers how many settled hours that cleared.
    pub fn clear_all(&mut self) -> usize
        ensures cleared { result ≡ count_by (λ b. b) self.old.flags }
        ensures flags { self.new.flags ≡ replicate 24 false }
    {
        // The flags are added, since a filter that counts takes them one at a time.
        let mut cleared = 0;
        for settled in self.flags {
            cleared += usize::from(settled);
        }
        self.flags = [false; HOURS];
        cleared
    }
}
