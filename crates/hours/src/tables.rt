// What can be done with the tables of hours and assignments.
// Members and resources are plain places here, below 16 by what is asked of the caller: they are what calls answer,
// what resources name their owners by, and what is counted over; a type would be made anew at each of these.
ghost use Rattle.std.specs.Prelude.{◌≡◌, ◌<◌, ◌≤◌, replicate};
ghost use Rattle.hours.specs.declared.assignment.Assignment.TheVariants.{Unassigned};
ghost use Rattle.hours.specs.Hours.{blank_hour, hour_at, load_at};
ghost use Rattle.hours.specs.Assignments.{assignment_at, with_assignment, Small};
ghost use Rattle.hours.specs.Entries.{with_price, with_load};

use crate::assignment::{Assignment, AssignmentTable};
use crate::hour::{Hour, HourTable};
use rolls::hour::HourPlace;
use rolls::limits::{HOURS, MAX_MEMBERS, MAX_RESOURCES};

impl HourTable {
    // No prices and no loads.
    pub fn blank() -> HourTable
        ensures { result.hours ≡ replicate 24 blank_hour }
    {
        let hour = Hour {
            synchronized_price: 0,
            non_synchronized_price: 0,
            loads: [0; MAX_MEMBERS],
        };
        HourTable {
            hours: [hour; HOURS],
        }
    }

    // The hour at a place.
    pub fn at(&self, hour: HourPlace) -> Hour
        ensures { result ≡ hour_at self.now.hours hour.place }
    {
        self.hours[hour.index()]
    }

    // A member's load in an hour.
    pub fn load(&self, hour: HourPlace, member: usize) -> u32
        requires { member < 16 }
        ensures { result ≡ load_at (hour_at self.now.hours hour.place) member }
    {
        self.hours[hour.index()].loads[member]
    }

    // Sets both prices of an hour.
    pub fn set_prices(&mut self, hour: HourPlace, synchronized: u32, non_synchronized: u32)
        requires synchronized { synchronized ≤ 400000 }
        requires other { non_synchronized ≤ 400000 }
        ensures { self.new.hours ≡ with_price self.old.hours hour.place synchronized non_synchronized }
    {
        let hour = &mut self.hours[hour.index()];
        hour.synchronized_price = synchronized;
        hour.non_synchronized_price = non_synchronized;
    }

    // Sets a member's load in an hour.
    pub fn set_load(&mut self, hour: HourPlace, member: usize, kwh: u32)
        requires member { member < 16 }
        requires kwh { kwh ≤ 100000000 }
        ensures { self.new.hours ≡ with_load self.old.hours hour.place member kwh }
    {
        self.hours[hour.index()].loads[member] = kwh;
    }
}

impl AssignmentTable {
    // Nothing assigned.
    pub fn blank() -> AssignmentTable
        ensures { result.rows ≡ replicate 24 (replicate 16 Unassigned) }
    {
        AssignmentTable {
            rows: [[Assignment::Unassigned; MAX_RESOURCES]; HOURS],
        }
    }

    // The assignment of a resource in an hour.
    pub fn at(&self, hour: HourPlace, resource: usize) -> Assignment<u32>
        requires { resource < 16 }
        ensures { result ≡ assignment_at self.now.rows hour.place resource }
    {
        self.rows[hour.index()][resource]
    }

    // Sets the assignment of a resource in an hour.
    pub fn set(&mut self, hour: HourPlace, resource: usize, assignment: Assignment<u32>)
        requires resource { resource < 16 }
        requires small { Small assignment }
        ensures { self.new.rows ≡ with_assignment self.old.rows hour.place resource assignment }
    {
        self.rows[hour.index()][resource] = assignment;
    }
}
