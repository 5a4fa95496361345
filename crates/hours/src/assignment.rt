// What a resource is assigned to carry in an hour.
ghost use Rattle.std.specs.Prelude.{◌≡◌, ℕ, ◌<◌, ◌≤◌, [], length, slice_index_or};
ghost use Rattle.hours.specs.Assignments.{assignment_at, kwh_of, offer_of, costs_of};

use rolls::limits::{HOURS, MAX_RESOURCES};

// Energy in kWh, the offer price in cents per MWh, the costs in cents.
// `N` is the type of the figures: any `u64` where they are entered, `u32` where they stand.
#[derive(Clone, Copy)]
pub enum Assignment<N> {
    Unassigned,
    TierOne { kwh: N },
    SelfScheduled { kwh: N },
    PoolScheduled { kwh: N, offer: N, costs: N },
}

// The assignments of the day, by hour and by the resources' places.
#[derive(Drop)]
pub struct AssignmentTable {
    pub(crate) rows: [[Assignment<u32>; MAX_RESOURCES]; HOURS],
    ghost wide: { (h : ℕ) → h < 24 → length (slice_index_or rows h []) ≡ 16 },
    ghost energy: { (h r : ℕ) → h < 24 → r < 16 → kwh_of (assignment_at rows h r) ≤ 500000 },
    ghost offers: { (h r : ℕ) → h < 24 → r < 16 → offer_of (assignment_at rows h r) ≤ 400000 },
    ghost costs: { (h r : ℕ) → h < 24 → r < 16 → costs_of (assignment_at rows h r) ≤ 300000000 },
}
