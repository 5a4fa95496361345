// The prices of an hour and the members' loads.
ghost use Rattle.std.specs.Prelude.{◌≡◌, ℕ, ◌<◌, ◌≤◌, length};
ghost use Rattle.hours.specs.Hours.{hour_at, load_at};

use rolls::limits::{HOURS, MAX_MEMBERS};

// Prices in cents per MWh; loads in kWh, at the members' places.
#[derive(Clone, Copy)]
pub struct Hour {
    pub synchronized_price: u32,
    pub non_synchronized_price: u32,
    pub loads: [u32; MAX_MEMBERS],
}

// The hours of the day; hour ending h stands at place h - 1.
#[derive(Drop)]
pub struct HourTable {
    pub(crate) hours: [Hour; HOURS],
    ghost rows: { (h : ℕ) → h < 24 → length (hour_at hours h).loads ≡ 16 },
    ghost synchronized: { (h : ℕ) → h < 24 → (hour_at hours h).synchronized_price ≤ 400000 },
    ghost others: { (h : ℕ) → h < 24 → (hour_at hours h).non_synchronized_price ≤ 400000 },
    ghost loads: { (h m : ℕ) → h < 24 → m < 16 → load_at (hour_at hours h) m ≤ 100000000 },
}
