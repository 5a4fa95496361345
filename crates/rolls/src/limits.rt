// The stated bounds of the unit.
pub const HOURS: usize = 24;

pub const MAX_MEMBERS: usize = 16;

pub const MAX_RESOURCES: usize = 16;

pub const MAX_TRADES: usize = 64;

pub const MAX_EVENTS: usize = 4;

pub const MINUTES_PER_DAY: u64 = 1440;

// Energy in kWh.
pub const MAX_LOAD_KWH: u64 = 100_000_000;

pub const MAX_ASSIGNED_KWH: u64 = 500_000;

pub const MAX_TRADE_KWH: u64 = 500_000;

// Prices in cents per MWh, costs in cents.
pub const MAX_PRICE: u64 = 400_000;

pub const MAX_OFFER: u64 = 400_000;

pub const MAX_COSTS: u64 = 300_000_000;

pub const MAX_INTERVAL_PRICE_SUM: u64 = 4_000_000;
