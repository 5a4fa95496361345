// The tables behind the day book.
ghost use Rattle.std.specs.Prelude.{◌≡◌, ℕ, ◌<◌, ◌≤◌, length, slice_index_or};
ghost use Rattle.events.specs.Resources.{no_resource};
ghost use Rattle.trades.specs.declared.trade.TradeKey.{TradeKey};
ghost use Rattle.trades.specs.Trades.{quantity_at};
ghost use Rattle.inputs.specs.Rolls.{MembersApart, ResourcesApart};

use events::event::Events;
use events::resource::Resource;
use hours::assignment::AssignmentTable;
use hours::hour::HourTable;
use hours::settled::SettledHours;
use rolls::code::Code;
use rolls::limits::{MAX_MEMBERS, MAX_RESOURCES};
use rolls::roll::Roll;
use trades::standing::Trades;

// Everything stands in fixed memory, so no call is refused for want of it.
#[derive(Drop)]
pub struct Tables {
    pub(crate) members: Roll<Code, MAX_MEMBERS>,
    pub(crate) resources: Roll<Resource, MAX_RESOURCES>,
    pub(crate) hours: HourTable,
    pub(crate) assignments: AssignmentTable,
    pub(crate) trades: Trades,
    pub(crate) events: Events,
    pub(crate) settled: SettledHours,
    ghost few_members: { length members ≤ 16 },
    ghost few_resources: { length resources ≤ 16 },
    ghost enrolled: { MembersApart members },
    ghost registered: { ResourcesApart resources },
    ghost owners: { (k : ℕ) → k < length resources → (slice_index_or resources k no_resource).owner < length members },
    ghost sums: { (k : ℕ) → k < length resources → (slice_index_or resources k no_resource).interval_price_sum ≤ 4000000 },
    ghost sellers: { (k : TradeKey) → length members ≤ k.seller → quantity_at trades.places k ≡ 0 },
    ghost buyers: { (k : TradeKey) → length members ≤ k.buyer → quantity_at trades.places k ≡ 0 },
}
