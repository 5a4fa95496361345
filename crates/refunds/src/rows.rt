// The shortfalls of the day.
ghost use Rattle.settlement.specs.Figures.{the_day};
ghost use Rattle.refunds.specs.Rows.{ShortfallsOf};

use inputs::tables::Tables;
use rolls::limits::{MAX_EVENTS, MAX_RESOURCES};

// In kWh, by closed event and then by resource; an event that does not count has none.
#[derive(Clone, Copy)]
pub struct EventShortfalls<'a> {
    pub(crate) tables: &'a Tables,
    // Beside the closed events, which the tables own: each row is computed once and read for every hour.
    pub(crate) rows: [[i64; MAX_RESOURCES]; MAX_EVENTS],
    ghost defined: { ShortfallsOf (the_day tables.now) rows },
}
