// What the resources deliver in an hour.
ghost use Rattle.settlement.specs.Settlement.{delivered as delivered_in};
ghost use Rattle.settlement.specs.Figures.{ByResource, the_day};

use crate::hour_of_day::HourOfDay;
use rolls::limits::MAX_RESOURCES;

// In kWh, by the resources' places.
#[derive(Clone, Copy)]
pub(crate) struct Delivered<'a> {
    pub(crate) hour: HourOfDay<'a>,
    pub(crate) kwh: [i64; MAX_RESOURCES],
    ghost defined: { ByResource hour.tables.now kwh (delivered_in (the_day hour.tables.now) hour.hour.place) },
}
