// The resources of the day, in order of registration.
ghost use Rattle.std.specs.Str.{bytes_eq};

use rolls::code::Code;
use rolls::find::Keyed;

#[derive(Clone, Copy, PartialEq, Eq, Debug)]
pub enum ResourceKind {
    Generator,
    // Reduces what it draws when called on.
    Demand,
}

#[derive(Clone, Copy)]
pub struct Resource {
    pub code: Code,
    // The owner's place among the members.
    pub owner: usize,
    pub kind: ResourceKind,
    // The sum of clearing prices over the past interval, in cents per MWh: what a kW of shortfall is refunded at.
    pub interval_price_sum: u32,
}

impl Keyed for Resource {
    type Key = Code;

    ghost matches = { λ x c. bytes_eq x.code.signs c.signs };

    fn has_key(&self, key: &Code) -> bool {
        self.code == *key
    }
}
