// A bilateral trade.
ghost use Rattle.trades.specs.Keys.{same_key};

use rolls::find::Keyed;

// The hour's place, and the places of the seller and the buyer among the members.
#[derive(Clone, Copy, PartialEq, Eq, Debug)]
pub struct TradeKey {
    pub hour: usize,
    pub seller: usize,
    pub buyer: usize,
}

#[derive(Clone, Copy)]
pub struct Trade {
    pub key: TradeKey,
    pub kwh: u32,
}

impl Keyed for Trade {
    type Key = TradeKey;

    ghost matches = { λ t k. same_key t.key k };

    fn has_key(&self, key: &TradeKey) -> bool {
        self.key == *key
    }
}
