// What can be done with the standing trades.
ghost use Rattle.std.specs.Prelude.{◌≡◌, ◌≤◌, true, false, length, MatchResult};
ghost use Rattle.trades.specs.Keys.{in_range};
ghost use Rattle.trades.specs.Trades.{no_trades, quantity_at, with_quantity, standing, no_place};

use super::Trades;
use crate::trade::{Trade, TradeKey};
use rolls::roll::Roll;

// Every place for a trade is taken.
#[derive(Clone, Copy, PartialEq, Eq, Debug)]
pub struct NoPlace;

impl Trades {
    // No trade stands.
    pub fn none() -> Trades
        ensures { quantity_at result.places ≡ no_trades }
    {
        let key = TradeKey {
            hour: 0,
            seller: 0,
            buyer: 0,
        };
        Trades {
            places: Roll::empty(Trade { key, kwh: 0 }),
        }
    }

    // The kWh under a key, 0 where no trade stands.
    pub fn quantity(&self, key: TradeKey) -> u32
        ensures { result ≡ quantity_at self.now.places key }
    {
        let Some(place) = self.places.place_of(&key) else {
            return 0;
        };
        self.places.as_slice()[place].kwh
    }

    // The trades that stand; their order has no meaning.
    pub fn as_slice(&self) -> &[Trade]
        ensures value { result.now ≡ self.now.places }
        ensures few { length result.now ≤ 64 }
    {
        self.places.as_slice()
    }

    // How many trades stand.
    pub fn count(&self) -> usize
        ensures { result ≡ standing (quantity_at self.now.places) }
    {
        self.places.len()
    }

    // Sets the quantity under a key; zero removes the trade and frees its place.
    pub fn set(&mut self, key: TradeKey, kwh: u32) -> Result<(), NoPlace>
        requires ranged { in_range key ≡ true }
        requires limited { kwh ≤ 500000 }
        ensures { MatchResult result
            (λ _. (no_place (quantity_at self.old.places) key kwh ≡ false)
            × (quantity_at self.new.places ≡ with_quantity (quantity_at self.old.places) key kwh))
            (λ _. (no_place (quantity_at self.old.places) key kwh ≡ true) × (self.new ≡ self.old)) }
    {
        match (self.places.place_of(&key), kwh > 0) {
            (None, false) => Ok(()),
            (None, true) => {
                self.places.push(Trade { key, kwh }).ok_or(NoPlace)?;
                Ok(())
            }
            (Some(place), false) => {
                self.places.remove(place);
                Ok(())
            }
            (Some(place), true) => {
                self.places.put(place, Trade { key, kwh });
                Ok(())
            }
        }
    }
}
