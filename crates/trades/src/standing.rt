// The standing trades of the day.
ghost use Rattle.std.specs.Prelude.{◌≡◌, ◌≤◌, length};
ghost use Rattle.rolls.specs.Places.{Apart};
ghost use Rattle.trades.specs.Keys.{same_key};
ghost use Rattle.trades.specs.Trades.{unsound};

use crate::trade::Trade;
use rolls::limits::MAX_TRADES;
use rolls::roll::Roll;

pub mod edits;

// No two have one key, and each has a quantity above zero; where one stands has no meaning.
#[derive(Drop)]
pub struct Trades {
    places: Roll<Trade, MAX_TRADES>,
    ghost few: { length places ≤ 64 },
    ghost apart: { Apart (λ t k. same_key t.key k) places },
    ghost sound: { unsound places ≡ 0 },
}
