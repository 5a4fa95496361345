// Sales less purchases of the members in an hour.
ghost use Rattle.std.specs.Prelude.{◌≡◌, ℕ, ◌<◌, ◌≤◌, ℤ, pos, ◌+ℤ◌, ◌-ℤ◌, if◌then◌else◌, nat_eq, unsigned_abs};
ghost use Rattle.settlement.specs.Sums.{at};
ghost use Rattle.settlement.specs.Settlement.{net_sales};
ghost use Rattle.settlement.specs.Figures.{ByMember, the_day, the_sales};

use crate::hour_of_day::HourOfDay;
use rolls::limits::MAX_MEMBERS;
use trades::trade::Trade;

// Adds a trade to its seller's sales and takes it from its buyer's.
fn enter_trade(net: &mut [i64; MAX_MEMBERS], trade: &Trade)
    requires seller { trade.now.key.seller < 16 }
    requires buyer { trade.now.key.buyer < 16 }
    requires small { trade.now.kwh ≤ 500000 }
    requires modest { (m : ℕ) → m < 16 → unsigned_abs (at net.old m) ≤ 32000000 }
    ensures { (m : ℕ) → m < 16 → at net.new m ≡ at net.old m +ℤ pos (if nat_eq trade.now.key.seller m then trade.now.kwh else 0) -ℤ pos (if nat_eq trade.now.key.buyer m then trade.now.kwh else 0) }
{
    let kwh = i64::from(trade.kwh);
    net[trade.key.seller] += kwh;
    net[trade.key.buyer] -= kwh;
}

impl HourOfDay<'_> {
    // The sales of each member less its purchases.
    pub(crate) fn net_sales_by_member(&self) -> [i64; MAX_MEMBERS]
        ensures { ByMember self.now.tables.now result (net_sales (the_day self.now.tables.now) (the_sales self.now.tables.now self.now.hour.place)) }
    {
        let hour = self.hour.index();
        let mut net = [0; MAX_MEMBERS];
        for trade in self.tables.standing_trades() {
            if trade.key.hour == hour {
                enter_trade(&mut net, trade);
            }
        }
        net
    }
}
