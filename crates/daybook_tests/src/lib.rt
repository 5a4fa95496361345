// Which calls clear which settled hours, the refusals of settlement, and refunds at their edges.
#![tactic(auto)]

#[cfg(test)]
mod tests {
    use allocation::cumulative::CumulativeRounding;
    use allocation::remainder::LargestRemainder;
    use daybook::book::DayBook;
    use events::calls::EventCall;
    use events::event::Edge;
    use events::fault::BookFault;
    use events::resource::ResourceKind;
    use events::sample::Sample;
    use hours::assignment::Assignment;
    use inputs::call::{Answer, Call};
    use settlement::line::Line;

    type Book = DayBook<CumulativeRounding>;

    // Members AA, BB and CC with 30,000 kWh each in hours 18 and 19, a generator G1 of AA that is pool-scheduled
    // for 1,000 kWh in hour 18, and a demand resource D1 of BB; both hours are settled.
    fn settled_day() -> Book {
        let mut book = DayBook::open(CumulativeRounding);
        for code in [b"AA", b"BB", b"CC"] {
            let _ = book.enter(Call::Enrol { code });
        }
        enter_resources(&mut book);
        for hour in 18..20u64 {
            enter_hour(&mut book, hour);
        }
        let _ = book.settle(18);
        let _ = book.settle(19);
        book
    }

    fn enter_resources(book: &mut Book) {
        let _ = book.enter(Call::Register {
            code: b"G1",
            owner: b"AA",
            kind: ResourceKind::Generator,
            interval_price_sum: 4000,
        });
        let _ = book.enter(Call::Register {
            code: b"D1",
            owner: b"BB",
            kind: ResourceKind::Demand,
            interval_price_sum: 0,
        });
        let _ = book.enter(pool(18, 1000));
    }

    fn enter_hour(book: &mut Book, hour: u64) {
        let _ = book.enter(Call::SetPrices {
            hour,
            synchronized: 1001,
            non_synchronized: 0,
        });
        for member in [b"AA", b"BB", b"CC"] {
            let _ = book.enter(load(hour, member, 30_000));
        }
    }

    fn load(hour: u64, member: &[u8], kwh: u64) -> Call<'_> {
        Call::SetLoad { hour, member, kwh }
    }

    fn pool(hour: u64, kwh: u64) -> Call<'static> {
        Call::Assign {
            hour,
            resource: b"G1",
            assignment: Assignment::PoolScheduled {
                kwh,
                offer: 250,
                costs: 900,
            },
        }
    }

    // CC sells BB 100 kWh.
    fn trade(hour: u64) -> Call<'static> {
        Call::SetTrade {
            hour,
            seller: b"CC",
            buyer: b"BB",
            kwh: 100,
        }
    }

    fn begin(start: u64) -> Call<'static> {
        Call::Happen(EventCall::Begin { start })
    }

    // The generator's output in MW.
    fn read(edge: Edge, output: f32) -> Call<'static> {
        Call::Happen(EventCall::Read {
            resource: b"G1",
            edge,
            sample: Sample::Output(output),
        })
    }

    fn close(end: u64) -> Call<'static> {
        Call::Happen(EventCall::Close { end })
    }

    fn clearing_charge(book: &Book, hour: u64, member: &[u8]) -> Result<i64, BookFault> {
        Ok(book.line(hour, member)?.clearing_charge)
    }

    fn refund_net(book: &Book, hour: u64, member: &[u8]) -> Result<(i64, i64), BookFault> {
        let line = book.line(hour, member)?;
        Ok((line.refund_charged, line.refund_paid))
    }

    #[test]
    fn own_hour_cleared(rt: HostRuntime) {
        let mut book = settled_day();
        assert_eq!(rt; book.enter(load(18, b"AA", 30_000)), Ok(Answer::Cleared(1)));
        assert_eq!(rt; book.is_settled(18), Ok(false));
        assert_eq!(rt; book.is_settled(19), Ok(true));
        assert_eq!(rt; clearing_charge(&book, 18, b"BB"), Ok(0));
        assert_eq!(rt; book.enter(load(18, b"AA", 30_000)), Ok(Answer::Cleared(0)));
        assert_eq!(rt; book.settle(18), Ok(1150));
        assert_eq!(rt; clearing_charge(&book, 18, b"BB"), Ok(335));
        let prices = Call::SetPrices {
            hour: 19,
            synchronized: 7,
            non_synchronized: 0,
        };
        assert_eq!(rt; book.enter(prices), Ok(Answer::Cleared(1)));
        assert_eq!(rt; clearing_charge(&book, 18, b"BB"), Ok(335));
    }

    #[test]
    fn trade_clears_its_hour(rt: HostRuntime) {
        let mut book = settled_day();
        assert_eq!(rt; book.enter(trade(18)), Ok(Answer::Cleared(1)));
        assert_eq!(rt; book.settle(18), Ok(1150));
        assert_eq!(rt; clearing_charge(&book, 18, b"AA"), Ok(333));
        assert_eq!(rt; clearing_charge(&book, 18, b"BB"), Ok(235));
        assert_eq!(rt; clearing_charge(&book, 18, b"CC"), Ok(433));
    }

    #[test]
    fn all_hours_cleared(rt: HostRuntime) {
        let mut book = settled_day();
        assert_eq!(rt; book.enter(pool(3, 0)), Ok(Answer::Cleared(2)));
        assert_eq!(rt; book.settle(18), Ok(1150));
        assert_eq!(rt;
            book.enter(Call::Enrol { code: b"DD" }),
            Ok(Answer::Place(3))
        );
        assert_eq!(rt; book.is_settled(18), Ok(false));
        assert_eq!(rt; book.settle(18), Ok(1150));
        assert_eq!(rt; book.enter(begin(60)), Ok(Answer::Cleared(0)));
        assert_eq!(rt; book.is_settled(18), Ok(true));
        assert_eq!(rt; book.settle(18), Err(BookFault::EventRuns));
        assert_eq!(rt; book.enter(close(61)), Ok(Answer::Cleared(1)));
        assert_eq!(rt; book.is_settled(18), Ok(false));
    }

    #[test]
    fn refused_calls_clear_nothing(rt: HostRuntime) {
        let mut book = settled_day();
        assert_eq!(rt;
            book.enter(load(18, b"AA", 100_000_001)),
            Err(BookFault::TooMuchEnergy)
        );
        assert_eq!(rt;
            book.enter(pool(18, 500_001)),
            Err(BookFault::TooMuchEnergy)
        );
        assert_eq!(rt;
            book.enter(Call::Enrol { code: b"AA" }),
            Err(BookFault::CodeTaken)
        );
        assert_eq!(rt; book.is_settled(18), Ok(true));
        assert_eq!(rt; clearing_charge(&book, 18, b"BB"), Ok(335));
    }

    #[test]
    fn settlement_refused(rt: HostRuntime) {
        let mut book = settled_day();
        assert_eq!(rt; book.settle(0), Err(BookFault::BadHour));
        assert_eq!(rt; book.settle(25), Err(BookFault::BadHour));
        assert_eq!(rt; book.settle(24), Ok(0));
        assert_eq!(rt; book.enter(begin(0)), Ok(Answer::Cleared(0)));
        assert_eq!(rt; book.settle(25), Err(BookFault::BadHour));
        assert_eq!(rt; book.settle(1), Err(BookFault::EventRuns));
        assert_eq!(rt; book.line(25, b"XX"), Err(BookFault::BadHour));
        assert_eq!(rt; book.line(24, b"XX"), Err(BookFault::NoSuchMember));
    }

    #[test]
    fn reserve_without_load(rt: HostRuntime) {
        let mut book = settled_day();
        assert_eq!(rt; book.enter(pool(20, 1)), Ok(Answer::Cleared(2)));
        assert_eq!(rt; book.settle(20), Err(BookFault::NobodyToCharge));
        assert_eq!(rt; book.is_settled(20), Ok(false));
        assert_eq!(rt; book.enter(load(20, b"CC", 1)), Ok(Answer::Cleared(0)));
        assert_eq!(rt; book.settle(20), Ok(900));
    }

    // G1 responds with 500 of its 1,000 kW in an event with 3 minutes in hour 18 and 7 in hour 19:
    // a day refund of 2,000 cents, 600 and 1,400 of it by hour.
    fn short_day() -> Book {
        let mut book = settled_day();
        let _ = book.enter(begin(1077));
        let _ = book.enter(read(Edge::Start, 2.0));
        let _ = book.enter(read(Edge::End, 2.5));
        let _ = book.enter(close(1087));
        book
    }

    #[test]
    fn refunds_of_an_hour(rt: HostRuntime) {
        let mut book = short_day();
        // 500 kWh delivered at 1001: a clearing credit of 501 (500.5 half up);
        // 125 for the offer and 900 of costs less that: 524; and a refund of 600
        assert_eq!(rt; book.settle(18), Ok(1625));
        assert_eq!(rt; refund_net(&book, 18, b"AA"), Ok((600, 0)));
        assert_eq!(rt; refund_net(&book, 18, b"BB"), Ok((0, 300)));
        assert_eq!(rt; refund_net(&book, 18, b"CC"), Ok((0, 300)));
    }

    #[test]
    fn refunds_with_nobody_to_pay(rt: HostRuntime) {
        let mut book = short_day();
        // nothing is assigned in hour 19, so nobody has an obligation there
        assert_eq!(rt; book.settle(19), Err(BookFault::NobodyToCharge));
        assert_eq!(rt; book.enter(trade(19)), Ok(Answer::Cleared(0)));
        assert_eq!(rt; book.settle(19), Ok(1400));
        assert_eq!(rt; refund_net(&book, 19, b"AA"), Ok((1400, 0)));
        assert_eq!(rt; refund_net(&book, 19, b"CC"), Ok((0, 1400)));
    }

    #[test]
    fn another_rule(rt: HostRuntime) {
        let mut book = DayBook::open(LargestRemainder);
        for code in [b"AA", b"BB", b"CC"] {
            let _ = book.enter(Call::Enrol { code });
            let _ = book.enter(load(18, code, 30_000));
        }
        let _ = book.enter(Call::Register {
            code: b"G1",
            owner: b"AA",
            kind: ResourceKind::Generator,
            interval_price_sum: 0,
        });
        let _ = book.enter(pool(18, 1000));
        assert_eq!(rt; book.settle(18), Ok(1150));
        assert_eq!(rt; obligation(book.line(18, b"AA")), Ok(334));
        assert_eq!(rt; obligation(book.line(18, b"BB")), Ok(333));
        assert_eq!(rt; obligation(book.line(18, b"CC")), Ok(333));
    }

    fn obligation(line: Result<Line, BookFault>) -> Result<i64, BookFault> {
        Ok(line?.obligation)
    }
}
