// Every refusal of the inputs at its edge, the order of refusals, and what the questions answer.
#![tactic(auto)]

#[cfg(test)]
mod tests {
    use events::event::Edge;
    use events::fault::BookFault;
    use events::resource::ResourceKind;
    use events::sample::Sample;
    use hours::assignment::Assignment;
    use inputs::tables::Tables;
    use std::num::f32_from_bits_with_nan;
    use std::test::Fail;

    // The answer, or the refusal by the number by which it is known outside.
    fn numbered(answer: Result<usize, BookFault>) -> Result<usize, u8> {
        answer.map_err(BookFault::number)
    }

    // Members AA, BB and CC, a generator G1 of AA and a demand resource D1 of BB.
    fn small_day() -> Tables {
        let mut day = Tables::open();
        for code in [b"AA", b"BB", b"CC"] {
            let _ = day.enrol(code);
        }
        let _ = day.register(b"G1", b"AA", ResourceKind::Generator, 0);
        let _ = day.register(b"D1", b"BB", ResourceKind::Demand, 0);
        day
    }

    #[test]
    fn codes(rt: HostRuntime) {
        let mut day = Tables::open();
        assert_eq!(rt; numbered(day.enrol(b"")), Err(1));
        assert_eq!(rt; numbered(day.enrol(b"ABCDEFG")), Err(1));
        assert_eq!(rt; numbered(day.enrol(b"aB")), Err(1));
        assert_eq!(rt; numbered(day.enrol(b"A B")), Err(1));
        assert_eq!(rt; numbered(day.enrol(b"A\0")), Err(1));
        assert_eq!(rt; day.enrol(b"A"), Ok(0));
        assert_eq!(rt; day.enrol(b"Z9Z9Z9"), Ok(1));
        assert_eq!(rt; numbered(day.enrol(b"A")), Err(2));
        assert_eq!(rt; day.member_count(), 2);
        assert_eq!(rt; day.member_place(b"Z9Z9Z9"), Ok(1));
        assert_eq!(rt; day.member_place(b"Z9Z9Z"), Err(BookFault::NoSuchMember));
    }

    #[test]
    fn members_full(rt: HostRuntime) {
        let mut day = Tables::open();
        for i in 0..16u8 {
            assert_eq!(rt; day.enrol(&[b'M', b'A' + i]), Ok(usize::from(i)));
        }
        assert_eq!(rt; numbered(day.enrol(b"N")), Err(3));
        assert_eq!(rt; numbered(day.enrol(b"MA")), Err(2));
        assert_eq!(rt; numbered(day.enrol(b"n")), Err(1));
        assert_eq!(rt; day.member_count(), 16);
    }

    #[test]
    fn resources(rt: HostRuntime) {
        let mut day = Tables::open();
        let _ = day.enrol(b"AA");
        let kind = ResourceKind::Generator;
        assert_eq!(rt;
            numbered(day.register(b"g", b"ZZ", kind, 4_000_001)),
            Err(1)
        );
        assert_eq!(rt;
            numbered(day.register(b"G", b"ZZ", kind, 4_000_001)),
            Err(4)
        );
        assert_eq!(rt;
            numbered(day.register(b"G", b"AA", kind, 4_000_001)),
            Err(8)
        );
        assert_eq!(rt; day.register(b"G", b"AA", kind, 4_000_000), Ok(0));
        assert_eq!(rt;
            numbered(day.register(b"G", b"AA", kind, 4_000_001)),
            Err(8)
        );
        assert_eq!(rt; numbered(day.register(b"G", b"AA", kind, 0)), Err(2));
        for i in 1..16u8 {
            assert_eq!(rt;
                day.register(&[b'G', b'A' + i], b"AA", kind, 0),
                Ok(usize::from(i))
            );
        }
        assert_eq!(rt; numbered(day.register(b"H", b"AA", kind, 0)), Err(3));
        assert_eq!(rt; numbered(day.register(b"G", b"AA", kind, 0)), Err(2));
        assert_eq!(rt; day.resource_count(), 16);
    }

    #[test]
    fn hours_and_loads(rt: HostRuntime) {
        let mut day = small_day();
        assert_eq!(rt; numbered(day.set_load(0, b"ZZ", 100_000_001)), Err(6));
        assert_eq!(rt; numbered(day.set_load(25, b"AA", 1)), Err(6));
        assert_eq!(rt; numbered(day.set_load(u64::MAX, b"AA", 1)), Err(6));
        assert_eq!(rt; numbered(day.set_load(1, b"ZZ", 100_000_001)), Err(4));
        assert_eq!(rt; numbered(day.set_load(1, b"AA", 100_000_001)), Err(7));
        assert_eq!(rt; day.set_load(1, b"AA", 100_000_000), Ok(0));
        assert_eq!(rt; day.set_load(24, b"BB", 7), Ok(0));
        assert_eq!(rt; day.load(1, b"AA"), Ok(100_000_000));
        assert_eq!(rt; day.load(24, b"BB"), Ok(7));
        assert_eq!(rt; day.load(24, b"AA"), Ok(0));
        assert_eq!(rt; day.load(0, b"ZZ"), Err(BookFault::BadHour));
        assert_eq!(rt; day.load(1, b"ZZ"), Err(BookFault::NoSuchMember));
    }

    #[test]
    fn prices(rt: HostRuntime) {
        let mut day = small_day();
        assert_eq!(rt; numbered(day.set_prices(0, 400_001, 0)), Err(6));
        assert_eq!(rt; numbered(day.set_prices(18, 400_001, 0)), Err(8));
        assert_eq!(rt; numbered(day.set_prices(18, 0, 400_001)), Err(8));
        assert_eq!(rt; day.set_prices(18, 400_000, 400_000), Ok(0));
        assert_eq!(rt; day.prices(18), Ok((400_000, 400_000)));
        assert_eq!(rt; day.prices(17), Ok((0, 0)));
        assert_eq!(rt; day.prices(25), Err(BookFault::BadHour));
        assert_eq!(rt; day.is_settled(18), Ok(false));
        assert_eq!(rt; day.is_settled(0), Err(BookFault::BadHour));
    }

    #[test]
    fn assignments(rt: HostRuntime) {
        let mut day = small_day();
        let large = Assignment::PoolScheduled {
            kwh: 500_001,
            offer: 400_001,
            costs: 300_000_001,
        };
        let dear = Assignment::PoolScheduled {
            kwh: 500_000,
            offer: 400_001,
            costs: 0,
        };
        let costly = Assignment::PoolScheduled {
            kwh: 500_000,
            offer: 400_000,
            costs: 300_000_001,
        };
        let most = Assignment::PoolScheduled {
            kwh: 500_000,
            offer: 400_000,
            costs: 300_000_000,
        };
        assert_eq!(rt; numbered(day.assign(0, b"ZZ", large)), Err(6));
        assert_eq!(rt; numbered(day.assign(1, b"ZZ", large)), Err(5));
        assert_eq!(rt; numbered(day.assign(1, b"G1", large)), Err(7));
        assert_eq!(rt; numbered(day.assign(1, b"G1", dear)), Err(8));
        assert_eq!(rt; numbered(day.assign(1, b"G1", costly)), Err(8));
        assert_eq!(rt; day.assign(1, b"G1", most), Ok(0));
        assert_eq!(rt;
            numbered(day.assign(1, b"G1", Assignment::TierOne { kwh: 500_001 })),
            Err(7)
        );
        assert_eq!(rt;
            day.assign(1, b"G1", Assignment::TierOne { kwh: 500_000 }),
            Ok(0)
        );
        assert_eq!(rt;
            numbered(day.assign(1, b"D1", Assignment::SelfScheduled { kwh: 500_001 })),
            Err(7)
        );
        assert_eq!(rt;
            day.assign(1, b"D1", Assignment::SelfScheduled { kwh: 500_000 }),
            Ok(0)
        );
        assert_eq!(rt; day.assign(1, b"G1", Assignment::Unassigned), Ok(0));
    }

    #[test]
    fn trade_refusals(rt: HostRuntime) {
        let mut day = small_day();
        assert_eq!(rt; numbered(day.set_trade(0, b"ZZ", b"AA", 1)), Err(6));
        assert_eq!(rt; numbered(day.set_trade(1, b"ZZ", b"AA", 1)), Err(4));
        assert_eq!(rt; numbered(day.set_trade(1, b"AA", b"ZZ", 1)), Err(4));
        assert_eq!(rt; numbered(day.set_trade(1, b"AA", b"AA", 500_001)), Err(9));
        assert_eq!(rt; numbered(day.set_trade(1, b"AA", b"BB", 500_001)), Err(7));
        assert_eq!(rt; day.set_trade(1, b"AA", b"BB", 500_000), Ok(0));
        assert_eq!(rt; day.trade(1, b"AA", b"BB"), Ok(500_000));
        assert_eq!(rt; day.trade(1, b"BB", b"AA"), Ok(0));
        assert_eq!(rt; day.trade_count(), 1);
        assert_eq!(rt; day.set_trade(1, b"AA", b"BB", 0), Ok(0));
        assert_eq!(rt; day.trade_count(), 0);
    }

    // Sixty-four trades: each hour AA to BB and BB to AA, and AA to CC in the first sixteen.
    fn busy_day() -> Tables {
        let mut day = small_day();
        for hour in 1..25u64 {
            let _ = day.set_trade(hour, b"AA", b"BB", hour);
            let _ = day.set_trade(hour, b"BB", b"AA", 100);
            if hour <= 16 {
                let _ = day.set_trade(hour, b"AA", b"CC", 1);
            }
        }
        day
    }

    #[test]
    fn trades_full(rt: HostRuntime) {
        let mut day = busy_day();
        assert_eq!(rt; day.trade_count(), 64);
        assert_eq!(rt; numbered(day.set_trade(17, b"AA", b"CC", 1)), Err(10));
        assert_eq!(rt; numbered(day.set_trade(17, b"AA", b"CC", 500_001)), Err(7));
        assert_eq!(rt; day.set_trade(17, b"AA", b"CC", 0), Ok(0));
        assert_eq!(rt; day.set_trade(7, b"AA", b"BB", 500), Ok(0));
        assert_eq!(rt; day.trade(7, b"AA", b"BB"), Ok(500));
        assert_eq!(rt; day.set_trade(3, b"BB", b"AA", 0), Ok(0));
        assert_eq!(rt; day.trade_count(), 63);
        assert_eq!(rt; day.set_trade(17, b"AA", b"CC", 9), Ok(0));
        assert_eq!(rt; day.trade_count(), 64);
        assert_eq!(rt; day.trade(24, b"AA", b"BB"), Ok(24));
        assert_eq!(rt; numbered(day.set_trade(3, b"BB", b"AA", 1)), Err(10));
    }

    #[test]
    fn event_states(rt: HostRuntime) {
        let mut day = small_day();
        assert_eq!(rt; numbered(day.close_event(1441)), Err(12));
        assert_eq!(rt; numbered(day.cancel_event()), Err(12));
        assert_eq!(rt;
            numbered(day.read(b"ZZ", Edge::Start, Sample::Silent)),
            Err(12)
        );
        assert_eq!(rt; day.begin_event(600), Ok(0));
        assert_eq!(rt; numbered(day.begin_event(5000)), Err(11));
        assert_eq!(rt;
            numbered(day.read(b"ZZ", Edge::Start, Sample::Draw(1.0))),
            Err(5)
        );
        assert_eq!(rt; day.cancel_event(), Ok(0));
        assert_eq!(rt; numbered(day.cancel_event()), Err(12));
        assert!(rt; day.closed_events().is_empty());
        assert!(rt; day.running_event().is_none());
    }

    #[test]
    fn event_minutes(rt: HostRuntime) {
        let mut day = small_day();
        assert_eq!(rt; numbered(day.begin_event(1440)), Err(13));
        assert_eq!(rt; day.begin_event(1439), Ok(0));
        assert_eq!(rt; numbered(day.close_event(1438)), Err(13));
        assert_eq!(rt; numbered(day.close_event(1441)), Err(13));
        assert_eq!(rt; day.cancel_event(), Ok(0));
        assert_eq!(rt; day.begin_event(100), Ok(0));
        assert_eq!(rt; day.close_event(100), Ok(0));
        assert_eq!(rt; numbered(day.begin_event(99)), Err(13));
        assert_eq!(rt; day.begin_event(100), Ok(0));
        assert_eq!(rt; day.close_event(110), Ok(0));
        assert_eq!(rt; day.begin_event(1439), Ok(0));
        assert_eq!(rt; day.close_event(1440), Ok(0));
        assert_eq!(rt; numbered(day.begin_event(1439)), Err(13));
    }

    #[test]
    fn events_full(rt: HostRuntime) {
        let mut day = small_day();
        for i in 0..4u64 {
            assert_eq!(rt; day.begin_event(i), Ok(0));
            assert_eq!(rt; day.close_event(i), Ok(0));
        }
        assert_eq!(rt; numbered(day.begin_event(5000)), Err(14));
        assert_eq!(rt; numbered(day.close_event(4)), Err(12));
        assert_eq!(rt; day.closed_events().len(), 4);
    }

    // What a sample of the generator at the end of an event answers, and the reading that then stands.
    fn sampled(bits: u32) -> (Result<usize, u8>, Option<u32>) {
        let mut day = small_day();
        let _ = day.begin_event(0);
        let sample = Sample::Output(f32_from_bits_with_nan(bits));
        let answer = numbered(day.read(b"G1", Edge::End, sample));
        let _ = day.close_event(10);
        let event = day.closed_events().first();
        (answer, event.and_then(|event| event.readings[0].end))
    }

    #[test]
    fn samples(rt: HostRuntime) {
        assert_eq!(rt; sampled(0x42C8_0000), (Ok(0), Some(100_000)), "100");
        assert_eq!(rt; sampled(0x0000_0000), (Ok(0), Some(0)), "0");
        assert_eq!(rt; sampled(0x8000_0000), (Ok(0), Some(0)), "-0");
        assert_eq!(rt; sampled(0x8000_0001), (Err(15), None), "just below 0");
        assert_eq!(rt; sampled(0x461C_4000), (Ok(0), Some(10_000_000)), "10000");
        assert_eq!(rt; sampled(0x461C_4001), (Err(15), None), "just above 10000");
        assert_eq!(rt; sampled(0x7F80_0000), (Err(15), None), "infinity");
        assert_eq!(rt; sampled(0xFF80_0000), (Err(15), None), "minus infinity");
        assert_eq!(rt; sampled(0x7FC0_0000), (Err(15), None), "no number");
        assert_eq!(rt; sampled(0x3A83_126F), (Ok(0), Some(1)), "0.001");
    }

    #[test]
    fn kinds_of_samples(rt: HostRuntime) -> Result<(), Fail> {
        let mut day = small_day();
        assert_eq!(rt; day.begin_event(0), Ok(0));
        assert_eq!(rt;
            numbered(day.read(b"G1", Edge::Start, Sample::Draw(1.0))),
            Err(15)
        );
        assert_eq!(rt;
            numbered(day.read(b"D1", Edge::Start, Sample::Output(1.0))),
            Err(15)
        );
        assert_eq!(rt; day.read(b"D1", Edge::Start, Sample::Draw(1.0)), Ok(0));
        assert_eq!(rt; day.read(b"G1", Edge::Start, Sample::Output(2.0)), Ok(0));
        assert_eq!(rt; day.read(b"G1", Edge::Start, Sample::Silent), Ok(0));
        assert_eq!(rt; day.read(b"D1", Edge::End, Sample::Silent), Ok(0));
        assert_eq!(rt; day.close_event(10), Ok(0));
        let [event, ..] = day.closed_events() else {
            return Err(Fail::new("no closed event"));
        };
        assert_eq!(rt; event.readings[0].start, None);
        assert_eq!(rt; event.readings[1].start, Some(1000));
        assert_eq!(rt; event.readings[1].end, None);
        Ok(())
    }
}
