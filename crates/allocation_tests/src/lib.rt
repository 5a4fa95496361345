// The edges of what a rule refuses, run under both rules.
#![tactic(auto)]

#[cfg(test)]
mod tests {
    use allocation::cumulative::CumulativeRounding;
    use allocation::refusal::AllocationRefusal;
    use allocation::remainder::LargestRemainder;
    use allocation::rule::AllocationRule;
    use std::process::Abort;

    const ROOM: usize = 65;
    // What stands in the places before the call.
    const UNTOUCHED: i64 = 77;

    #[derive(Clone, Copy)]
    struct Case<'a> {
        name: &'static str,
        amount: i64,
        weights: &'a [i64],
        places: usize,
        refusal: Option<AllocationRefusal>,
    }

    // A case with a place for each weight.
    fn made<'a>(
        name: &'static str,
        amount: i64,
        weights: &'a [i64],
        refusal: Option<AllocationRefusal>,
    ) -> Case<'a> {
        Case {
            name,
            amount,
            weights,
            places: weights.len(),
            refusal,
        }
    }

    fn all_untouched(places: &[i64]) -> bool {
        places.iter().all(|share| *share == UNTOUCHED)
    }

    // Whether the rule refuses as the case says and then leaves the places as they were, or accepts.
    fn answers<R: AllocationRule>(rule: &R, case: &Case<'_>) -> bool {
        // Room of fixed size, as a caller with no heap has it.
        let mut room = [UNTOUCHED; ROOM];
        let Some(out) = room.get_mut(..case.places) else {
            return false;
        };
        match (rule.allocate(case.amount, case.weights, out), case.refusal) {
            (Ok(()), None) => true,
            (Err(refusal), Some(expected)) => refusal == expected && all_untouched(out),
            _ => false,
        }
    }

    fn check_cases(rt: &impl Abort, cases: &[Case<'_>]) {
        for case in cases {
            assert!(rt; answers(&CumulativeRounding, case), "{}", case.name);
            assert!(rt; answers(&LargestRemainder, case), "{}", case.name);
        }
    }

    #[test]
    fn counts(rt: HostRuntime) {
        let bad = Some(AllocationRefusal::BadCount);
        let cases = [
            made("no weights", 5, &[], bad),
            made("one weight", 5, &[1], None),
            made("64 weights", 5, &[1; 64], None),
            made("65 weights", 5, &[1; 65], bad),
            made("65 weights and a negative amount", -5, &[1; 65], bad),
            Case {
                places: 1,
                ..made("one place too few", 5, &[1, 1], bad)
            },
            Case {
                places: 3,
                ..made("one place too many", 5, &[1, 1], bad)
            },
        ];
        check_cases(&rt, &cases);
    }

    #[test]
    fn amounts(rt: HostRuntime) {
        let out = Some(AllocationRefusal::OutOfRange);
        let cases = [
            made("amount 0", 0, &[1], None),
            made("amount -1", -1, &[1], out),
            made("smallest amount", i64::MIN, &[1], out),
            made("largest amount", i64::MAX, &[1], out),
            made("4 * 10^18 by 1", 4_000_000_000_000_000_000, &[1], None),
            made("4 * 10^18 + 1 by 1", 4_000_000_000_000_000_001, &[1], out),
        ];
        check_cases(&rt, &cases);
    }

    #[test]
    fn magnitudes(rt: HostRuntime) {
        let out = Some(AllocationRefusal::OutOfRange);
        let cases = [
            made("smallest weight", 0, &[i64::MIN], out),
            made("two smallest", 0, &[i64::MIN, i64::MIN], out),
            made("largest weights", 0, &[i64::MAX, i64::MAX], out),
            made("2,000,000,000", 1, &[1_500_000_000, -500_000_000], None),
            made("2,000,000,001", 1, &[1_500_000_000, -500_000_001], out),
            made("4 * 10^18", 2_000_000_000, &[2_000_000_000], None),
            made("above", 2_000_000_001, &[2_000_000_000], out),
        ];
        check_cases(&rt, &cases);
    }

    #[test]
    fn sums(rt: HostRuntime) {
        let none = Some(AllocationRefusal::NoWeight);
        let out = Some(AllocationRefusal::OutOfRange);
        let cases = [
            made("sum of 1", 7, &[3, -2], None),
            made("sum of 0", 7, &[3, -3], none),
            made("one weight of 0", 7, &[0], none),
            made("sum of -1", 7, &[3, -4], none),
            made("sum of -1 and a negative amount", -7, &[3, -4], out),
        ];
        check_cases(&rt, &cases);
    }
}
