// The worked examples run through the code.
use crate::list::{AllocationExample, SampleExample, WorkedExample};
use allocation::cumulative::CumulativeRounding;
use allocation::remainder::LargestRemainder;
use allocation::rule::{AllocationRule, MAX_WEIGHTS, allocate_by};
use events::resource::ResourceKind;
use events::sample::Sample;
use std::num::f32_from_bits_with_nan;

// Whether the rule accepts the example and gives these shares.
fn gives<R: AllocationRule>(rule: &R, example: &AllocationExample<'_>, shares: &[i64]) -> bool {
    // Room of fixed size, as a caller with no heap has it.
    let mut room = [0i64; MAX_WEIGHTS];
    let Some(out) = room.get_mut(..example.weights.len()) else {
        return false;
    };
    allocate_by(rule, example.amount, example.weights, out).is_ok() && *out == *shares
}

fn allocates(example: &AllocationExample<'_>) -> bool {
    gives(&CumulativeRounding, example, example.cumulative)
        && gives(&LargestRemainder, example, example.remainder)
}

fn reads(example: &SampleExample) -> bool {
    let sample = Sample::Output(f32_from_bits_with_nan(example.bits));
    sample.reading(ResourceKind::Generator) == Ok(Some(example.kilowatts))
}

// Whether the code gives what the example says.
pub(crate) fn holds(example: &WorkedExample<'_>) -> bool {
    match example {
        WorkedExample::Allocation(allocation) => allocates(allocation),
        WorkedExample::Sample(sample) => reads(sample),
    }
}

#[cfg(test)]
mod tests {
    use super::*;
    use crate::list::worked_examples;

    #[test]
    fn worked_examples_hold(rt: HostRuntime) {
        for example in worked_examples() {
            assert!(rt; holds(&example));
        }
    }
}
