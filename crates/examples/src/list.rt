// The list of worked examples.
ghost use Rattle.std.specs.Prelude.{All};
ghost use Rattle.examples.specs.Examples.{Stands};

use std::fmt;

// An amount and weights, with the shares that each rule gives.
#[derive(Clone, Copy)]
pub struct AllocationExample<'a> {
    pub amount: i64,
    pub weights: &'a [i64],
    pub cumulative: &'a [i64],
    pub remainder: &'a [i64],
}

impl fmt::Display for AllocationExample<'_> {
    fn fmt<W: fmt::Write>(&self, f: &mut fmt::Formatter<W>) -> fmt::Result {
        write!(f, "{} by {:?}: ", self.amount, self.weights)?;
        write!(f, "cumulative {:?}, ", self.cumulative)?;
        write!(f, "largest remainder {:?}", self.remainder)
    }
}

// The bits of a 32-bit float in MW, with the whole kW that it is read as.
#[derive(Clone, Copy)]
pub struct SampleExample {
    pub bits: u32,
    pub kilowatts: u32,
}

impl fmt::Display for SampleExample {
    fn fmt<W: fmt::Write>(&self, f: &mut fmt::Formatter<W>) -> fmt::Result {
        write!(f, "sample {:08X}: {} kW", self.bits, self.kilowatts)
    }
}

#[derive(Clone, Copy)]
pub enum WorkedExample<'a> {
    Allocation(AllocationExample<'a>),
    Sample(SampleExample),
}

impl fmt::Display for WorkedExample<'_> {
    fn fmt<W: fmt::Write>(&self, f: &mut fmt::Formatter<W>) -> fmt::Result {
        match self {
            WorkedExample::Allocation(allocation) => write!(f, "{allocation}"),
            WorkedExample::Sample(sample) => write!(f, "{sample}"),
        }
    }
}

// The examples, each of which the definitions bear out.
pub fn worked_examples() -> [WorkedExample<'static>; 4]
    ensures { All Stands result }
{
    [
        WorkedExample::Allocation(AllocationExample {
            amount: 1000,
            weights: &[30000, 30000, 30000],
            cumulative: &[333, 334, 333],
            remainder: &[334, 333, 333],
        }),
        WorkedExample::Allocation(AllocationExample {
            amount: 10000,
            weights: &[3, 11],
            cumulative: &[2143, 7857],
            remainder: &[2143, 7857],
        }),
        WorkedExample::Allocation(AllocationExample {
            amount: 5,
            weights: &[-1, 3],
            cumulative: &[-2, 7],
            remainder: &[-2, 7],
        }),
        WorkedExample::Sample(SampleExample {
            bits: 0x42C8_0000,
            kilowatts: 100_000,
        }),
    ]
}
