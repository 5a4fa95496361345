// A meter's sample, and its whole kW.
ghost use Rattle.std.specs.Prelude.{◌≡◌};
ghost use Rattle.events.specs.Samples.{kilowatts_of, reading_of};

use crate::fault::BookFault;
use crate::resource::ResourceKind;
use std::num::saturating_f32_to_u32;

const MAX_MEGAWATTS: f32 = 10000.0;

const KILOWATTS_PER_MEGAWATT: f32 = 1000.0;

// What a meter says: an output or a draw in MW, or nothing. Silence is a case beside the two, not the lack of one:
// it is accepted of both kinds of resources, a number only of its own.
#[derive(Clone, Copy)]
pub enum Sample {
    Output(f32),
    Draw(f32),
    Silent,
}

// The whole kW of a number of MW: one rounded product, with its fraction dropped.
fn kilowatts(megawatts: f32) -> Result<Option<u32>, BookFault>
    ensures { result ≡ kilowatts_of megawatts }
{
    if 0.0 <= megawatts && megawatts <= MAX_MEGAWATTS {
        Ok(Some(saturating_f32_to_u32(megawatts * KILOWATTS_PER_MEGAWATT)))
    } else {
        Err(BookFault::BadSample)
    }
}

impl Sample {
    // The reading of a sample at a resource of this kind: whole kW, or none where the meter was silent.
    pub fn reading(self, kind: ResourceKind) -> Result<Option<u32>, BookFault>
        ensures { result ≡ reading_of kind self }
    {
        match (kind, self) {
            (_, Sample::Silent) => Ok(None),
            (ResourceKind::Generator, Sample::Output(megawatts))
            | (ResourceKind::Demand, Sample::Draw(megawatts)) => kilowatts(megawatts),
            (ResourceKind::Generator, Sample::Draw(_))
            | (ResourceKind::Demand, Sample::Output(_)) => Err(BookFault::BadSample),
        }
    }
}
