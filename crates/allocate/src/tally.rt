// How the lines were answered, counted.
ghost use Rattle.std.specs.Prelude.{◌≡◌, Some};
ghost use Rattle.allocate.specs.Answers.{reply_of};
ghost use Rattle.allocate.specs.Tallies.{counted, summary_text};

use crate::answer::{Answer, NoShares};
use std::fmt;

// A count that passes `u64::MAX` stays there.
#[derive(Clone, Copy, Default)]
pub(crate) struct Tally {
    pub(crate) lines: u64,
    allocated: u64,
    refused: u64,
    malformed: u64,
}

impl Tally {
    // One more line, which was answered so.
    pub(crate) fn count(&mut self, answer: &Answer)
        ensures { self.new ≡ counted self.old (reply_of answer.now) }
    {
        self.lines = self.lines.saturating_add(1);
        match answer {
            Ok(_) => self.allocated = self.allocated.saturating_add(1),
            Err(NoShares::Refused(_)) => self.refused = self.refused.saturating_add(1),
            Err(NoShares::NotARequest) => self.malformed = self.malformed.saturating_add(1),
        }
    }
}

// The summary that ends the output.
impl fmt::Display for Tally {
    ghost output = { λ t. Some (summary_text t) };

    fn fmt<W: fmt::Write>(&self, f: &mut fmt::Formatter<W>) -> fmt::Result {
        let Tally {
            lines,
            allocated,
            refused,
            malformed,
        } = self;
        write!(
            f,
            "{lines} lines: {allocated} allocated, {refused} refused, {malformed} not a request"
        )
    }
}
