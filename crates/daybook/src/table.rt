// The lines of the hours, in memory.
ghost use Rattle.std.specs.Prelude.{◌≡◌, ℕ, ◌<◌, [], length, replicate, slice_index_or, slice_set};
ghost use Rattle.settlement.specs.Settlement.{line_at, zero_line};

use rolls::hour::HourPlace;
use rolls::limits::{HOURS, MAX_MEMBERS};
use settlement::line::Line;

// By the hour's place, then by the member's.
#[derive(Drop)]
pub struct LineTable {
    pub(crate) rows: [[Line; MAX_MEMBERS]; HOURS],
    ghost wide: { (h : ℕ) → h < 24 → length (slice_index_or rows h []) ≡ 16 },
}

impl LineTable {
    // No line but zero lines.
    pub(crate) fn blank() -> LineTable
        ensures { result.rows ≡ replicate 24 (replicate 16 zero_line) }
    {
        LineTable {
            rows: [[Line::ZERO; MAX_MEMBERS]; HOURS],
        }
    }

    // Sets the lines of an hour.
    pub(crate) fn set(&mut self, hour: HourPlace, lines: [Line; MAX_MEMBERS])
        ensures { self.new.rows ≡ slice_set self.old.rows hour.place lines }
    {
        self.rows[hour.index()] = lines;
    }

    // The line at a member's place; past the last place it is zero.
    pub(crate) fn at(&self, hour: HourPlace, member: usize) -> Line
        ensures { result ≡ line_at (slice_index_or self.now.rows hour.place []) member }
    {
        let row = &self.rows[hour.index()];
        row.get(member).copied().unwrap_or(Line::ZERO)
    }
}
