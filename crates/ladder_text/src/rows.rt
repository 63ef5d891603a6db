// Lines of several fields, read.
ghost use Rattle.std.specs.Prelude.{◌≡◌};
ghost use Rattle.ladder_text.specs.Rows.{number_at, within_limits, run_of, row_of, verdict_of, refused_of};

use crate::types::{Row, Run, Verdict};
use crate::{decimal, text, words};

// The number in field i of a line.
fn number_at(l: &[u8], i: usize) -> Option<u32>
    ensures { result ≡ number_at l.now i }
{
    decimal::read_number(text::field(l, i), u32::MAX)
}

// The limits of line one.
fn within_limits(r: Run) -> bool
    ensures { result ≡ within_limits r }
{
    (1 <= r.count)
        & (r.count <= 65_536)
        & (4 <= r.size)
        & (r.size <= 1024)
        & (r.size % 4 == 0)
        & (1 <= r.window)
        & (r.window <= 64)
        & (r.limit <= 15)
}

// Line one of a run file.
#[tactic(auto, unfolding(crate::specs::Rows::run_of, crate::specs::Rows::quad_at, crate::specs::Pick::pick))]
pub fn read_run(l: &[u8]) -> Option<Run>
    ensures { result ≡ run_of l.now }
{
    if text::field_count(l) != 5 {
        return None;
    }
    let r = Run {
        direction: words::read_direction(text::field(l, 0))?,
        count: number_at(l, 1)?,
        size: number_at(l, 2)?,
        window: number_at(l, 3)?,
        limit: number_at(l, 4)?,
    };
    if within_limits(r) { Some(r) } else { None }
}

// A frame's row of a ladder.
#[tactic(auto, unfolding(crate::specs::Rows::row_of, crate::specs::Rows::quad_at, crate::specs::Pick::pick))]
pub fn read_row(l: &[u8]) -> Option<Row>
    ensures { result ≡ row_of l.now }
{
    if text::field_count(l) != 6 {
        return None;
    }
    Some(Row {
        frame: number_at(l, 0)?,
        offset: number_at(l, 1)?,
        bytes: number_at(l, 2)?,
        cdp: number_at(l, 3)?,
        fate: words::read_fate(text::field(l, 4))?,
        receipt: words::read_receipt(text::field(l, 5))?,
    })
}

// The last line of a ladder.
#[tactic(auto, unfolding(crate::specs::Rows::verdict_of, crate::specs::Rows::quad_at, crate::specs::Pick::pick))]
pub fn read_verdict(l: &[u8]) -> Option<Verdict>
    ensures { result ≡ verdict_of l.now }
{
    if text::field_count(l) != 5 {
        return None;
    }
    Some(Verdict {
        outcome: words::read_outcome(text::field(l, 0))?,
        number: number_at(l, 1)?,
        frames: number_at(l, 2)?,
        faults: number_at(l, 3)?,
        filled: number_at(l, 4)?,
    })
}

// The line number of a refusal.
#[tactic(auto, unfolding(crate::specs::Rows::refused_of, crate::specs::Pick::pick))]
pub fn read_refused(l: &[u8]) -> Option<u32>
    ensures { result ≡ refused_of l.now }
{
    if text::field_count(l) != 2 {
        return None;
    }
    if text::field(l, 0) != b"refused".as_slice() {
        return None;
    }
    number_at(l, 1)
}
