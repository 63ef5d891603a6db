// The next line of a ladder.
// The fates stay bytes: see src/fates.rt.
// A ladder and its fates come side by side, as the public functions take them.
ghost use Rattle.std.specs.Prelude.{◌≡◌};
ghost use Rattle.ladder_run.specs.Row.{next_line_by};
ghost use Rattle.ladder_run.specs.Line.{outcome_of, number_of, verdict_of, lastly, line_of};

use crate::types::{Ladder, Line, Next, Report};
use crate::{ends, fates, round, row};
use ladder_text::{Outcome, Row, Verdict};

fn outcome(r: Option<Report>) -> Outcome
    ensures { result ≡ outcome_of r }
{
    match r {
        Some(Report::Delivered(_)) => Outcome::Delivered,
        _ => Outcome::Failed,
    }
}

fn number(r: Option<Report>) -> u32
    ensures { result ≡ number_of r }
{
    match r {
        Some(Report::Failed(f, _)) => u32::from(f),
        _ => 0,
    }
}

// The last line, as the ladder stands.
pub fn verdict(l: Ladder, fates: &[u8]) -> Verdict
    ensures { result ≡ verdict_of fates.now l }
{
    Verdict {
        outcome: outcome(l.report),
        number: number(l.report),
        frames: l.frames,
        faults: fates::faults(fates, l.frames),
        filled: ends::filled(l.receiving),
    }
}

// A new round has begun: its first frame, or none is due and the ladder is over.
fn begin(x: Next<Option<Row>>, fates: &[u8]) -> Next<Line>
    ensures { result ≡ lastly fates.now x.ladder x.line }
{
    Next {
        ladder: x.ladder,
        line: match x.line {
            Some(r) => Line::Row(r),
            None => Line::Verdict(verdict(x.ladder, fates)),
        },
    }
}

// The next row, or the verdict once nothing more is due: the fates, the data sent, the data received.
// After the verdict the same again.
#[tactic(auto, unfolding(crate::specs::Line::line_of))]
pub fn next_line(l: Ladder, fates: &[u8], source: &[u8], received: &mut [u8]) -> Next<Line>
    ensures { next_line_by result received.new ≡ line_of l fates.now source.now received.old }
{
    let x = row::frame_out(l, fates, source, received);
    match x.line {
        Some(r) => Next {
            ladder: x.ladder,
            line: Line::Row(r),
        },
        None => {
            let y = round::close(x.ladder, fates);
            begin(row::frame_out(y, fates, source, received), fates)
        }
    }
}
