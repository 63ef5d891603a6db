// The lines of a ladder, one below the other.
// The fates stay bytes: see ladder_run src/fates.rt.
ghost use Rattle.ladder_run.specs.Whole.{whole_of};
ghost use Rattle.ladder_print.specs.Text.{whole_text};
ghost use Rattle.ladder_print.specs.Room.{Tries};

use ladder_run::{Ladder, Line};

// The ladder's rows and its verdict, from the front of `out` on; how many bytes, or `None` where a line has no room.
pub(crate) fn climb_if_room(
    start: Ladder,
    fates: &[u8],
    source: &[u8],
    received: &mut [u8],
    out: &mut [u8],
) -> Option<usize>
    ensures { Tries (whole_text fates.now (whole_of fates.now source.now start received.old)) out.old result out.new }
{
    let mut l = start;
    let mut at = 0;
    for _ in 0..=Ladder::ROWS_MOST {
        let x = ladder_run::next_line(l, fates, source, received);
        l = x.ladder;
        let Line::Row(r) = x.line else { break };
        at = ladder_text::put_ended(out, at, r, b'\n')?;
    }
    ladder_text::put_ended(out, at, ladder_run::verdict(l, fates), b'\n')
}
