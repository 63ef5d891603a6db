// A run file's ladder, with buffers of its own.
// No heap, and fixed memory: the part of a buffer that is in use goes on as a slice.
ghost use Rattle.std.specs.Prelude.{◌≡◌, ◌≤◌, length};
ghost use Rattle.ladder_text.specs.RunFile.{fates_at};
ghost use Rattle.ladder_run.specs.Row.{FATES-MOST, COUNT-MOST};
ghost use Rattle.ladder_print.specs.Text.{text_of};
ghost use Rattle.ladder_print.specs.Start.{from_start_text, started_text};
ghost use Rattle.ladder_print.specs.Room.{Tries};

use crate::start::Start;
use crate::{climb, data};
use ladder_text::Misfit;

// The ladder of an input at its start, or the line that does not fit.
#[tactic(auto, unfolding(crate::specs::Text::text_of, status::specs::Result::or_refusal))]
pub(crate) fn start(input: &[u8]) -> Result<Start<'_>, Misfit>
    ensures { started_text result ≡ text_of input.now }
{
    let file = ladder_text::read_run_file(input)?;
    match ladder_run::set_up(file.run) {
        Ok(ladder) => Ok(Start {
            ladder,
            file,
            input,
        }),
        // there is no such line one (crate ladder_claim, `SetsUp`)
        Err(_) => Err(Misfit { line: 1 }),
    }
}

// The ladder in buffers for so many fates and bytes. It stays a function of its own, so that its buffers are in no
// caller's frame.
#[inline(never)]
fn from_start<const FATES: usize, const BYTES: usize>(s: Start, out: &mut [u8]) -> Option<usize>
    requires most { (FATES ≤ FATES-MOST) × (BYTES ≤ COUNT-MOST) }
    requires fates { length (fates_at s.input.now s.file.fates) ≤ FATES }
    requires bytes { s.file.run.count ≤ BYTES }
    ensures { Tries (from_start_text s.entry) out.old result out.new }
{
    let mut fates = [0; FATES];
    let mut sent = [0; BYTES];
    let mut received = [0; BYTES];
    let n = data::gather(s.input, s.file.fates, &mut fates);
    data::fill(&mut sent);
    let m = s.file.run.count as usize;
    climb::climb_if_room(s.ladder, &fates[..n], &sent[..m], &mut received[..m], out)
}

// Buffers for every run file.
pub(crate) fn in_large_buffers(s: Start, out: &mut [u8]) -> Option<usize>
    ensures { Tries (from_start_text s.entry) out.old result out.new }
{
    from_start::<21_844, 65_536>(s, out)
}

// Large buffers only where they are needed: a small run takes less time than their zeros.
pub(crate) fn from_start_if_room(s: Start, out: &mut [u8]) -> Option<usize>
    ensures { Tries (from_start_text s.entry) out.old result out.new }
{
    if 2_048 < s.file.run.count || 3_072 < s.input.len() {
        return in_large_buffers(s, out);
    }
    from_start::<1_024, 2_048>(s, out)
}
