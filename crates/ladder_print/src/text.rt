// The whole text of a run file's ladder.
ghost use Rattle.ladder_print.specs.Text.{misfit_text, text_of, Prints};
ghost use Rattle.ladder_print.specs.Room.{Tries, PrintsIfRoom};

use crate::run;
use ladder_text::{Misfit, ROOM};

// The bytes with which an output buffer has room for every ladder: 35 for each of 38,292 lines, and the room that a
// line's printer asks for.
pub const TEXT_MOST: usize = 1_340_284;

// The line that does not fit.
fn refuse(m: Misfit, out: &mut [u8]) -> Option<usize>
    ensures { Tries (misfit_text m) out.old result out.new }
{
    ladder_text::put_ended(out, 0, m, b'\n')
}

// Any input, any buffer: the ladder, or the line that does not fit, at the front of the buffer; how many bytes.
// `None` where the buffer is shorter than `TEXT_MOST`: then it is left as it was.
#[tactic(auto, using(crate::proofs::Tried::printed, crate::proofs::Tried::tries_as))]
pub fn print_ladder(input: &[u8], out: &mut [u8]) -> Option<usize>
    ensures { Prints (text_of input.now) out.old result out.new }
{
    if out.len() < TEXT_MOST {
        return None;
    }
    match run::start(input) {
        Ok(s) => run::in_large_buffers(s, out),
        Err(m) => refuse(m, out),
    }
}

// The same line by line, as far as there is room.
#[tactic(auto, using(crate::proofs::Tried::tries_as))]
fn whole(input: &[u8], out: &mut [u8]) -> Option<usize>
    ensures { Tries (text_of input.now) out.old result out.new }
{
    if out.len() < ROOM {
        return None;
    }
    match run::start(input) {
        Ok(s) => run::from_start_if_room(s, out),
        Err(m) => refuse(m, out),
    }
}

// The same in a buffer that may be too short for this input's text: then `None`, and it is zeroed, so that no part of a
// ladder stays.
pub fn print_if_room(input: &[u8], out: &mut [u8]) -> Option<usize>
    ensures { PrintsIfRoom (text_of input.now) out.old result out.new }
{
    match whole(input, out) {
        Some(n) if n + ROOM <= out.len() => Some(n),
        _ => {
            out.fill(0);
            None
        }
    }
}
