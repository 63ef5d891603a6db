// Printing into a lent buffer, with a test for room: at `at`, or not at all.
ghost use Rattle.std.specs.Prelude.{◌≡◌};
ghost use Rattle.ladder_text.specs.Place.{ended, has_room, Placed};

use crate::print::{self, Printable};

// The bytes that must remain in the buffer, whatever is printed.
pub const ROOM: usize = 64;

// Whether they remain from `at` on, in a buffer of `len` bytes.
fn room(len: usize, at: usize) -> bool
    ensures { result ≡ has_room len at }
{
    ROOM <= len && at <= len - ROOM
}

// A text; answers the place behind it, or `None` where there is no room.
#[tactic(auto, unfolding(crate::specs::Pick::pick))]
pub fn put<T: Printable>(out: &mut [u8], at: usize, x: T) -> Option<usize>
    ensures { Placed out.old at (T.text x) result out.new }
{
    if !room(out.len(), at) {
        return None;
    }
    Some(x.print(out, at))
}

// A text and the byte that ends it: a tab behind a field, a line feed behind a line.
#[tactic(auto, unfolding(crate::specs::Pick::pick))]
pub fn put_ended<T: Printable>(out: &mut [u8], at: usize, x: T, end: u8) -> Option<usize>
    ensures { Placed out.old at (ended end (T.text x)) result out.new }
{
    if !room(out.len(), at) {
        return None;
    }
    Some(print::print_ended(out, at, x, end))
}
