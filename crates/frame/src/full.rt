// The writer's short way, for a frame that nothing refuses and that needs no fill.
ghost use Rattle.std.specs.Prelude.{◌≡◌, length};
ghost use Rattle.frame.specs.Full.{is_full, put_full};

use crate::types::Header;
use crate::{encode, words};

// True and the frame at the front of the output buffer; for any other frame false, and no byte changes.
#[tactic(auto, unfolding(crate::specs::Full::is_full, status::specs::Pick::pick))]
pub fn write_full(h: Header, iu: &[u8], out: &mut [u8]) -> bool
    ensures { (result ≡ is_full h (length iu.now) (length out.old)) × (out.new ≡ put_full h iu.now out.old) }
{
    let n = iu.len();
    if !(encode::can_write(h, n) & (n % 4 == 0) & (24 + n <= out.len())) {
        return false;
    }
    encode::place_header(h, 0, out);
    words::copy(iu, &mut out[24..]);
    true
}
