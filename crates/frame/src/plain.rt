// Plain DATA frames, told by words: no reserved bit, no flag and no fill.
ghost use Rattle.std.specs.Prelude.{◌≡◌, true};
ghost use Rattle.frame.specs.PlainData.{is_plain_data, PlainData, transfer_tag};

use crate::types::DATA;
use crate::{byte, words};

// A plain DATA frame with these addresses, this tag and this offset. TPTT is not looked at.
pub fn is_data(b: &[u8], dest: u32, source: u32, tag: u16, offset: u32) -> bool
    ensures { (result ≡ is_plain_data b.now dest source tag offset) × (result ≡ true → PlainData b.now dest source tag offset) }
{
    let n = b.len();
    if (n < 28) | (0x100_0000 <= dest) | (0x100_0000 <= source) {
        return false;
    }
    let addresses = (dest.swap_bytes() + DATA as u32) as u64
        + (source.swap_bytes() as u64) * 4294967296;
    let last = words::get64(b, 16);
    (n <= 1048)
        & (n % 4 == 0)
        & (words::get64(b, 0) == addresses)
        & (words::get64(b, 8) == 0)
        & (last % 65536 == tag.swap_bytes() as u64)
        & (last / 4294967296 == offset.swap_bytes() as u64)
}

// The TPTT of any bytes, 0 where they end before it.
#[tactic(auto, unfolding(status::specs::Pick::pick))]
pub fn transfer_tag(b: &[u8]) -> u16
    ensures { result ≡ transfer_tag b.now }
{
    if b.len() < 20 {
        return 0;
    }
    byte::be16(b, 18)
}
