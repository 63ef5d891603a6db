// The frame reader.
ghost use Rattle.std.specs.Prelude.{◌≡◌, ◌≤◌, length};
ghost use Rattle.status.specs.Result.{or_refusal};
ghost use Rattle.frame.specs.Read.{fill_count, header_in, well_formed, decode};

use crate::byte;
use crate::types::{Header, Parsed};
use status::Refusal;

fn fill_count(b: &[u8]) -> usize
    requires { 24 ≤ length b.now }
    ensures { result ≡ fill_count b.now }
{
    (b[11] % 4) as usize
}

#[tactic(auto, unfolding(crate::specs::Read::header_in))]
fn header_of(b: &[u8]) -> Header
    requires { 24 ≤ length b.now }
    ensures { result ≡ header_in b.now }
{
    Header {
        frametype: b[0],
        dest: byte::be24(b, 1),
        source: byte::be24(b, 5),
        flags: byte::flags_of(b[10]),
        tag: byte::be16(b, 16),
        tptt: byte::be16(b, 18),
        offset: byte::be32(b, 20),
    }
}

fn well_formed(b: &[u8]) -> bool
    ensures { result ≡ well_formed b.now }
{
    let n = b.len();
    if n < 24 {
        return false;
    }
    let fill = fill_count(b);
    (n <= 1048) & (n % 4 == 0) & (fill <= n - 24)
}

// Any bytes: 5, 6, else header, start and length of the IU.
#[tactic(auto, unfolding(crate::specs::Read::decode, status::specs::Pick::pick))]
pub fn read(b: &[u8]) -> Result<Parsed, Refusal>
    ensures { or_refusal result ≡ decode b.now }
{
    if !well_formed(b) {
        return Err(Refusal::MalformedFrame);
    }
    if !byte::known(b[0]) {
        return Err(Refusal::UnexpectedFrameType);
    }
    Ok(Parsed {
        header: header_of(b),
        start: 24,
        len: b.len() - 24 - fill_count(b),
    })
}
