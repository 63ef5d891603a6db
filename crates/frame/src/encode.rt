// The frame writer: a data step and a header step.
// Header, IU and output buffer come side by side, as the public writers take them. `place` asks for room, so no other
// crate
// can have it.
ghost use Rattle.std.specs.Prelude.{◌≡◌, ℕ, ◌+◌, ◌≤◌, List, length};
ghost use Rattle.status.specs.Result.{or_refusal};
ghost use Rattle.frame.specs.Format.{fill_of, header_bytes, data_bytes, encode};
ghost use Rattle.frame.specs.Write.{writable, write_answer, put, placed};
ghost use Rattle.frame.specs.TwoSteps.{put_data, put_header};

use crate::types::Header;
use crate::{byte, words};
use status::Refusal;

// The fill bytes after an IU of n bytes.
pub(crate) fn fill_of(n: usize) -> usize
    ensures { result ≡ fill_of n }
{
    (4 - n % 4) % 4
}

pub(crate) fn can_write(h: Header, n: usize) -> bool
    ensures { result ≡ writable h n }
{
    byte::known(h.frametype)
        & (h.dest < 0x100_0000)
        & (h.source < 0x100_0000)
        & (h.flags.tlr < 4)
        & (n <= 1024)
}

// Puts src down at `at`.
#[tactic(auto, using(crate::proofs::Place::copied_over))]
fn place(src: &[u8], dst: &mut [u8], at: usize)
    requires { at + length src.now ≤ length dst.old }
    ensures { dst.new ≡ placed dst.old at src.now }
{
    words::copy(src, &mut dst[at..at + src.len()]);
}

// Puts IU and fill down behind the header's 24 bytes, where they fit.
fn place_data(iu: &[u8], out: &mut [u8])
    requires { 24 + length (data_bytes iu.now) ≤ length out.old }
    ensures { out.new ≡ placed out.old 24 (data_bytes iu.now) }
{
    let n = iu.len();
    let fill = fill_of(n);
    place(iu, out, 24);
    place(&[0; 3][..fill], out, 24 + n);
}

// Puts a header down, where it fits. The type byte stands where an address has no byte. Each word of four bytes is one
// store: as an array of bytes the header took 15 instructions more, which is over the bar of docs/SPEED.md.
pub(crate) fn place_header(h: Header, fill: u8, out: &mut [u8])
    requires { 24 ≤ length out.old }
    ensures { out.new ≡ placed out.old 0 (header_bytes h fill) }
{
    words::put32(
        out,
        0,
        h.dest.swap_bytes() / 256 * 256 + (h.frametype as u32),
    );
    words::put32(out, 4, h.source.swap_bytes() / 256 * 256);
    words::put32(
        out,
        8,
        (byte::flag_byte(h.flags) as u32) * 65536 + (fill as u32) * 16777216,
    );
    words::put32(out, 12, 0);
    words::put32(
        out,
        16,
        (h.tag.swap_bytes() as u32) + (h.tptt.swap_bytes() as u32) * 65536,
    );
    words::put32(out, 20, h.offset.swap_bytes());
}

// 1, 3, else the frame's length, for every IU of n bytes and every output buffer of `room`.
#[tactic(auto, using(crate::proofs::Writer::encode_length), unfolding(status::specs::Pick::pick))]
fn answer(h: Header, n: usize, room: usize) -> Result<usize, Refusal>
    ensures { (iu out : List ℕ) → length iu ≡ n → length out ≡ room → or_refusal result ≡ write_answer h iu out }
{
    if !can_write(h, n) {
        return Err(Refusal::BadRequest);
    }
    let total = 24 + n + fill_of(n);
    if room < total {
        return Err(Refusal::FrameSpaceShort);
    }
    Ok(total)
}

// The data step. 1, 3, else the frame's length; IU and fill stand in the output buffer from byte 24 on.
pub fn write_data(h: Header, iu: &[u8], out: &mut [u8]) -> Result<usize, Refusal>
    ensures { (or_refusal result ≡ write_answer h iu.now out.old) × (out.new ≡ put_data h iu.now out.old) }
{
    let len = answer(h, iu.len(), out.len())?;
    place_data(iu, out);
    Ok(len)
}

// The header step. 1, 3 for the whole frame, else the frame's length; the header stands at the front of the output
// buffer.
pub fn write_header(h: Header, iu: &[u8], out: &mut [u8]) -> Result<usize, Refusal>
    ensures { (or_refusal result ≡ write_answer h iu.now out.old) × (out.new ≡ put_header h iu.now out.old) }
{
    let n = iu.len();
    let len = answer(h, n, out.len())?;
    place_header(h, fill_of(n) as u8, out);
    Ok(len)
}

// One step after the other. 1, 3, else the frame's length; the frame stands at the front of the output buffer.
pub fn write(h: Header, iu: &[u8], out: &mut [u8]) -> Result<usize, Refusal>
    ensures { (or_refusal result ≡ write_answer h iu.now out.old) × (out.new ≡ put (write_answer h iu.now out.old) (encode h iu.now) out.old) }
{
    write_data(h, iu, out)?;
    write_header(h, iu, out)
}
