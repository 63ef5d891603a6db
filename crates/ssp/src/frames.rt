// Frames and XFER_RDY IUs, written and read.
ghost use Rattle.std.specs.Prelude.{◌≡◌, ◌≤◌, length};
ghost use Rattle.status.specs.Result.{or_refusal};
ghost use Rattle.frame.specs.Format.{encode};
ghost use Rattle.frame.specs.Read.{decode};
ghost use Rattle.frame.specs.Write.{put, over, write_answer};
ghost use Rattle.frame.specs.TwoSteps.{put_data, put_header};
ghost use Rattle.frame.specs.XferRdy.{xfer_rdy_bytes, xfer_rdy_of};
ghost use Rattle.ssp.specs.Frames.{framed, flat, asked, plain, written_answer, xfer_rdy_answer, ReadsHeader, ReadsXferRdy};

use crate::types::{CAnswer, Header, XferRdy};
use frame::Flags;
use status::Refusal;

// C's header is flat: no struct is nested in it (docs/DECISIONS.md).
impl From<Header> for frame::Header {
    ghost from_gives = { λ h g. g ≡ framed h };

    fn from(h: Header) -> frame::Header {
        frame::Header {
            frametype: h.frametype,
            dest: h.dest,
            source: h.source,
            flags: Flags {
                tlr: h.tlr,
                retry: h.retry,
                retransmit: h.retransmit,
                cdp: h.cdp,
            },
            tag: h.tag,
            tptt: h.tptt,
            offset: h.offset,
        }
    }
}

impl From<frame::Header> for Header {
    ghost from_gives = { λ h g. g ≡ flat h };

    fn from(h: frame::Header) -> Header {
        Header {
            frametype: h.frametype,
            dest: h.dest,
            source: h.source,
            retry: h.flags.retry,
            retransmit: h.flags.retransmit,
            cdp: h.flags.cdp,
            tlr: h.flags.tlr,
            tag: h.tag,
            tptt: h.tptt,
            offset: h.offset,
        }
    }
}

impl From<XferRdy> for frame::XferRdy {
    ghost from_gives = { λ x y. y ≡ asked x };

    fn from(x: XferRdy) -> frame::XferRdy {
        frame::XferRdy {
            offset: x.offset,
            len: x.len,
        }
    }
}

impl From<frame::XferRdy> for XferRdy {
    ghost from_gives = { λ x y. y ≡ plain x };

    fn from(x: frame::XferRdy) -> XferRdy {
        XferRdy {
            offset: x.offset,
            len: x.len,
        }
    }
}

// The answer of the writer and of its steps.
fn wrote(w: Result<usize, Refusal>) -> CAnswer
    ensures { result ≡ written_answer (or_refusal w) }
{
    match w {
        Ok(len) => CAnswer {
            what: CAnswer::FRAME,
            len,
            ..CAnswer::NONE
        },
        Err(why) => why.into(),
    }
}

// 1, 3, else the frame's length; the frame stands at the front of the output buffer.
#[unsafe(no_mangle)]
pub extern "C" fn ssp_frame_write(h: Header, iu: &[u8], out: &mut [u8]) -> CAnswer
    ensures { (result ≡ written_answer (write_answer (framed h) iu.now out.old)) × (out.new ≡ put (write_answer (framed h) iu.now out.old) (encode (framed h) iu.now) out.old) }
{
    wrote(frame::write(h.into(), iu, out))
}

// 1, 3, else the frame's length; IU and fill stand in the output buffer from byte 24 on.
#[unsafe(no_mangle)]
pub extern "C" fn ssp_frame_write_data(h: Header, iu: &[u8], out: &mut [u8]) -> CAnswer
    ensures { (result ≡ written_answer (write_answer (framed h) iu.now out.old)) × (out.new ≡ put_data (framed h) iu.now out.old) }
{
    wrote(frame::write_data(h.into(), iu, out))
}

// 1, 3 for the whole frame, else its length; the header stands at the front of the output buffer.
#[unsafe(no_mangle)]
pub extern "C" fn ssp_frame_write_header(h: Header, iu: &[u8], out: &mut [u8]) -> CAnswer
    ensures { (result ≡ written_answer (write_answer (framed h) iu.now out.old)) × (out.new ≡ put_header (framed h) iu.now out.old) }
{
    wrote(frame::write_header(h.into(), iu, out))
}

// Any bytes: 5, 6, else the header, start and length of the IU. A refusal leaves the header as it was.
#[unsafe(no_mangle)]
pub extern "C" fn ssp_frame_read(s: &mut Header, bytes: &[u8]) -> CAnswer
    ensures { ReadsHeader (decode bytes.now) s.old s.new result }
{
    match frame::read(bytes) {
        Ok(p) => {
            *s = p.header.into();
            CAnswer {
                what: CAnswer::PARSED,
                start: p.start,
                len: p.len,
                ..CAnswer::NONE
            }
        }
        Err(why) => why.into(),
    }
}

#[tactic(auto, unfolding(frame::specs::Write::over))]
fn place(x: XferRdy, out: &mut [u8])
    requires { 12 ≤ length out.old }
    ensures { out.new ≡ over (xfer_rdy_bytes (asked x)) out.old }
{
    let iu = frame::write_xfer_rdy(x.into());
    out[..12].copy_from_slice(&iu);
}

// 3, else 12; the IU stands at the front of the output buffer.
#[tactic(auto, unfolding(status::specs::Pick::pick))]
#[unsafe(no_mangle)]
pub extern "C" fn ssp_xfer_rdy_write(x: XferRdy, out: &mut [u8]) -> CAnswer
    ensures { (result ≡ written_answer (xfer_rdy_answer out.old)) × (out.new ≡ put (xfer_rdy_answer out.old) (xfer_rdy_bytes (asked x)) out.old) }
{
    if out.len() < 12 {
        return Refusal::FrameSpaceShort.into();
    }
    place(x, out);
    CAnswer {
        what: CAnswer::FRAME,
        len: 12,
        ..CAnswer::NONE
    }
}

// An IU of any length: 23, 24, else offset and length. A failure leaves them as they were.
#[unsafe(no_mangle)]
pub extern "C" fn ssp_xfer_rdy_read(s: &mut XferRdy, iu: &[u8]) -> CAnswer
    ensures { ReadsXferRdy (xfer_rdy_of iu.now) s.old s.new result }
{
    match frame::read_xfer_rdy(iu) {
        Ok(x) => {
            *s = x.into();
            CAnswer {
                what: CAnswer::PARSED,
                len: 12,
                ..CAnswer::NONE
            }
        }
        Err(why) => CAnswer::failed(why, 0),
    }
}
