// The XFER_RDY's IU: requested offset, write data length, four reserved bytes.
ghost use Rattle.std.specs.Prelude.{◌≡◌};
ghost use Rattle.status.specs.Result.{or_failure};
ghost use Rattle.frame.specs.XferRdy.{xfer_rdy_bytes, xfer_rdy_of};

use crate::byte;
use crate::types::XferRdy;
use status::Failure;

// The 12 bytes of an XFER_RDY's IU.
#[tactic(auto, unfolding(crate::specs::XferRdy::xfer_rdy_bytes))]
pub fn write_xfer_rdy(x: XferRdy) -> [u8; 12]
    ensures { result ≡ xfer_rdy_bytes x }
{
    let mut iu = [0; 12];
    iu[..4].copy_from_slice(&x.offset.to_be_bytes());
    iu[4..8].copy_from_slice(&x.len.to_be_bytes());
    iu
}

// An IU of any length: 23, 24, else offset and length.
#[tactic(auto, unfolding(crate::specs::XferRdy::xfer_rdy_of, status::specs::Pick::pick))]
pub fn read_xfer_rdy(iu: &[u8]) -> Result<XferRdy, Failure>
    ensures { or_failure result ≡ xfer_rdy_of iu.now }
{
    if iu.len() < 12 {
        return Err(Failure::XferRdyTooShort);
    }
    if 12 < iu.len() {
        return Err(Failure::XferRdyTooLong);
    }
    Ok(XferRdy {
        offset: byte::be32(iu, 0),
        len: byte::be32(iu, 4),
    })
}
