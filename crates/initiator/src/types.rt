// The initiator's record in a write command, and which burst an XFER_RDY is for.
use sender::{Burst, Sender};

// C interface: this is the record of ssp.h, so a flag stands beside the burst that is taken, in place of an Option.
#[repr(C)]
#[derive(Clone, Copy)]
pub struct Writer {
    // the burst in service; before the first, an empty one at 0
    pub sender: Sender,
    // the furthest offset that was handed out in it
    pub reached: u32,
    // a burst is taken and not started
    pub pending: bool,
    pub taken: Burst,
}

// Which burst an XFER_RDY is taken for.
#[derive(Clone, Copy)]
pub(crate) enum XferRdyDisposition {
    // for the next burst
    Next,
    // for the burst taken last, again
    Repeat,
}
