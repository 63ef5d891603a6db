// The target's record in a write command.
use receiver::Receiver;

#[repr(C)]
#[derive(Clone, Copy)]
pub struct Target {
    // the burst of the last XFER_RDY handed out; before the first, an empty one at 0
    pub receiver: Receiver,
    // of the XFER_RDY: its retries, its target port transfer tag
    pub retries: u32,
    pub tptt: u16,
    // DATA was stored, last under this tag; with `stored` no Option, since both are fields of the C interface
    pub under: u16,
    // tags handed out since
    pub since: u16,
    // the XFER_RDY's state, one of the four below
    pub state: u8,
    pub stored: bool,
    // milliseconds counted towards the Initiator Response Timeout
    pub elapsed: u16,
}

// Numbers and no enum, since `state` is a byte of the C interface: a caller may put any there, and one above 3 is 1
// (specs/Record `holds_of`).
impl Target {
    // none was handed out yet
    pub const NONE: u8 = 0;

    // its confirmation is due
    pub const UNANSWERED: u8 = 1;

    // it is to be sent again
    pub const AGAIN: u8 = 2;

    // it had its ACK: DATA is taken
    pub const READY: u8 = 3;
}
