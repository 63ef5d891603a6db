// A burst, and the sending port's record.
use transfer::Transfer;

// What one XFER_RDY asks for, or a whole read.
#[repr(C)]
#[derive(Clone, Copy)]
pub struct Burst {
    pub base: u32,
    pub end: u32,
    // the retry limit in force
    pub limit: u32,
    // the target port transfer tag of the XFER_RDY; read DATA has the transfer's value whatever stands here
    pub tptt: u16,
}

#[repr(C)]
#[derive(Clone, Copy)]
pub struct Sender {
    pub transfer: Transfer,
    pub burst: Burst,
    // next offset, balance point
    pub next: u32,
    pub balance: u32,
    // frames handed out and not answered
    pub unanswered: u32,
    // a NAK is pending
    pub nak: bool,
    // the next frame has CHANGING DATA POINTER one
    pub cdp: bool,
    pub ended: bool,
    pub retries: u32,
    // frames handed out since set-up, or since the write burst began
    pub frames: u64,
}

impl Sender {
    // 2 to the power 60: number 1 applies from there on.
    pub(crate) const FRAMES_END: u64 = 0x1000_0000_0000_0000;
}
