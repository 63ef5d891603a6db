// What C sees: the answer of every call, and the records of a frame.

// The answer of a call. A field that a case does not name is 0.
#[repr(C)]
#[derive(Clone, Copy)]
pub struct CAnswer {
    // the paper's number, 0 where it has none
    pub number: u8,
    // one of those below
    pub what: u8,
    // of a RESPONSE: DATAPRES and the status
    pub kind: u8,
    pub status: u8,
    // DATA frames handed out
    pub frames: u64,
    // where an IU stands in the bytes that were lent
    pub start: usize,
    pub len: usize,
    // of a RESPONSE: bytes of sense data
    pub sense: usize,
}

// C interface: an exported function cannot return an enum, so each case has a number (docs/DECISIONS.md).
impl CAnswer {
    // Every field is 0: the fields that a case does not name.
    pub(crate) const NONE: CAnswer = CAnswer {
        number: 0,
        what: 0,
        kind: 0,
        status: 0,
        frames: 0,
        start: 0,
        len: 0,
        sense: 0,
    };

    // 1 to 8: nothing changed
    pub const REFUSED: u8 = 0;

    // 20 to 34: the port has ended; frames
    pub const FAILED: u8 = 1;

    pub const WAIT: u8 = 2;

    // len bytes stand in the output buffer
    pub const FRAME: u8 = 3;

    pub const TAKEN: u8 = 4;

    pub const RETRY: u8 = 5;

    pub const UNCHANGED: u8 = 6;

    // frames
    pub const DELIVERED: u8 = 7;

    pub const ACKNOWLEDGED: u8 = 8;

    pub const DISCARDED: u8 = 9;

    pub const STORED: u8 = 10;

    pub const RECEIVED: u8 = 11;

    pub const NEXT_BURST: u8 = 12;

    // frames
    pub const NEXT_BURST_DELIVERS: u8 = 13;

    pub const REPEATED: u8 = 14;

    // start, len, kind, status, sense, frames
    pub const RESPONSE: u8 = 15;

    // a set-up was taken
    pub const READY: u8 = 16;

    // a frame or an IU was read; start, len; of a RESPONSE's IU also kind, status, sense
    pub const PARSED: u8 = 17;
}

// A frame's header.
#[repr(C)]
#[derive(Clone, Copy)]
pub struct Header {
    // the type byte, a number as C has it
    pub frametype: u8,
    // hashed addresses, 24 bits each
    pub dest: u32,
    pub source: u32,
    // RETRY DATA FRAMES
    pub retry: bool,
    pub retransmit: bool,
    // CHANGING DATA POINTER
    pub cdp: bool,
    // TLR CONTROL, 0 to 3
    pub tlr: u8,
    pub tag: u16,
    // target port transfer tag
    pub tptt: u16,
    // data offset
    pub offset: u32,
}

// An XFER_RDY's IU: the struct of ssp.h, beside frame's own.
#[repr(C)]
#[derive(Clone, Copy)]
pub struct XferRdy {
    // requested offset
    pub offset: u32,
    // write data length
    pub len: u32,
}
