// The frame types, the header of a frame, a frame read, and the XFER_RDY's IU (the RESPONSE's: status::Opened).

// The five frame types. They are numbers, since a header may have any type byte: `write` and `read` refuse another
// (specs/Write.antt, `request`; specs/Read.antt, `decode`).
pub const DATA: u8 = 0x01;

pub const XFER_RDY: u8 = 0x05;

pub const COMMAND: u8 = 0x06;

pub const RESPONSE: u8 = 0x07;

pub const TASK: u8 = 0x16;

// Byte 10.
#[derive(Clone, Copy)]
pub struct Flags {
    // TLR CONTROL, 0 to 3
    pub tlr: u8,
    // RETRY DATA FRAMES
    pub retry: bool,
    pub retransmit: bool,
    // CHANGING DATA POINTER
    pub cdp: bool,
}

#[derive(Clone, Copy)]
pub struct Header {
    // the type byte
    pub frametype: u8,
    // hashed addresses, 24 bits each
    pub dest: u32,
    pub source: u32,
    pub flags: Flags,
    pub tag: u16,
    // target port transfer tag
    pub tptt: u16,
    // data offset
    pub offset: u32,
}

// A frame read: the IU is len bytes from start. Numbers and no slice: the definition `decode` gives them, and C is told
// them.
#[derive(Clone, Copy)]
pub struct Parsed {
    pub header: Header,
    pub start: usize,
    pub len: usize,
}

#[derive(Clone, Copy)]
pub struct XferRdy {
    // requested offset
    pub offset: u32,
    // write data length
    pub len: u32,
}
