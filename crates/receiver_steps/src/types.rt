// The receiving port's record, and what is done with a DATA frame.
use transfer::Transfer;

#[repr(C)]
#[derive(Clone, Copy)]
pub struct Receiver {
    pub transfer: Transfer,
    // the burst
    pub base: u32,
    pub end: u32,
    // expected offset; filled mark: all of the burst below it is stored
    pub expected: u32,
    pub filled: u32,
    // waiting for CHANGING DATA POINTER
    pub waiting: bool,
    pub ended: bool,
}

// What is done with a DATA frame that is no failure.
#[derive(Clone, Copy)]
pub enum DataDisposition {
    // the burst is filled: discarded, and nothing changes
    Discard,
    // discarded, and waiting for CHANGING DATA POINTER starts
    Skip,
    Store,
}
