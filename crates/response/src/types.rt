// The RESPONSE's record.
use transfer::Transfer;

#[repr(C)]
#[derive(Clone, Copy)]
pub struct Responder {
    pub transfer: Transfer,
    // the length of the IU that it was set up with
    pub len: u32,
    pub retries: u32,
    // its confirmation is due
    pub unanswered: bool,
    pub ended: bool,
}

impl Responder {
    // bytes of an IU
    pub(crate) const LEN_LEAST: u32 = 24;

    pub(crate) const LEN_MOST: u32 = 1024;
}
