// The transfer record: what both ports of a command are set up with. It never changes.
#![tactic(auto)]

ghost use Rattle.std.specs.Prelude.{◌≡◌};
ghost use Rattle.status.specs.Result.{or_refusal};
ghost use Rattle.transfer.specs.Limits.{past, limits_hold, made_of};

use status::Refusal;

// C interface: this is the record of ssp.h, so `value` stands beside `sas2`, and an `irt` of 0 is off, in place of an
// Option.
#[repr(C)]
#[derive(Clone, Copy)]
pub struct Transfer {
    // byte count
    pub count: u32,
    // data bytes per frame
    pub size: u32,
    // unanswered frames at most
    pub window: u32,
    // retry limit; 0: retries off
    pub limit: u32,
    // bytes per write burst at most
    pub burst: u32,
    // hashed addresses of this port and of the other one
    pub local: u32,
    pub remote: u32,
    pub tag: u16,
    // a write command; else a read
    pub write: bool,
    // the edition: SAS-2; else SAS-1.1
    pub sas2: bool,
    // the TPTT of every read DATA and RESPONSE of the command; 0 under SAS-1.1
    pub value: u16,
    // Initiator Response Timeout of a write's target, in milliseconds; 0: off
    pub irt: u16,
    // where a read begins in the host's buffer; 0 in a write
    pub start: u32,
}

impl Transfer {
    pub const COUNT_LEAST: u32 = 1;

    pub const COUNT_MOST: u32 = 16_777_216;

    pub const SIZE_LEAST: u32 = 4;

    pub const SIZE_MOST: u32 = 1024;

    pub const SIZE_UNIT: u32 = 4;

    pub const WINDOW_LEAST: u32 = 1;

    pub const WINDOW_MOST: u32 = 64;

    pub const LIMIT_MOST: u32 = 15;

    pub const BURST_LEAST: u32 = 1;

    pub const ADDRESS_MOST: u32 = 0xff_ffff;

    pub const PAST_MOST: usize = 16_777_216;

    // Start plus count. 64 bits hold the sum of any two fields of 32.
    pub fn past(self) -> usize
        ensures { result ≡ past self }
    {
        (self.start as usize) + (self.count as usize)
    }

    // The limits are the record's own: each port tests them at every call.
    #[tactic(auto, unfolding(crate::specs::Limits::limits, crate::specs::Limits::limits_hold))]
    pub fn limits_hold(self) -> bool
        ensures { result ≡ limits_hold self }
    {
        (Transfer::COUNT_LEAST <= self.count)
            & (self.count <= Transfer::COUNT_MOST)
            & (Transfer::SIZE_LEAST <= self.size)
            & (self.size <= Transfer::SIZE_MOST)
            & (self.size % Transfer::SIZE_UNIT == 0)
            & (Transfer::WINDOW_LEAST <= self.window)
            & (self.window <= Transfer::WINDOW_MOST)
            & (self.limit <= Transfer::LIMIT_MOST)
            & (Transfer::BURST_LEAST <= self.burst)
            & (self.burst <= self.count)
            & (self.local <= Transfer::ADDRESS_MOST)
            & (self.remote <= Transfer::ADDRESS_MOST)
            & (self.sas2 | (self.value == 0))
            & (self.past() <= Transfer::PAST_MOST)
            & (!self.write | (self.start == 0))
    }

    // 1, else a transfer within the limits. A read is one burst and does not use `burst`, which keeps its limits all
    // the same.
    #[tactic(auto, unfolding(status::specs::Result::granted, status::specs::Pick::pick))]
    pub fn new(
        write: bool,
        count: u32,
        size: u32,
        window: u32,
        limit: u32,
        burst: u32,
        local: u32,
        remote: u32,
        tag: u16,
        sas2: bool,
        value: u16,
        irt: u16,
        start: u32,
    ) -> Result<Transfer, Refusal>
        ensures { or_refusal result ≡ made_of (record { write = write; count = count; size = size; window = window; limit = limit; burst = burst; local = local; remote = remote; tag = tag; sas2 = sas2; value = value; irt = irt; start = start }) }
    {
        let t = Transfer {
            write,
            count,
            size,
            window,
            limit,
            burst,
            local,
            remote,
            tag,
            sas2,
            value,
            irt,
            start,
        };
        if t.limits_hold() {
            Ok(t)
        } else {
            Err(Refusal::BadRequest)
        }
    }
}
