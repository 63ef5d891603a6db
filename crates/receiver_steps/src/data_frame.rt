// One DATA frame that has passed 5 to 8, once 1 and 2 are tested.
// `offset` and `cdp` come side by side, as the public `data_step` takes them. The `match` on a disposition lends the
// buffer on.
ghost use Rattle.std.specs.Prelude.{◌≡◌, ◌+◌, ◌^◌, ◌≤◌, ◌<◌, length};
ghost use Rattle.status.specs.Stepped.{stepped};
ghost use Rattle.frame.specs.Write.{placed};
ghost use Rattle.receiver_steps.specs.DataFrame.{misplaced, out_of_step, disposition_of, stored_by, taken_of, data_step_of, storing};

use crate::record;
use crate::types::{DataDisposition, Receiver};
use status::{Answer, Failure, Refusal, Stepped};

// Number 20.
#[tactic(auto, unfolding(crate::specs::DataFrame::misplaced, status::specs::Pick::pick))]
fn is_misplaced(r: Receiver, offset: u32, cdp: bool) -> bool
    ensures { result ≡ misplaced r offset cdp }
{
    let outside = (offset < r.base) | (r.end <= offset);
    if r.transfer.limit == 0 {
        outside | (offset != r.expected)
    } else {
        outside | (cdp & (r.filled < offset))
    }
}

// Retries on, CDP zero: waiting, or another than the expected offset.
#[tactic(auto, unfolding(crate::specs::DataFrame::out_of_step))]
fn is_out_of_step(r: Receiver, offset: u32, cdp: bool) -> bool
    ensures { result ≡ out_of_step r offset cdp }
{
    (0 < r.transfer.limit) & !cdp & (r.waiting | (offset != r.expected))
}

#[tactic(auto, unfolding(crate::specs::DataFrame::disposition_of, status::specs::Pick::pick))]
fn judge(r: Receiver, offset: u32, cdp: bool, n: usize) -> Result<DataDisposition, Failure>
    requires { offset + n < 2 ^ 64 }
    ensures { result ≡ disposition_of r offset cdp n }
{
    if r.filled == r.end {
        return Ok(DataDisposition::Discard);
    }
    if is_misplaced(r, offset, cdp) {
        return Err(Failure::DataOffsetError);
    }
    if (r.end as usize) < (offset as usize) + n {
        return Err(Failure::TooMuchData);
    }
    if n == 0 {
        return Err(Failure::IncorrectDataLength);
    }
    if is_out_of_step(r, offset, cdp) {
        return Ok(DataDisposition::Skip);
    }
    Ok(DataDisposition::Store)
}

// The record once n bytes are stored at offset.
#[tactic(auto, unfolding(status::specs::Pick::pick))]
fn stored(mut r: Receiver, offset: u32, n: u32) -> Stepped<Receiver>
    requires { offset + n < 2 ^ 32 }
    ensures { stepped result ≡ stored_by r offset n }
{
    let past = offset + n;
    let filled = r.filled.max(past);
    r.expected = past;
    r.filled = filled;
    r.waiting = false;
    if filled == r.end {
        return Stepped {
            left: r,
            answer: Answer::Received,
        };
    }
    Stepped {
        left: r,
        answer: Answer::Stored,
    }
}

// The data goes to its place: a middle part of the buffer is lent on to the copy. Crate ssp has the same again: a
// function that asks for room cannot be public (CONTRIBUTING).
fn store(offset: usize, iu: &[u8], buffer: &mut [u8])
    requires { offset + length iu.now ≤ length buffer.old }
    ensures { buffer.new ≡ placed buffer.old offset iu.now }
{
    let past = offset + iu.len();
    frame::copy(iu, &mut buffer[offset..past]);
}

// The frame is judged, and done with as its disposition says.
fn take(r: Receiver, offset: u32, cdp: bool, iu: &[u8], buffer: &mut [u8]) -> Stepped<Receiver>
    requires { r.end ≤ length buffer.old }
    ensures { (stepped result ≡ taken_of (disposition_of r offset cdp (length iu.now)) r offset (length iu.now)) × (buffer.new ≡ storing (taken_of (disposition_of r offset cdp (length iu.now)) r offset (length iu.now)).says offset iu.now buffer.old) }
{
    match judge(r, offset, cdp, iu.len()) {
        Ok(DataDisposition::Discard) => Stepped {
            left: r,
            answer: Answer::Discarded,
        },
        Ok(DataDisposition::Skip) => Stepped {
            left: Receiver { waiting: true, ..r },
            answer: Answer::Discarded,
        },
        Err(why) => record::failed(r, why),
        Ok(DataDisposition::Store) => {
            store(offset as usize, iu, buffer);
            stored(r, offset, iu.len() as u32)
        }
    }
}

// 1 where the burst passes the buffer; discarded (filled); 20, 21, 22; discarded, stored or received.
pub fn data_step(
    r: Receiver,
    offset: u32,
    cdp: bool,
    iu: &[u8],
    buffer: &mut [u8],
) -> Stepped<Receiver>
    ensures { (stepped result ≡ data_step_of r offset cdp (length iu.now) (length buffer.old)) × (buffer.new ≡ storing (data_step_of r offset cdp (length iu.now) (length buffer.old)).says offset iu.now buffer.old) }
{
    if buffer.len() < (r.end as usize) {
        return Stepped::refused(r, Refusal::BadRequest);
    }
    take(r, offset, cdp, iu, buffer)
}
