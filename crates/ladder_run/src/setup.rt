// Both ends set up.
// No heap, and fixed memory: the part of a buffer that is in use goes on as a slice.
ghost use Rattle.std.specs.Prelude.{◌≡◌};
ghost use Rattle.status.specs.Result.{or_refusal};
ghost use Rattle.ladder_run.specs.Setup.{transfer_of, fresh, exchanged, ready_set_up, set_up_of};
ghost use Rattle.ladder_text.specs.declared.types.Direction.TheVariants as direction;

use crate::row;
use crate::types::{Ladder, Receiving, Sending};
use initiator::Writer;
use ladder_text::{Direction, Run};
use status::Refusal;
use target::Target;
use transfer::Transfer;

fn transfer(r: Run, write: bool, local: u32, remote: u32) -> Transfer
    ensures { result ≡ transfer_of r write local remote }
{
    Transfer {
        write,
        count: r.count,
        size: r.size,
        window: r.window,
        limit: r.limit,
        burst: r.count,
        local,
        remote,
        tag: Ladder::TAG,
        sas2: false,
        value: 0,
        irt: 0,
        start: 0,
    }
}

// Nothing has gone out yet.
fn fresh(s: Sending, r: Receiving) -> Ladder
    ensures { result ≡ fresh s r }
{
    Ladder {
        sending: s,
        receiving: r,
        frames: 0,
        before: 0,
        report: None,
    }
}

fn read(r: Run) -> Result<Ladder, Refusal>
    ensures { or_refusal result ≡ ready_set_up direction.Read r }
{
    let t = transfer(r, false, Ladder::TARGET, Ladder::INITIATOR);
    let u = transfer(r, false, Ladder::INITIATOR, Ladder::TARGET);
    let s = target::set_up_read(t)?;
    let x = initiator::set_up_read(u)?;
    Ok(fresh(Sending::Read(s), Receiving::Read(x)))
}

// The XFER_RDY of the one burst: handed out, taken, acknowledged.
#[tactic(auto, unfolding(crate::specs::Setup::exchanged))]
fn exchange(w: Writer, y: Target) -> Ladder
    ensures { result ≡ exchanged w y }
{
    let mut area = [0; 1048];
    let issued = target::write_next_frame(y, &mut area);
    let n = row::handed(issued.answer).unwrap_or(0);
    prove!(n <= area.len());
    let taken = initiator::write_frame_received(w, &area[..n]);
    let acked = target::write_ack_received(issued.left);
    fresh(Sending::Write(taken.left), Receiving::Write(acked.left))
}

fn write(r: Run) -> Result<Ladder, Refusal>
    ensures { or_refusal result ≡ ready_set_up direction.Write r }
{
    let t = transfer(r, true, Ladder::INITIATOR, Ladder::TARGET);
    let u = transfer(r, true, Ladder::TARGET, Ladder::INITIATOR);
    let w = initiator::set_up_write(t)?;
    let y = target::set_up_write(u)?;
    Ok(exchange(w, y))
}

// Line one of a run file: 1, else the ladder at its start.
#[tactic(auto, unfolding(crate::specs::Setup::set_up_of, status::specs::Pick::pick))]
pub fn set_up(r: Run) -> Result<Ladder, Refusal>
    ensures { or_refusal result ≡ set_up_of r }
{
    if Ladder::COUNT_MOST < r.count {
        return Err(Refusal::BadRequest);
    }
    match r.direction {
        Direction::Read => read(r),
        Direction::Write => write(r),
    }
}
