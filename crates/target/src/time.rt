// Reports of time in a write command: an initiator that goes silent (request K4).
ghost use Rattle.std.specs.Prelude.{◌≡◌};
ghost use Rattle.status.specs.Stepped.{stepped};
ghost use Rattle.target.specs.Time.{runs_of, elapsed_of, report_of, time_of};

use crate::record;
use crate::types::Target;
use status::{Answer, Failure, Stepped};

// The timeout is on, the XFER_RDY had its ACK and the burst is not filled.
#[tactic(auto, unfolding(crate::specs::Time::runs_of))]
fn runs(x: Target) -> bool
    ensures { result ≡ runs_of x }
{
    (x.receiver.transfer.irt != 0)
        & (x.state == Target::READY)
        & (x.receiver.filled < x.receiver.end)
}

// 33 where the sum reaches the timeout; else it is kept, below the timeout.
#[tactic(auto, unfolding(crate::specs::Time::elapsed_of, status::specs::Pick::pick))]
fn elapse(mut x: Target, milliseconds: u16) -> Stepped<Target>
    ensures { stepped result ≡ elapsed_of x milliseconds }
{
    let sum = x.elapsed.saturating_add(milliseconds);
    if x.receiver.transfer.irt <= sum {
        return record::failed(x, Failure::InitiatorResponseTimeout);
    }
    x.elapsed = sum;
    Stepped {
        left: x,
        answer: Answer::Taken,
    }
}

// Time outside the span changes nothing.
#[tactic(auto, unfolding(status::specs::Pick::pick))]
fn report(x: Target, milliseconds: u16) -> Stepped<Target>
    ensures { stepped result ≡ report_of x milliseconds }
{
    if runs(x) {
        elapse(x, milliseconds)
    } else {
        Stepped {
            left: x,
            answer: Answer::Unchanged,
        }
    }
}

// 1, 2; unchanged outside the span; 33 or taken.
#[tactic(auto, unfolding(crate::specs::Time::time_of))]
pub fn write_time_reported(x: Target, milliseconds: u16) -> Stepped<Target>
    ensures { stepped result ≡ time_of x milliseconds }
{
    Stepped::unless(record::admitted(x), x, |x| report(x, milliseconds))
}
