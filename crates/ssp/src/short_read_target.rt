// The short path of a read at the target: what it tests and leaves.
ghost use Rattle.std.specs.Prelude.{◌≡◌, true};
ghost use Rattle.ssp.specs.ShortSend.{ReadOpen, LastOne, last_left, ReadLent, WaitDue};

use crate::short_send;
use target::Sender;

// Of a read's record: 1 and 2 do not apply.
pub(crate) fn is_open(s: Sender) -> bool
    ensures { result ≡ true → ReadOpen s }
{
    !s.transfer.write && !s.ended && sender_steps::holds(s)
}

// An ACK leaves nothing unanswered, and no NAK is pending.
pub(crate) fn is_last(s: Sender) -> bool
    ensures { result ≡ true → LastOne s }
{
    !s.nak && s.unanswered == 1 && is_open(s)
}

pub(crate) fn last_answered(s: &mut Sender)
    requires { LastOne s.old }
    ensures { s.new ≡ last_left s.old }
{
    s.balance = s.next;
    s.unanswered = 0;
    s.retries = 0;
    s.ended = s.next == s.burst.end;
}

// Of a read's record and a data buffer of n bytes: 1 and 2 do not apply.
pub(crate) fn is_lent(s: Sender, n: usize) -> bool
    ensures { result ≡ true → ReadLent s n }
{
    !s.transfer.write && !s.ended && sender_steps::lent(s, n)
}

// No frame is due.
pub(crate) fn is_wait(s: Sender, n: usize) -> bool
    ensures { result ≡ true → WaitDue s n }
{
    short_send::waits(s) && is_lent(s, n)
}
