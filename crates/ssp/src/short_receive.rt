// The short paths of the receiving ports, where a read's initiator and a write's target do the same.
ghost use Rattle.std.specs.Prelude.{◌≡◌, true, ◌+◌, ◌≤◌, length, drop};
ghost use Rattle.frame.specs.Write.{placed};
ghost use Rattle.ssp.specs.ShortReceive.{Fits, Next, stored_told, grown_of};

use crate::types::CAnswer;
use receiver_steps::Receiver;

// No more data than the burst has left.
fn is_fitting(r: Receiver, n: usize) -> bool
    ensures { result ≡ true → Fits r n }
{
    n <= 1048 && (r.expected as usize) + n <= (r.end as usize) + 24
}

// A plain DATA frame at the expected offset, with no more data than the burst has left; nothing above it is stored,
// and the port does not wait for CDP.
pub(crate) fn is_next(r: Receiver, bytes: &[u8]) -> bool
    ensures { result ≡ true → Fits r (length bytes.now) × Next r bytes.now }
{
    let t = r.transfer;
    is_fitting(r, bytes.len())
        && frame::is_data(bytes, t.local, t.remote, t.tag, r.expected)
        && !r.waiting
        && r.expected == r.filled
}

// The data goes to its place: a middle part of the buffer is lent on to the copy. It is receiver_steps `store` again,
// which asks for room and so cannot be public (CONTRIBUTING).
#[tactic(auto, using(frame::proofs::Place::copied_over))]
fn place(at: usize, iu: &[u8], buffer: &mut [u8])
    requires { at + length iu.now ≤ length buffer.old }
    ensures { buffer.new ≡ placed buffer.old at iu.now }
{
    let past = at + iu.len();
    frame::copy(iu, &mut buffer[at..past]);
}

// The data of a frame is stored.
#[tactic(auto, unfolding(crate::specs::ShortReceive::stored_told, status::specs::Pick::pick))]
pub(crate) fn store(r: Receiver, bytes: &[u8], buffer: &mut [u8]) -> CAnswer
    requires { (24 ≤ length bytes.now) × Fits r (length bytes.now) × (r.end ≤ length buffer.old) }
    ensures { (result ≡ stored_told r (length bytes.now)) × (buffer.new ≡ placed buffer.old r.expected (drop 24 bytes.now)) }
{
    let from = r.expected as usize;
    let past = from + (bytes.len() - 24);
    place(from, &bytes[24..], buffer);
    if past == (r.end as usize) {
        return CAnswer::word(CAnswer::RECEIVED);
    }
    CAnswer::word(CAnswer::STORED)
}

// The marks move to the end of the data of a frame of n bytes.
pub(crate) fn grow(r: &mut Receiver, n: usize)
    requires { (24 ≤ n) × Fits r.old n }
    ensures { r.new ≡ grown_of r.old n }
{
    let past = r.expected + ((n - 24) as u32);
    r.expected = past;
    r.filled = past;
}
