// The fates of a ladder's frames: a byte a frame, the number of its fate.
// They stay bytes: `fate_of`, `faults`, `next_line` and `verdict` take any list of bytes.
ghost use Rattle.std.specs.Prelude.{◌≡◌};
ghost use Rattle.ladder_run.specs.Fates.{fate_of, whole, fault, faults_of};

use ladder_text::Fate;

// The fate of a frame, counted from 0; past the list, `ok`.
pub fn fate_of(fates: &[u8], frame: u32) -> Fate
    ensures { result ≡ fate_of fates.now frame }
{
    match fates.get(frame as usize) {
        Some(&f) => Fate::from(f),
        None => Fate::Ok,
    }
}

// The frame arrives whole.
pub(crate) fn is_whole(f: Fate) -> bool
    ensures { result ≡ whole f }
{
    matches!(f, Fate::Ok | Fate::Noack)
}

// 1 where the fate is not `ok`.
pub(crate) fn fault(f: Fate) -> u32
    ensures { result ≡ fault f }
{
    u32::from(!matches!(f, Fate::Ok))
}

// Of so many frames, those whose fate is not `ok`.
#[tactic(auto, using(crate::proofs::InTurn::fault_most, crate::proofs::InTurn::faults_next))]
pub fn faults(fates: &[u8], frames: u32) -> u32
    ensures { result ≡ faults_of fates.now frames }
{
    let mut n = 0;
    for i in 0..frames {
        n += fault(fate_of(fates, i));
    }
    n
}
