// The buffers that a ladder's run is lent.
ghost use Rattle.std.specs.Prelude.{◌≡◌, map, ◌≤◌, length};
ghost use Rattle.ladder_text.specs.Words.{fate_number};
ghost use Rattle.ladder_text.specs.RunFile.{fates_at};
ghost use Rattle.ladder_text.specs.Place.{placed};
ghost use Rattle.ladder_print.specs.Text.{data_of};

// The numbers of the fates from place `from` of the input on; how many there are.
#[tactic(auto, using(crate::proofs::Filled::gathering_first, crate::proofs::Filled::next_later, crate::proofs::Filled::gathering_next))]
pub(crate) fn gather(input: &[u8], from: usize, fates: &mut [u8]) -> usize
    requires { length (fates_at input.now from) ≤ length fates.old }
    ensures { (result ≡ length (fates_at input.now from)) × (fates.new ≡ placed fates.old 0 (map fate_number (fates_at input.now from))) }
{
    // A `for` over `fates` is no plainer: it also ends where the buffer is full, with a second answer.
    let mut at = from;
    let mut n = 0;
    while at < input.len() {
        let f = ladder_text::next_fate(input, at);
        fates[n] = u8::from(f.fate);
        n += 1;
        at = f.next;
    }
    n
}

// "Byte i is the remainder of i by 256".
#[tactic(auto, using(crate::proofs::Filled::filled))]
pub(crate) fn fill(d: &mut [u8])
    ensures { d.new ≡ data_of (length d.old) }
{
    for (i, x) in d.iter_mut().enumerate() {
        *x = (i % 256) as u8;
    }
}
