// A part of the caller's own bytes.
ghost use Rattle.frame.specs.Lent.{part_of, Shows};

// Of b the n bytes from i, or none where b does not reach so far.
#[tactic(auto, unfolding(crate::specs::Lent::part_of, status::specs::Pick::pick))]
pub fn part(b: &[u8], i: usize, n: usize) -> &[u8]
    ensures { Shows result b.entry (part_of b.now i n) }
{
    if b.len() < i || b.len() - i < n {
        return &b[..0];
    }
    &b[i..i + n]
}
