// Blocks of bytes, little-endian words, and the copy by blocks. LLVM makes one move of each block or word that is read
// or put down in this form.
// A slice and a place, and two slices, come side by side: they are lent apart, with one bound each.
ghost use Rattle.std.specs.Prelude.{◌≡◌, ◌+◌, ◌-◌, ◌≤◌, ◌<◌, length, take, drop};
ghost use Rattle.frame.specs.Write.{over, placed};
ghost use Rattle.frame.specs.Words.{little, word};

// The N bytes of b from `at` on.
pub(crate) fn block<const N: usize>(b: &[u8], at: usize) -> [u8; N]
    requires { at + N ≤ length b.now }
    ensures { result ≡ take N (drop at b.now) }
{
    *b[at..at + N].as_array::<N>().unwrap()
}

// Puts N bytes down at `at`.
#[tactic(auto, using(crate::proofs::Place::put_in))]
fn put_block<const N: usize>(b: &mut [u8], at: usize, bytes: [u8; N])
    requires { at + N ≤ length b.old }
    ensures { b.new ≡ placed b.old at bytes.entry }
{
    b[at..at + N].copy_from_slice(&bytes);
}

// The word at `at`.
#[tactic(auto, using(crate::proofs::Little::read_le))]
pub(crate) fn get64(b: &[u8], at: usize) -> u64
    requires { at + 8 ≤ length b.now }
    ensures { result ≡ word b.now at 8 }
{
    u64::from_le_bytes(block(b, at))
}

// Puts a word down at `at`.
#[tactic(auto, using(crate::proofs::Little::written_le))]
pub(crate) fn put32(b: &mut [u8], at: usize, w: u32)
    requires { at + 4 ≤ length b.old }
    ensures { b.new ≡ placed b.old at (little 4 w) }
{
    put_block(b, at, w.to_le_bytes());
}

// Copies N bytes from i on. All are read before any is put down.
fn copy_block<const N: usize>(src: &[u8], dst: &mut [u8], i: usize)
    requires { (i + N ≤ length src.now) × (i + N ≤ length dst.old) }
    ensures { dst.new ≡ placed dst.old i (take N (drop i src.now)) }
{
    put_block(dst, i, block::<N>(src, i));
}

// Copies N bytes from i on where as many of the n are left. The result says how far the copy has come.
#[tactic(auto, using(crate::proofs::Place::none_placed))]
fn copy_if<const N: usize>(src: &[u8], dst: &mut [u8], i: usize, n: usize) -> usize
    requires { (i ≤ n) × (n ≤ length src.now) × (n ≤ length dst.old) }
    ensures { (i ≤ result) × (result ≤ n) × (dst.new ≡ placed dst.old i (take (result - i) (drop i src.now))) × (n - i < N + N → n - result < N) }
{
    if n - i < N {
        return i;
    }
    copy_block::<N>(src, dst, i);
    i + N
}

// Copies src to the front of dst, as far as dst reaches. The copy goes by blocks of constant length: of copy_from_slice
// at any other length LLVM makes a call of memmove, and the archive for C needs no function from outside.
// It stays a function apart: built in, it kept its callers from being built into the short paths (docs/SPEED.md).
#[inline(never)]
pub fn copy(src: &[u8], dst: &mut [u8])
    ensures { dst.new ≡ over (take (length dst.old) src.now) dst.old }
{
    let n = src.len().min(dst.len());
    for k in 0..n / 64 {
        copy_block::<64>(src, dst, 64 * k);
    }
    let i = n / 64 * 64;
    let i = copy_if::<32>(src, dst, i, n);
    let i = copy_if::<16>(src, dst, i, n);
    let i = copy_if::<8>(src, dst, i, n);
    let i = copy_if::<4>(src, dst, i, n);
    let i = copy_if::<2>(src, dst, i, n);
    copy_if::<1>(src, dst, i, n);
}
