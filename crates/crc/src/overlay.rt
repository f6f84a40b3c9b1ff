// Folds the first 512 bytes of a part: the front of 243 bytes is added three times to the rear of 269, since x^2152 has
// the remainder of x^128 + x^64 + 1. So the sum has 34 words in place of 64.
ghost use Rattle.std.specs.Prelude.{◌≡◌, ◌+◌, ◌≤◌, length};
ghost use Rattle.std.specs.Int.Bits.{bit_xor};
ghost use Rattle.crc.specs.Inner.Remainders.{Same};
ghost use Rattle.crc.specs.Inner.Folding.{with_rest};
ghost use Rattle.crc.specs.Inner.Carried.{value};
ghost use Rattle.crc.specs.Inner.Overlays.{Overlays, Extends};

use crate::six_words::{SixWords, add_two_words, append_word, only_word};
use crate::words::word;

// The sum of the rear and the three fronts so far, and the last word of the front with the one before it.
#[derive(Clone, Copy)]
struct Overlaid {
    sum: SixWords,
    last: u64,
    before: u64,
}

// Returns six words that may stand for the first 512 bytes. The number v stands for the first three. The loop reads two
// words too many of the front, so these are added once more.
pub(crate) fn fold_front(v: u64, s: &[u8]) -> SixWords
    requires { 512 ≤ length s.now }
    ensures { Same (with_rest (value result) s.now 512) (with_rest v s.now 3) }
{
    let mut o = begin(v, s);
    for j in (0..240).step_by(24) {
        o = add_three(o, s, j);
    }
    add_two_words(o.sum, o.before, o.last ^ o.before)
}

// Returns the sum of the rear's first 29 bytes and the front's first 19, 11 and 3.
fn begin(v: u64, s: &[u8]) -> Overlaid
    requires { 512 ≤ length s.now }
    ensures { Overlays s.now v 0 result }
{
    let before = word(s, 3);
    let last = word(s, 11);
    let a = u64::from_be_bytes([0, 0, 0, s[243], s[244], s[245], s[246], s[247]]);
    let b = word(s, 248) ^ v;
    let c = word(s, 256) ^ (before ^ v);
    let d = add_four(word(s, 264), last, before, v);
    Overlaid {
        sum: append_word(append_word(append_word(only_word(a), b), c), d),
        last,
        before,
    }
}

// Adds the next three words of the rear and of each front. One at a time is slower: 512 bytes then take 109 ns in
// place of 88 on an Intel Xeon.
fn add_three(o: Overlaid, s: &[u8], j: usize) -> Overlaid
    requires { j + 296 ≤ length s.now }
    ensures { Extends s.now j 24 o result }
{
    add_word(add_word(add_word(o, s, j), s, j + 8), s, j + 16)
}

// Adds the next word of the rear and of each front.
fn add_word(o: Overlaid, s: &[u8], j: usize) -> Overlaid
    requires { j + 280 ≤ length s.now }
    ensures { Extends s.now j 8 o result }
{
    let last = word(s, j + 19);
    let w = add_four(word(s, j + 272), last, o.last, o.before);
    Overlaid {
        sum: append_word(o.sum, w),
        last,
        before: o.last,
    }
}

// Returns the sum of four words.
fn add_four(a: u64, b: u64, c: u64, d: u64) -> u64
    ensures { result ≡ bit_xor a (bit_xor b (bit_xor c d)) }
{
    a ^ (b ^ (c ^ d))
}
