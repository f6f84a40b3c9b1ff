// Carries six words that have the remainder of all data so far. A word that is appended pushes one out at the top, and
// that is folded into the two lowest: x^384 has the remainder of x^46 + x^15.
ghost use Rattle.std.specs.Prelude.{◌≡◌, List, ◌∷◌, ℕ, ◌<◌, ◌≤◌, ◌^◌, All};
ghost use Rattle.std.specs.Int.Bits.{bit_xor};
ghost use Rattle.std.specs.List.{concat};
ghost use Rattle.crc.specs.Division.{followed};
ghost use Rattle.crc.specs.Inner.Remainders.{Same};
ghost use Rattle.crc.specs.Inner.Folding.{times_low, times_high, with_word, crc_of};
ghost use Rattle.crc.specs.Inner.Carried.{value};

use crate::bytes;

// 384 bits, the word a the highest. The words are no array, since a step moves each into the next by its name.
#[derive(Clone, Copy)]
pub(crate) struct SixWords {
    a: u64,
    b: u64,
    c: u64,
    d: u64,
    e: u64,
    f: u64,
}

// Returns six words of which the lowest is w and the others are 0.
pub(crate) fn only_word(w: u64) -> SixWords
    ensures { value result ≡ w }
{
    SixWords {
        a: 0,
        b: 0,
        c: 0,
        d: 0,
        e: 0,
        f: w,
    }
}

// Appends a word, and folds the one that leaves at the top.
pub(crate) fn append_word(x: SixWords, w: u64) -> SixWords
    ensures { Same (value result) (with_word (value x) w) }
{
    SixWords {
        a: x.b,
        b: x.c,
        c: x.d,
        d: x.e,
        e: x.f ^ high_product(x.a, &[46, 15]),
        f: w ^ low_product(x.a, &[46, 15]),
    }
}

// Returns the low word of h times the sum of these powers of x.
fn low_product(h: u64, powers: &[u32]) -> u64
    requires { All (λ k. k < 64) powers.now }
    ensures { (k : ℕ) (ks : List ℕ) → powers.now ≡ k ∷ ks → result ≡ times_low k ks h }
{
    let mut sum = 0;
    for &k in powers {
        sum ^= h << k;
    }
    sum
}

// Returns the high word of that product.
fn high_product(h: u64, powers: &[u32]) -> u64
    requires { All (λ k. (0 < k) × (k ≤ 64)) powers.now }
    ensures { (k : ℕ) (ks : List ℕ) → powers.now ≡ k ∷ ks → result ≡ times_high k ks h }
{
    let mut sum = 0;
    for &k in powers {
        sum ^= h >> (64 - k);
    }
    sum
}

// Returns x + q x^64 + p.
pub(crate) fn add_two_words(x: SixWords, q: u64, p: u64) -> SixWords
    ensures { value result ≡ bit_xor (value x) (with_word q p) }
{
    SixWords {
        a: x.a,
        b: x.b,
        c: x.c,
        d: x.d,
        e: x.e ^ q,
        f: x.f ^ p,
    }
}

// Returns the register after the data in x and then these bytes, six words at a time.
pub(crate) fn finish(x: SixWords, s: &[u8]) -> u16
    ensures { result ≡ crc_of (followed 8 (value x) s.now) }
{
    let mut y = x;
    let (sixes, rest) = s.as_chunks();
    for six in sixes {
        y = append_six(y, six);
    }
    finish_words(y, rest)
}

// Appends six words. The compiler unrolls the loop over them, and after them each word is in the variable in which it
// began. One at a time is slower: 511 bytes then take 135 ns in place of 124 on an Intel Xeon.
fn append_six(x: SixWords, six: &[u8; 48]) -> SixWords
    ensures { Same (value result) (followed 8 (value x) six.now) }
{
    let (words, _) = six.as_chunks();
    append_words(x, words)
}

// Appends all of these words.
pub(crate) fn append_words(x: SixWords, words: &[[u8; 8]]) -> SixWords
    ensures { Same (value result) (followed 8 (value x) (concat words.now)) }
{
    let mut y = x;
    for word in words {
        y = append_bytes(y, word);
    }
    y
}

// Appends the word of eight bytes.
fn append_bytes(x: SixWords, word: &[u8; 8]) -> SixWords
    ensures { Same (value result) (followed 8 (value x) word.now) }
{
    append_word(x, u64::from_be_bytes(*word))
}

// Returns the register after the data in x and then these bytes, a word at a time.
fn finish_words(x: SixWords, s: &[u8]) -> u16
    ensures { result ≡ crc_of (followed 8 (value x) s.now) }
{
    let (words, rest) = s.as_chunks();
    finish_bytes(append_words(x, words), rest)
}

// Returns the register after the data in x and then these bytes. It makes five bytes of x and enters all bytes by the
// table.
fn finish_bytes(x: SixWords, s: &[u8]) -> u16
    ensures { result ≡ crc_of (followed 8 (value x) s.now) }
{
    bytes::finish_five(shorten(join_six(x)), s)
}

// Returns one word with the remainder of six.
fn join_six(x: SixWords) -> u64
    ensures { Same result (value x) }
{
    join_two(
        join_two(join_two(join_two(join_two(x.a, x.b), x.c), x.d), x.e),
        x.f,
    )
}

// Returns one word with the remainder of two: x^64 has the remainder of x^28 + x^8 + x. What that product has above
// 64 bits is folded once more.
fn join_two(h: u64, w: u64) -> u64
    ensures { Same result (with_word h w) }
{
    let powers = [28, 8, 1];
    w ^ (low_product(high_product(h, &powers), &powers) ^ low_product(h, &powers))
}

// Returns five bytes with the remainder of eight: x^39 has the remainder of x^15 + x^10 + x^7 + 1. The divisor is 2^39.
fn shorten(w: u64) -> u64
    ensures { (Same result w) × (result < 2 ^ 40) }
{
    low_product(w / 549755813888, &[15, 10, 7, 0]) ^ (w % 549755813888)
}
