// The CRC of T10-DIF (SBC-3; 01, "The protection field"). docs/FOLDING.md explains how it is computed. Numbers stand
// for polynomials over GF(2), so to add is to xor in this crate.

#![tactic(auto)]

mod bytes;
mod overlay;
mod six_words;
mod table;
mod window;
mod words;

ghost use Rattle.std.specs.Prelude.{◌≡◌, ◌≤◌, ◌<◌, length};
ghost use Rattle.crc.specs.Crc.{crc};
ghost use Rattle.crc.specs.Inner.Folding.{with_register};
ghost use Rattle.crc.specs.Inner.Carried.{Heads};

use six_words::SixWords;

// Parts below this length are entered byte by byte. Folded, parts of 8 to 15 bytes took 6 to 10 ns longer on an Intel
// Xeon.
const SHORT: usize = 16;

// Parts below this length are read word by word.
const FRONT_AND_REAR: usize = 512;

// The first 512 bytes of parts below this length are folded at once. From it on all bytes go through a window.
const LONG: usize = 1024;

// Six words that may stand for the register and the first bytes of a part, and the bytes after those.
#[derive(Clone, Copy)]
struct Head<'a> {
    words: SixWords,
    rest: &'a [u8],
}

// Returns the register after these bytes.
pub fn register(start: u16, bytes: &[u8]) -> u16
    ensures { result ≡ crc start bytes.now }
{
    if bytes.len() < SHORT {
        return bytes::enter(start, bytes);
    }
    let head = take_head(start, bytes);
    six_words::finish(head.words, head.rest)
}

// Returns six words for the register and the first 8 bytes, the first 512, or all.
fn take_head(start: u16, bytes: &[u8]) -> Head<'_>
    requires { 8 ≤ length bytes.now }
    ensures { Heads start bytes.now result }
{
    if bytes.len() < FRONT_AND_REAR {
        return Head {
            words: six_words::only_word(first_word(start, bytes)),
            rest: &bytes[8..],
        };
    }
    if bytes.len() < LONG {
        return Head {
            words: overlay::fold_front(first_three(start, bytes), bytes),
            rest: &bytes[512..],
        };
    }
    Head {
        words: window::fold_long(start, bytes),
        rest: &[],
    }
}

// Returns the first eight bytes plus the register times x^48.
fn first_word(start: u16, bytes: &[u8]) -> u64
    requires { 8 ≤ length bytes.now }
    ensures { result ≡ with_register start 8 bytes.now }
{
    words::word(bytes, 0) ^ (u64::from(start) << 48)
}

// Returns the first three bytes plus the register times x^8.
fn first_three(start: u16, bytes: &[u8]) -> u64
    requires { 3 ≤ length bytes.now }
    ensures { result ≡ with_register start 3 bytes.now }
{
    u64::from_be_bytes([0, 0, 0, 0, 0, bytes[0], bytes[1], bytes[2]]) ^ (u64::from(start) << 8)
}
