// Folds a long part: all bytes go through a window of 369 bytes. A byte is added to those 338 and 369 bytes after it,
// and is then left out, since x^2952 has the remainder of x^248 + 1. The compiler adds 16 bytes at once.
ghost use Rattle.std.specs.Prelude.{◌≡◌, ◌+◌, ◌≤◌, length};
ghost use Rattle.crc.specs.Division.{followed};
ghost use Rattle.crc.specs.Inner.Remainders.{Same};
ghost use Rattle.crc.specs.Inner.Folding.{with_rest, bytes_at, with_register};
ghost use Rattle.crc.specs.Inner.Carried.{value};
ghost use Rattle.crc.specs.Inner.Windows.{room, window, Entered, Moved, Blank};

use crate::six_words::{SixWords, append_words, only_word};

// The length of the window, 2952 bits.
const WINDOW: usize = 369;

// The window's first 31 bytes, 248 bits, have been added to its last 31 already.
const OVERLAP: usize = 31;

// Where the window's last 31 bytes begin.
const LAST: usize = 338;

// The most bytes that go through the window before it is moved to the start of its buffer.
const STRIDE: usize = 1040;

// The length of the buffer, which holds the window and one stride.
const ROOM: usize = WINDOW + STRIDE;

// Returns six words with the remainder of the register and all bytes.
pub(crate) fn fold_long(start: u16, s: &[u8]) -> SixWords
    requires { 2 ≤ length s.now }
    ensures { Same (value result) (with_rest (with_register start 2 s.now) s.now 2) }
{
    let mut o = [0u8; ROOM];
    fold_in(&mut o, start, s)
}

// Does what `fold_long` does, in a buffer of zeros. It is a function of its own because each goal below would write the
// zeros out.
fn fold_in(o: &mut [u8; ROOM], start: u16, s: &[u8]) -> SixWords
    requires { (Blank o.old) × (2 ≤ length s.now) }
    ensures { Same (value result) (with_rest (with_register start 2 s.now) s.now 2) }
{
    enter_first(o, start, s);
    enter_all(o, &s[2..]);
    add_overlap(o);
    fold_window(o)
}

// Puts the first two bytes, with the register, at the end of an empty window.
fn enter_first(o: &mut [u8; ROOM], start: u16, s: &[u8])
    requires { (Blank o.old) × (2 ≤ length s.now) }
    ensures { window o.new ≡ with_register start 2 s.now }
{
    let [high, low] = start.to_be_bytes();
    o[367] = s[0] ^ high;
    o[368] = s[1] ^ low;
}

// Sends all bytes through the window, which is at the start of the buffer before and after.
fn enter_all(o: &mut [u8; ROOM], s: &[u8])
    ensures { Same (window o.new) (followed 8 (window o.old) s.now) }
{
    for part in s.chunks(STRIDE) {
        enter(o, part);
        move_to_start(o, part.len());
    }
}

// Sends bytes through the window, which moves along by as many bytes.
fn enter(o: &mut [u8; ROOM], s: &[u8])
    requires { length s.now + 369 ≤ room }
    ensures { Entered o.old s.now o.new }
{
    for (i, byte) in s.iter().enumerate() {
        o[i + WINDOW] = byte ^ (o[i + OVERLAP] ^ o[i]);
    }
}

// Moves the window at byte n to the start of the buffer.
fn move_to_start(o: &mut [u8; ROOM], n: usize)
    requires { n + 369 ≤ room }
    ensures { Moved o.old n o.new }
{
    o.copy_within(n..n + WINDOW, 0);
}

// Adds the window's first 31 bytes to its last 31, so that its bytes are what it stands for.
fn add_overlap(o: &mut [u8; ROOM])
    ensures { bytes_at o.new 0 369 ≡ window o.old }
{
    for i in 0..OVERLAP {
        o[i + LAST] ^= o[i];
    }
}

// Returns six words with the remainder of the first 369 bytes: one byte, then 46 words.
fn fold_window(o: &[u8; ROOM]) -> SixWords
    ensures { Same (value result) (bytes_at o.now 0 369) }
{
    let (words, _) = o[1..WINDOW].as_chunks();
    append_words(only_word(u64::from(o[0])), words)
}
