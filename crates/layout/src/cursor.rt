// A cursor goes along a layout, piece by piece. Only here does a layout offset become a memory offset.
ghost use Rattle.std.specs.Prelude.{◌≡◌, ◌+◌, ◌-◌, ◌*◌, ◌≤◌, ◌<◌, ◌^◌, length, take, drop};
ghost use Rattle.layout.specs.Pieces.{entries_max, piece_end, in_use, piece_of, pieces, span, total};
ghost use Rattle.layout.specs.Moves.{Placed};
ghost use Rattle.layout.specs.Inner.Cursors as cursors;
ghost use Rattle.layout.specs.Inner.Cursors.{InLayout, Walked, Begins, Readied, ahead, next_piece};

use crate::sizes::repeat_start;
use crate::{Entry, Layout, LayoutOffset, MemoryOffset, sizes};

// A position in the layout: the next byte is the memory byte at `place`, and `left` bytes of its piece follow each
// other from there. The next piece is that of `entry` in `repeat` or, if `entry` is the used count, the first of the
// next repeat. Callers pass the layout beside it, so that it stays four words, and `InLayout` says that the two agree.
#[derive(Clone, Copy, Debug, PartialEq, Eq)]
pub struct Cursor {
    pub place: MemoryOffset,
    pub left: u64,
    pub(crate) entry: usize,
    pub(crate) repeat: u64,
}

// Returns the cursor at byte y of entry i in repeat r.
fn cursor_within(e: Entry, i: usize, r: u64, y: u64) -> Cursor
    requires { (piece_end (piece_of r e) < 2 ^ 64) × (y ≤ e.count) × (i < entries_max) }
    ensures { result ≡ record { place = record { 0 = (piece_of r e).start + y }; left = e.count - y; entry = i + 1; repeat = r } }
{
    Cursor {
        place: repeat_start(e, r).ahead(y),
        left: e.count as u64 - y,
        entry: i + 1,
        repeat: r,
    }
}

// Returns the cursor at byte x of repeat r, or at the end of the repeat. In the first entry it is found without a copy
// of the layout.
fn find_in_repeat(l: Layout, r: u64, x: u64) -> Cursor
    requires { (Placed l (2 ^ 64 - 1)) × (r < l.repeat) × (x ≤ span (in_use l)) }
    ensures { Walked l (r * span (in_use l) + x) result }
{
    if 0 < l.used {
        let e = l.entries[0];
        if x < e.count as u64 {
            return cursor_within(e, 0, r, x);
        }
    }
    let list = l;
    let mut y = x;
    for (i, e) in list.in_use().iter().enumerate() {
        let count = e.count as u64;
        if y < count {
            return cursor_within(*e, i, r, y);
        }
        y -= count;
    }
    Cursor {
        place: MemoryOffset(0),
        left: 0,
        entry: l.used as usize,
        repeat: r,
    }
}

// Returns the cursor at this layout offset, or at the layout's end. A list layout needs no division.
pub fn walk(l: Layout, offset: LayoutOffset) -> Cursor
    requires { (Placed l (2 ^ 64 - 1)) × (offset.0 ≤ total l) }
    ensures { Walked l offset.0 result }
{
    let at = offset.0;
    if l.repeat == 1 {
        return find_in_repeat(l, 0, at);
    }
    let span = sizes::span(l);
    if span == 0 {
        return end_cursor(l);
    }
    let r = at / span;
    if r < l.repeat as u64 {
        return find_in_repeat(l, r, at % span);
    }
    end_cursor(l)
}

// Returns the cursor after all pieces.
fn end_cursor(l: Layout) -> Cursor
    requires { l.used ≤ entries_max }
    ensures { Walked l (total l) result }
{
    Cursor {
        place: MemoryOffset(0),
        left: 0,
        entry: 0,
        repeat: l.repeat as u64,
    }
}

// Returns the cursor at the start of the piece of entry i in repeat r.
fn piece_cursor(l: Layout, i: usize, r: u64) -> Cursor
    requires { (Placed l (2 ^ 64 - 1)) × (r < l.repeat) × (i < l.used) }
    ensures { Begins l (r * l.used + i) result }
{
    cursor_within(l.entries[i], i, r, 0)
}

// Returns the cursor at the start of the next piece.
fn next_piece(l: Layout, c: Cursor) -> Cursor
    requires { (Placed l (2 ^ 64 - 1)) × (InLayout l c) × (next_piece l c < length (pieces l)) }
    ensures { Begins l (next_piece l c) result }
{
    let i = c.entry;
    if i < l.used as usize {
        return piece_cursor(l, i, c.repeat);
    }
    piece_cursor(l, 0, c.repeat + 1)
}

// Returns the cursor itself if bytes of its piece are left, else the start of the next piece that has bytes. The layout
// goes by value from call to call: by reference it would be copied even where no next piece is needed.
pub fn next_piece_if_spent(l: Layout, c: Cursor) -> Cursor
    requires { (Placed l (2 ^ 64 - 1)) × (InLayout l c) × (0 < length (ahead l c)) }
    ensures { Readied l c result }
{
    let mut d = c;
    while d.left == 0 {
        d = next_piece(l, d);
    }
    d
}

// Returns the cursor n bytes further on in its piece.
pub fn forward(c: Cursor, n: u64) -> Cursor
    requires { (n ≤ c.left) × (c.place.0 + c.left < 2 ^ 64) }
    ensures { result ≡ cursors.forward c n }
{
    Cursor {
        place: c.place.ahead(n),
        left: c.left - n,
        ..c
    }
}

// Returns the bytes that are left of the piece.
pub fn rest_of_piece(memory: &[u8], c: Cursor) -> &[u8]
    requires { c.place.0 + c.left ≤ length memory.now }
    ensures { result.now ≡ take c.left (drop c.place.0 memory.now) }
{
    let a = c.place.0 as usize;
    &memory[a..a + c.left as usize]
}
