// Stores bytes along a layout, piece by piece.
ghost use Rattle.std.specs.Prelude.{◌≡◌, ◌≤◌, length};
ghost use Rattle.layout.specs.Moves.{Placed};
ghost use Rattle.layout.specs.Inner.Cursors.{InLayout, Stored, ahead};

use crate::Layout;
use crate::cursor::{Cursor, forward, next_piece_if_spent};

// Copies all bytes to a slice of the same length. `copy_from_slice` becomes a call of memmove, which the archive for C
// would then need from outside. With it an unsigned transfer of 8 MiB in one piece took up to a third longer.
fn copy(to: &mut [u8], from: &[u8])
    requires { length to.old ≡ length from.now }
    ensures { to.new ≡ from.now }
{
    for (i, byte) in from.iter().enumerate() {
        to[i] = *byte;
    }
}

// Stores the bytes at the memory offsets ahead of a cursor, in order, and returns the cursor after them. Where pieces
// overlap, the later byte remains. The lengths of the parts are those of the pieces, so no `chunks` fits.
pub fn scatter(l: Layout, memory: &mut [u8], at: Cursor, bytes: &[u8]) -> Cursor
    requires placed { Placed l (length memory.old) }
    requires in_layout { (InLayout l at) × (length bytes.now ≤ length (ahead l at)) }
    ensures { Stored l at memory.old bytes.now result memory.new }
{
    let mut c = at;
    let mut rest = bytes;
    while !rest.is_empty() {
        c = next_piece_if_spent(l, c);
        let n = c.left.min(rest.len() as u64) as usize;
        let a = c.place.0 as usize;
        copy(&mut memory[a..a + n], &rest[..n]);
        c = forward(c, n as u64);
        rest = &rest[n..];
    }
    c
}
