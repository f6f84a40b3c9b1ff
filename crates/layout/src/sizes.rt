// Computes the sizes of a layout, and where its pieces start.
ghost use Rattle.std.specs.Prelude.{◌≡◌, ◌+◌, ◌*◌, ◌≤◌, ◌<◌, ◌^◌};
ghost use Rattle.layout.specs.Pieces as pieces;
ghost use Rattle.layout.specs.Pieces.{entries_max, pieces_max, count_max, piece_of, in_use};

use crate::{Entry, Layout, MemoryOffset};

// Returns the number of bytes of one repeat. A loop shows what `map` and `sum` don't: that no entry adds more than
// `count_max`, which bounds the product in `total`.
pub(crate) fn span(l: Layout) -> u64
    requires { l.used ≤ entries_max }
    ensures { (result ≡ pieces.span (in_use l)) × (result ≤ l.used * count_max) }
{
    if l.used == 1 {
        return l.entries[0].count as u64;
    }
    let list = l;
    let entries = list.in_use();
    let mut sum = 0;
    for e in entries {
        sum += e.count as u64;
    }
    sum
}

// Returns the number of bytes of the layout.
pub fn total(l: Layout) -> u64
    requires { (l.used ≤ entries_max) × (l.used * l.repeat ≤ pieces_max) }
    ensures { result ≡ pieces.total l }
{
    l.repeat as u64 * span(l)
}

// Returns where repeat r of an entry starts.
pub(crate) fn repeat_start(e: Entry, r: u64) -> MemoryOffset
    requires { pieces.piece_end (piece_of r e) < 2 ^ 64 }
    ensures { result ≡ record { 0 = (piece_of r e).start } }
{
    e.start.ahead(r * (e.count as u64 + e.skip as u64))
}
