// Tests layouts by the rules of answers 5, 6 and 7, and validates an untrusted layout.
ghost use Rattle.std.specs.Prelude.{◌≡◌, false, ◌*◌, ◌<◌, ◌≤◌, ◌-◌, ◌^◌, min, max, ltb};
ghost use Rattle.layout.specs.Pieces.{entries_max, pieces_max, piece_end, in_use, piece_of, pieces};
ghost use Rattle.layout.specs.Moves.{Within};
ghost use Rattle.layout.specs.Answers as answers;
ghost use Rattle.layout.specs.Inner.Steps as steps;
ghost use Rattle.layout.specs.Inner.Steps.{Counted, Shaped, Spans};

use crate::sizes::repeat_start;
use crate::{ENTRIES_MAX, Entry, Layout, MemoryOffset, PIECES_MAX};

// What is wrong with a layout, in the order of 01's table.
#[derive(Clone, Copy, Debug, PartialEq, Eq)]
pub enum LayoutError {
    // Answer 5: a wrong number of entries, repeats or bytes.
    Malformed,
    // Answer 6: a piece ends beyond the memory.
    Outside,
    // Answer 7: two pieces share a byte.
    Overlapping,
}

// The memory bytes of a piece: from start on, and before end.
#[derive(Clone, Copy)]
struct Extent {
    start: MemoryOffset,
    end: MemoryOffset,
}

// True if a used entry has count 0.
#[tactic(auto, unfolding(crate::specs::Answers::some_count_zero))]
fn has_empty_entry(l: &Layout) -> bool
    requires { l.now.used ≤ entries_max }
    ensures { result ≡ answers.some_count_zero (in_use l.now) }
{
    l.in_use().iter().any(|e| e.count == 0)
}

// True if there are no entries, too many, no repeats, or too many pieces.
#[tactic(auto, using(crate::proofs::AnswerLaws::numbered))]
fn counts_bad(used: u32, repeat: u32) -> bool
    ensures applies { result ≡ answers.counts_bad used repeat }
    ensures counted { result ≡ false → Counted used repeat }
{
    used == 0
        || ENTRIES_MAX < used as usize
        || repeat == 0
        || PIECES_MAX < used as u64 * repeat as u64
}

// True if answer 5 applies.
#[tactic(auto, unfolding(crate::specs::Answers::malformed), using(crate::proofs::AnswerLaws::shaped))]
fn malformed(l: &Layout) -> bool
    ensures applies { result ≡ answers.malformed l.now }
    ensures shaped { result ≡ false → Shaped l.now }
{
    counts_bad(l.used, l.repeat) || has_empty_entry(l)
}

// True if repeat r of an entry ends beyond the memory. The start is tested before anything is added to it, so that no
// sum wraps.
fn ends_beyond(e: Entry, r: u64, memory_length: u64) -> bool
    requires { r < pieces_max }
    ensures { result ≡ ltb memory_length (piece_end (piece_of r e)) }
{
    let start = e.start.0;
    if memory_length < start {
        return true;
    }
    let count = e.count as u64;
    memory_length - start < r * (count + e.skip as u64) + count
}

// True if answer 6 applies. Of each entry the last repeat ends last, so only that one is tested.
fn outside(l: &Layout, memory_length: u64) -> bool
    requires { Shaped l.now }
    ensures applies { result ≡ answers.some_beyond memory_length (pieces l.now) }
    ensures within { result ≡ false → Within (2 ^ 64 - 1) (pieces l.now) }
{
    let last = l.repeat as u64 - 1;
    l.in_use()
        .iter()
        .any(|e| ends_beyond(*e, last, memory_length))
}

// Returns the memory bytes of piece k, which is entry k % used of repeat k / used.
fn extent_of(l: &Layout, k: u64) -> Extent
    requires { (Shaped l.now) × (Within (2 ^ 64 - 1) (pieces l.now)) × (k < l.now.used * l.now.repeat) }
    ensures { Spans l.now k result }
{
    let used = l.used as u64;
    let r = k / used;
    let i = (k % used) as usize;
    let e = l.entries[i];
    let start = repeat_start(e, r);
    Extent {
        start,
        end: start.ahead(e.count as u64),
    }
}

// True if two pieces share a byte. Pieces that only touch share none.
fn share_byte(p: Extent, q: Extent) -> bool
    ensures { result ≡ ltb (max p.start.0 q.start.0) (min p.end.0 q.end.0) }
{
    p.start.0.max(q.start.0) < p.end.0.min(q.end.0)
}

// True if answer 7 applies. The search stops at the first pair of pieces that shares a byte. The loops are nested, and
// the inner one leaves both by their label, as 01 wants it.
fn overlapping(l: &Layout) -> bool
    requires { (Shaped l.now) × (Within (2 ^ 64 - 1) (pieces l.now)) }
    ensures { result ≡ answers.some_share (pieces l.now) }
{
    let n = l.used as u64 * l.repeat as u64;
    let mut met = false;
    'search: for k in 0..n {
        let p = extent_of(l, k);
        for j in k + 1..n {
            if share_byte(p, extent_of(l, j)) {
                met = true;
                break 'search;
            }
        }
    }
    met
}

// True if an entry has bytes and the last of its repeats ends within the memory.
fn entry_fits(e: Entry, repeat: u32, memory_length: u64) -> bool
    requires { (0 < repeat) × (repeat ≤ pieces_max) }
    ensures { result ≡ steps.entry_fits memory_length (repeat - 1) e }
{
    !ends_beyond(e, repeat as u64 - 1, memory_length) && e.count != 0
}

// True if bytes can be moved safely along an untrusted layout in a memory of this length: no answer 5 or 6 applies, and
// the total is no more than the memory. The search for overlaps is left out, because its time grows with the square of
// the number of pieces. One loop makes both tests and the sum: `all` and then a sum took 4 ns longer for 16 entries.
pub fn fits(l: Layout, memory_length: u64) -> bool
    ensures { result ≡ answers.fits l memory_length }
{
    if counts_bad(l.used, l.repeat) {
        return false;
    }
    if l.used == 1 {
        let e = l.entries[0];
        return entry_fits(e, l.repeat, memory_length)
            && l.repeat as u64 * e.count as u64 <= memory_length;
    }
    let list = l;
    let entries = list.in_use();
    let mut span = 0;
    for e in entries {
        if !entry_fits(*e, list.repeat, memory_length) {
            return false;
        }
        span += e.count as u64;
    }
    list.repeat as u64 * span <= memory_length
}

// Judges a layout over a memory of this length by answers 5, 6 and 7.
#[tactic(auto, unfolding(crate::specs::Answers::verdict_on))]
pub fn judge(l: Layout, memory_length: u64) -> Result<(), LayoutError>
    ensures { result ≡ answers.verdict_on l memory_length }
{
    if malformed(&l) {
        return Err(LayoutError::Malformed);
    }
    if outside(&l, memory_length) {
        return Err(LayoutError::Outside);
    }
    if overlapping(&l) {
        return Err(LayoutError::Overlapping);
    }
    Ok(())
}
