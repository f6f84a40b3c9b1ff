// A layout says which memory bytes a transfer runs over, and in what order (01, "Layouts").

#![tactic(auto)]

ghost use Rattle.std.specs.Prelude.{◌≡◌, ◌≤◌};
ghost use Rattle.layout.specs.Pieces as pieces;
ghost use Rattle.layout.specs.Pieces.{entries_max};

mod cursor;
mod layout_rules;
mod moves;
mod offset;
mod sizes;

pub use cursor::{Cursor, forward, next_piece_if_spent, rest_of_piece, walk};
pub use layout_rules::{LayoutError, fits, judge};
pub use moves::scatter;
pub use offset::{LayoutOffset, MemoryOffset};
pub use sizes::total;

// A layout has at most 16 entries, and at most 1,024 pieces (entries times repeats).
pub const ENTRIES_MAX: usize = 16;

const PIECES_MAX: u64 = 1024;

// Repeat r of an entry is the piece of count bytes from start + r * (count + skip) on. C sees entries and layouts as
// they are.
#[repr(C)]
#[derive(Clone, Copy, Debug, PartialEq, Eq)]
pub struct Entry {
    pub start: MemoryOffset,
    pub count: u32,
    pub skip: u32,
}

// The layout's bytes run over the used entries in order, then over their next repeat, and so on. A list layout has
// repeat 1. It has no invariant, because C fills it with any numbers, and `judge` and `fits` take them: each other
// function requires what it needs of them.
#[repr(C)]
#[derive(Clone, Copy, Debug, PartialEq, Eq)]
pub struct Layout {
    pub entries: [Entry; ENTRIES_MAX],
    pub used: u32,
    pub repeat: u32,
}

impl Layout {
    // Returns the used entries. A slice of a layout that was passed by value, as an entry at a varying index, costs a copy
    // of the layout, some 5 ns. So `span`, `fits` and `find_in_repeat` try its only or its first entry before they make
    // that copy, `list`: with slices alone `fits` took 14 ns for one entry, and not 3.
    pub(crate) fn in_use(&self) -> &[Entry]
        requires { self.now.used ≤ entries_max }
        ensures { result.now ≡ pieces.in_use self.now }
    {
        &self.entries[..self.used as usize]
    }
}
