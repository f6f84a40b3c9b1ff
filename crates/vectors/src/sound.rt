// Walks a layout that judge found sound, and moves its bytes.
ghost use Rattle.std.specs.Prelude.{◌≡◌, ◌<◌, ◌≤◌, Ok};
ghost use Rattle.layout.specs.Pieces as pieces;
ghost use Rattle.layout.specs.Answers.{verdict_on};
ghost use Rattle.layout.specs.Inner.Cursors.{Walked};

use crate::J_MEMORY;
use layout::{Cursor, Layout, LayoutOffset};

// The total of J's layout.
pub(crate) const J_TOTAL: u64 = 1040;

pub(crate) type Memory = [u8; J_MEMORY as usize];

pub(crate) type Bytes = [u8; J_TOTAL as usize];

// A layout that is sound over the memory of case J, and how many bytes it has.
#[derive(Drop)]
pub(crate) struct SoundLayout {
    layout: Layout,
    pub(crate) total: u64,
    ghost sound: { verdict_on layout 1044 ≡ Ok tt },
    ghost all: { total ≡ pieces.total layout },
}

impl SoundLayout {
    // Returns nothing for a layout that judge refuses.
    pub(crate) fn new(l: Layout) -> Option<Self> {
        let Ok(()) = layout::judge(l, J_MEMORY) else {
            return None;
        };
        let total = layout::total(l);
        Some(SoundLayout { layout: l, total })
    }

    // Returns where layout byte x lies.
    pub(crate) fn walk(&self, x: u64) -> Cursor
        requires { x ≤ self.now.total }
        ensures { Walked self.now.layout x result }
    {
        layout::walk(self.layout, LayoutOffset::new(x))
    }

    // Returns the memory byte that is layout byte x.
    fn byte_at(&self, memory: &Memory, x: u64) -> u8
        requires { x < self.now.total }
    {
        let cursor = layout::next_piece_if_spent(self.layout, self.walk(x));
        memory[cursor.place.number() as usize]
    }

    // Reads all bytes of the layout from a memory.
    pub(crate) fn gather(&self, from: &Memory) -> Bytes
        requires { self.now.total ≡ 1040 }
    {
        std::array::from_fn(|x| self.byte_at(from, x as u64))
    }

    // Stores all bytes of the layout in a memory.
    pub(crate) fn scatter(&self, to: &mut Memory, bytes: &Bytes)
        requires { self.now.total ≡ 1040 }
    {
        layout::scatter(self.layout, to, self.walk(0), bytes);
    }
}
