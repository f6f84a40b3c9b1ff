// Offsets in the layout and offsets in memory are different kinds of number (01). Their fields are private, so that no
// other crate takes one for the other, and only the walk turns a layout offset into a memory offset. They stay two tuple
// structs, as 01 wants them. A trait for their three methods of one line would be no plainer: it would want a ghost
// number, its laws, two impls, and a `use` in each caller.
ghost use Rattle.std.specs.Prelude.{◌≡◌, ◌+◌, ◌<◌, ◌^◌};

// The number of a layout byte, counted from the layout's first byte.
#[derive(Clone, Copy, Debug, PartialEq, Eq)]
pub struct LayoutOffset(pub(crate) u64);

// The number of a byte of the lent memory. C sees it inside an entry.
#[repr(C)]
#[derive(Clone, Copy, Debug, PartialEq, Eq)]
pub struct MemoryOffset(pub(crate) u64);

impl LayoutOffset {
    pub fn new(n: u64) -> Self
        ensures { result.0 ≡ n }
    {
        LayoutOffset(n)
    }

    pub fn number(self) -> u64
        ensures { result ≡ self.0 }
    {
        self.0
    }

    // Returns the offset n bytes further on.
    pub fn ahead(self, n: u64) -> Self
        requires { self.0 + n < 2 ^ 64 }
        ensures { result.0 ≡ self.0 + n }
    {
        LayoutOffset(self.0 + n)
    }
}

impl MemoryOffset {
    pub fn new(n: u64) -> Self
        ensures { result.0 ≡ n }
    {
        MemoryOffset(n)
    }

    pub fn number(self) -> u64
        ensures { result ≡ self.0 }
    {
        self.0
    }

    // Returns the offset n bytes further on.
    pub(crate) fn ahead(self, n: u64) -> Self
        requires { self.0 + n < 2 ^ 64 }
        ensures { result ≡ record { 0 = self.0 + n } }
    {
        MemoryOffset(self.0 + n)
    }
}
