// A key holds a layout over one lent memory, two domains, masks, and one error slot. The answers are those that 01
// numbers.

#![tactic(auto)]

mod admission;
mod check_call;
mod configure_call;
mod refusal;
mod signature_rules;
mod validate;

ghost use Rattle.std.specs.Prelude.{◌≡◌};
ghost use Rattle.key.specs.Keys.{fresh_key};

pub use admission::stream_length;
use field::Domain;
use layout::{ENTRIES_MAX, Entry, Layout, MemoryOffset};
pub use refusal::{Refusal, number};
use slot::Slot;
pub use validate::fields_valid;

// A lent memory has at most 16,777,216 bytes.
const MEMORY_LIMIT: u64 = 16777216;

// The attribute flag under which the configured copy mask is used.
const COPY_MASK_GIVEN: u32 = 1;

// Both domains, and which field bytes are checked and copied. The card's manual calls this a signature. By default
// neither domain is signed.
#[derive(Clone, Copy, Debug, Default, PartialEq, Eq)]
pub struct Signature {
    pub memory: Domain,
    pub wire: Domain,
    pub attribute_flags: u32,
    pub check_mask: u8,
    pub copy_mask: u8,
}

#[derive(Clone, Copy)]
pub struct Configuration {
    pub signature: Signature,
    pub layout: Layout,
}

// A key that was never configured has numbers beside `configured` too, not an Option of them: a C struct holds them, and
// garoalva_check returns them as they were. `KeyValid` is no invariant of the type: configure, check and the conversion
// from C take keys of which it is false.
#[derive(Clone, Copy)]
pub struct Key {
    pub configured: bool,
    pub memory_length: u64,
    pub layout: Layout,
    pub signature: Signature,
    pub slot: Slot,
}

impl Key {
    // Returns a key that was never configured.
    pub fn fresh() -> Self
        ensures { result ≡ fresh_key }
    {
        let entry = Entry {
            start: MemoryOffset::new(0),
            count: 0,
            skip: 0,
        };
        let layout = Layout {
            entries: [entry; ENTRIES_MAX],
            used: 0,
            repeat: 0,
        };
        Key {
            configured: false,
            memory_length: 0,
            layout,
            signature: Signature::default(),
            slot: None,
        }
    }
}
