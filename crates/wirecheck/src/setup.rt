// Makes the configuration of difcheck: the wire domain of 01's case A, no memory signature, all check bits, and one
// entry over 32,768 bytes of memory.
ghost use Rattle.std.specs.Prelude.{◌≡◌};
ghost use Rattle.wirecheck.specs.Checking as checks;

use field::Domain;
use key::{Configuration, Signature};
use layout::{ENTRIES_MAX, Entry, Layout, MemoryOffset};

fn signature() -> Signature
    ensures { result ≡ checks.signature_a }
{
    Signature {
        memory: Domain::default(),
        wire: Domain {
            kind: 1,
            block_size: 8,
            guard_type: 0,
            reference_tag: 0xFFFFFFFF,
            seed: 0,
            application_tag: 0x1234,
            flags: 1,
            edition: 1,
        },
        attribute_flags: 0,
        check_mask: 0xFF,
        copy_mask: 0,
    }
}

pub(crate) fn configuration() -> Configuration
    ensures { result ≡ checks.configuration_a }
{
    let all = Entry {
        start: MemoryOffset::new(0),
        count: 32768,
        skip: 0,
    };
    let layout = Layout {
        entries: [all; ENTRIES_MAX],
        used: 1,
        repeat: 1,
    };
    Configuration {
        signature: signature(),
        layout,
    }
}
