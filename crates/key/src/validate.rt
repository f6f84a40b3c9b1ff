// Validates the fields of an untrusted key.
ghost use Rattle.std.specs.Prelude.{◌≡◌};
ghost use Rattle.key.specs.Keys.{fields_valid};

use crate::signature_rules::signature_accepted;
use crate::{MEMORY_LIMIT, Signature};
use layout::Layout;

// True if a key with these fields meets the precondition of the calls. Every key from the calls does; one rebuilt from
// a C struct may not. The fields are passed one by one, so that a caller need not build a key to test it.
pub fn fields_valid(
    configured: bool,
    memory_length: u64,
    signature: Signature,
    layout: Layout,
) -> bool
    ensures { result ≡ fields_valid configured memory_length signature layout }
{
    if !configured {
        return true;
    }
    if MEMORY_LIMIT < memory_length {
        return false;
    }
    if signature_accepted(signature) {
        return layout::fits(layout, memory_length);
    }
    false
}
