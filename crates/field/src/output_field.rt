// Makes the output field: finds which bytes are copied, and copies or generates each.
ghost use Rattle.std.specs.Prelude.{◌≡◌, ◌+◌, ◌*◌, ◌/◌, ◌%◌, ◌<◌, ◌≤◌, if◌then◌else◌};
ghost use Rattle.field.specs.Fields.{two_bytes};
ghost use Rattle.field.specs.Output.{agreed, copy_mask, output_field};

use crate::bytes::{be32, high_half, low_half};
use crate::{APPLICATION_BITS, Domain, Flag, GUARD_BITS, ProtectionField, REFERENCE_BITS};

// Returns the mask of the output field bytes that are copied from the input field: the configured mask if an attribute
// flag is set, else the tags in which both domains agree, and nothing if a domain has no signature.
#[tactic(auto, unfolding(crate::specs::Output::copy_mask))]
pub fn copy_mask(attribute_flags: u32, mask: u8, input: Domain, output: Domain) -> u8
    ensures { result ≡ copy_mask attribute_flags mask input output }
{
    if attribute_flags != 0 {
        return mask;
    }
    if crate::signed(input) {
        if crate::signed(output) {
            return agreed_mask(input, output);
        }
    }
    0
}

// Returns the mask of the tags in which both domains agree.
#[tactic(auto, unfolding(crate::specs::Output::agreed))]
fn agreed_mask(a: Domain, b: Domain) -> u8
    ensures { result ≡ agreed a b }
{
    let guard = bits_if(
        (a.guard_type == b.guard_type) & (a.seed == b.seed),
        GUARD_BITS,
    );
    let application = bits_if(a.application_tag == b.application_tag, APPLICATION_BITS);
    let remap = crate::has_flag(a, Flag::Remap) == crate::has_flag(b, Flag::Remap);
    let reference = bits_if(
        (a.reference_tag == b.reference_tag) & (remap & (a.edition == b.edition)),
        REFERENCE_BITS,
    );
    guard + application + reference
}

// Returns the bits, or 0.
fn bits_if(yes: bool, bits: u8) -> u8
    ensures { (result ≡ (if yes then bits else 0)) × (result ≤ bits) }
{
    if yes { bits } else { 0 }
}

// Returns a field whose bytes are copied where the mask's bit is set, and generated elsewhere.
#[tactic(auto, unfolding(crate::specs::Output::output_field, crate::specs::Output::merged, crate::specs::Fields::bytes_of, crate::specs::Fields::field_of))]
pub fn merge_fields(
    mask: u8,
    copied: ProtectionField,
    generated: ProtectionField,
) -> ProtectionField
    ensures { result ≡ output_field mask copied generated }
{
    let high = merge_pair(
        mask / 8 % 2 == 1,
        mask / 4 % 2 == 1,
        high_half(copied.reference),
        high_half(generated.reference),
    );
    let low = merge_pair(
        mask / 2 % 2 == 1,
        mask / 1 % 2 == 1,
        low_half(copied.reference),
        low_half(generated.reference),
    );
    ProtectionField {
        guard: merge_pair(
            mask / 128 % 2 == 1,
            mask / 64 % 2 == 1,
            copied.guard,
            generated.guard,
        ),
        application: merge_pair(
            mask / 32 % 2 == 1,
            mask / 16 % 2 == 1,
            copied.application,
            generated.application,
        ),
        reference: be32(high, low),
    }
}

// Returns two bytes, each copied if its bit is set, else generated.
fn merge_pair(high: bool, low: bool, copied: u16, generated: u16) -> u16
    ensures { result ≡ two_bytes (if high then copied / 256 else generated / 256) (if low then copied % 256 else generated % 256) }
{
    choose_byte(high, copied / 256, generated / 256) * 256
        + choose_byte(low, copied % 256, generated % 256)
}

// Returns the first byte, or the second.
fn choose_byte(first: bool, x: u16, y: u16) -> u16
    requires { (x < 256) × (y < 256) }
    ensures { (result ≡ (if first then x else y)) × (result < 256) }
{
    if first { x } else { y }
}
