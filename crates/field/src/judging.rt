// Compares a found field with the computed one.
ghost use Rattle.std.specs.Prelude.{◌≡◌, ◌+◌, ◌*◌, ◌/◌, ◌%◌, ◌≤◌, not, ◌&&◌, ◌==◌};
ghost use Rattle.field.specs.Judging as judging;
ghost use Rattle.field.specs.Judging.{digit, judged};

use crate::bytes::{high_half, low_half};
use crate::{
    Domain, ESCAPE_APPLICATION_TAG, ESCAPE_REFERENCE_TAG, Flag, LOWEST_APPLICATION_BIT,
    LOWEST_GUARD_BIT, Mismatch, ProtectionField, Tag,
};

// True if the found field escapes its block, so that no byte of it is checked. The field is read whole, whatever the
// check mask.
#[tactic(auto, unfolding(crate::specs::Judging::escaped))]
fn escaped(d: Domain, found: ProtectionField) -> bool
    ensures { result ≡ judging.escaped d found }
{
    if found.application != ESCAPE_APPLICATION_TAG {
        return false;
    }
    if crate::has_flag(d, Flag::EscapeByApplication) {
        return true;
    }
    if crate::has_flag(d, Flag::EscapeByBoth) {
        found.reference == ESCAPE_REFERENCE_TAG
    } else {
        false
    }
}

// Returns the set of differing checked bytes, as a mask. Written out, each line shows which bit stands for which byte.
#[tactic(auto, unfolding(crate::specs::Judging::differing, crate::specs::Judging::differs, crate::specs::Judging::mask_of, crate::specs::Fields::bytes_of))]
fn differing(mask: u8, found: ProtectionField, right: ProtectionField) -> u8
    ensures { result ≡ judging.differing mask found right }
{
    let guard = differs_pair(
        mask / 128 % 2 == 1,
        mask / 64 % 2 == 1,
        found.guard,
        right.guard,
    );
    let application = differs_pair(
        mask / 32 % 2 == 1,
        mask / 16 % 2 == 1,
        found.application,
        right.application,
    );
    let high = differs_pair(
        mask / 8 % 2 == 1,
        mask / 4 % 2 == 1,
        high_half(found.reference),
        high_half(right.reference),
    );
    let low = differs_pair(
        mask / 2 % 2 == 1,
        mask / 1 % 2 == 1,
        low_half(found.reference),
        low_half(right.reference),
    );
    guard * 64 + application * 16 + high * 4 + low
}

// Returns which of two checked bytes differ: 2 for the high one, 1 for the low one.
fn differs_pair(high: bool, low: bool, x: u16, y: u16) -> u8
    ensures { (result ≡ digit (high && not (x / 256 == y / 256)) * 2 + digit (low && not (x % 256 == y % 256))) × (result ≤ 3) }
{
    differs_bit(high, x / 256, y / 256) * 2 + differs_bit(low, x % 256, y % 256)
}

// Returns 1 if the byte is checked and differs, else 0.
fn differs_bit(checked: bool, x: u16, y: u16) -> u8
    ensures { (result ≡ digit (checked && not (x == y))) × (result ≤ 1) }
{
    u8::from(checked & (x != y))
}

// Judges the field found after block i, whose data has this guard: returns its first wrong tag, if it has one.
#[tactic(auto, unfolding(crate::specs::Judging::judged))]
pub fn judge(
    d: Domain,
    check_mask: u8,
    i: u64,
    guard: u16,
    found: ProtectionField,
) -> Option<Mismatch>
    ensures { result ≡ judged d check_mask i guard found }
{
    let right = crate::compute_field(d, i, guard);
    first_bad(
        differing(checked_mask(d, check_mask, found), found, right),
        right,
        found,
    )
}

// Returns the mask of the bytes to check: no byte of an escaped block is checked.
#[tactic(auto, unfolding(crate::specs::Judging::checked_mask))]
fn checked_mask(d: Domain, mask: u8, found: ProtectionField) -> u8
    ensures { result ≡ judging.checked_mask d mask found }
{
    if escaped(d, found) { 0 } else { mask }
}

// Returns the first wrong tag with its own differing bytes, given the set of all differing bytes.
#[tactic(auto, unfolding(crate::specs::Judging::first_bad))]
fn first_bad(set: u8, right: ProtectionField, found: ProtectionField) -> Option<Mismatch>
    ensures { result ≡ judging.first_bad set right found }
{
    if set >= LOWEST_GUARD_BIT {
        return Some(Mismatch {
            tag: Tag::Guard,
            actual: right.guard as u32,
            expected: found.guard as u32,
            differing: (set / LOWEST_GUARD_BIT * LOWEST_GUARD_BIT) as u32,
        });
    }
    if set % LOWEST_GUARD_BIT >= LOWEST_APPLICATION_BIT {
        return Some(Mismatch {
            tag: Tag::Application,
            actual: right.application as u32,
            expected: found.application as u32,
            differing: (set % LOWEST_GUARD_BIT / LOWEST_APPLICATION_BIT
                * LOWEST_APPLICATION_BIT) as u32,
        });
    }
    if set % LOWEST_APPLICATION_BIT > 0 {
        return Some(Mismatch {
            tag: Tag::Reference,
            actual: right.reference,
            expected: found.reference,
            differing: (set % LOWEST_APPLICATION_BIT) as u32,
        });
    }
    None
}
