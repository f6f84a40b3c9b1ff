// The protection field: what a domain's rule computes, what a check finds, and what is output (01, "The protection
// field" and "The transfer rule").

#![tactic(auto)]

mod bytes;
mod judging;
mod output_field;

ghost use Rattle.std.specs.Prelude.{◌≡◌, ◌<◌};
ghost use Rattle.field.specs.Domains as domains;
ghost use Rattle.field.specs.Fields as fields;

pub use judging::judge;
pub use output_field::{copy_mask, merge_fields};

// A field has 8 bytes.
pub const FIELD_SIZE: usize = 8;

// The kinds of a domain are 0 (no signature) and 1 (T10-DIF).
pub const T10_DIF: u32 = 1;

// A block size is a multiple of 8 from 8 to 4,160.
pub const BLOCK_SIZE_STEP: u32 = 8;

pub const BLOCK_SIZE_MIN: u32 = 8;

pub const BLOCK_SIZE_MAX: u32 = 4160;

// The guard types are 0 (CRC) and 1 (checksum).
pub const GUARD_TYPE_MAX: u32 = 1;

// A guard starts from seed 0 or from this one.
pub const SEED_ONES: u16 = 0xFFFF;

pub const FLAGS_MAX: u32 = 7;

// The application tag and the reference tag that escape a block.
pub const ESCAPE_APPLICATION_TAG: u16 = 0xFFFF;

const ESCAPE_REFERENCE_TAG: u32 = 0xFFFFFFFF;

// The bits of a mask: bit 7 stands for the field's first byte, bit 0 for its last.
const GUARD_BITS: u8 = 0xC0;

const APPLICATION_BITS: u8 = 0x30;

const REFERENCE_BITS: u8 = 0x0F;

// The lowest bit of each tag but the reference tag's. A mask of that value or more has a bit of the tag or of one
// before it.
pub const LOWEST_GUARD_BIT: u8 = 64;

const LOWEST_APPLICATION_BIT: u8 = 16;

// Reference tags count modulo 2^32.
const REFERENCE_TAGS: u64 = 4294967296;

// The editions of reference tags. Edition 1 counts blocks, edition 2 sectors of 512 bytes.
pub const EDITION_1: u32 = 1;

pub const EDITION_2: u32 = 2;

pub const SECTOR_SIZE: u32 = 512;

// One side of a transfer. A domain of kind 0, as the default, has no signature, and its other numbers are ignored. C
// sees this struct as it is, with any numbers, so kind, guard type, flags and edition are numbers and not enums.
#[repr(C)]
#[derive(Clone, Copy, Debug, Default, PartialEq, Eq)]
pub struct Domain {
    pub kind: u32,
    pub block_size: u32,
    pub guard_type: u32,
    pub reference_tag: u32,
    pub seed: u16,
    pub application_tag: u16,
    pub flags: u32,
    pub edition: u32,
}

// A flag of a domain: the reference tag counts up with each block, the application tag alone escapes a block, or both
// tags together escape one.
#[derive(Clone, Copy, Debug, PartialEq, Eq)]
pub enum Flag {
    Remap,
    EscapeByApplication,
    EscapeByBoth,
}

// The eight bytes after a block, as three numbers.
#[derive(Clone, Copy, Debug, PartialEq, Eq)]
pub struct ProtectionField {
    pub guard: u16,
    pub application: u16,
    pub reference: u32,
}

// One of the three numbers of a field.
#[derive(Clone, Copy, Debug, PartialEq, Eq)]
pub enum Tag {
    Guard,
    Application,
    Reference,
}

// A tag whose found value differs from the computed one. Actual is what the rule computes, expected what was found, and
// differing the mask of the tag's checked bytes in which they differ. It is a u32, because a u8 would leave three more
// bytes of padding in an error slot.
#[derive(Clone, Copy, Debug, PartialEq, Eq)]
pub struct Mismatch {
    pub tag: Tag,
    pub actual: u32,
    pub expected: u32,
    pub differing: u32,
}

// True if the domain has a signature.
pub fn signed(d: Domain) -> bool
    ensures { result ≡ domains.signed d }
{
    d.kind == T10_DIF
}

// True if the domain has this flag.
pub fn has_flag(d: Domain, flag: Flag) -> bool
    ensures { result ≡ domains.has_flag d flag }
{
    let bit = match flag {
        Flag::Remap => 1,
        Flag::EscapeByApplication => 2,
        Flag::EscapeByBoth => 4,
    };
    d.flags / bit % 2 == 1
}

// Returns how much the reference tag grows from one block to the next under remap. It is below 2^23, because a block
// size has 32 bits, so its product with a block's number modulo 2^32 fits 64 bits.
#[tactic(auto, unfolding(crate::specs::Domains::tag_step))]
fn tag_step(d: Domain) -> u64
    ensures { (result ≡ domains.tag_step d) × (result < 8388608) }
{
    if d.edition == EDITION_2 {
        (d.block_size / SECTOR_SIZE) as u64
    } else {
        1
    }
}

// Returns the reference tag of block i of a transfer.
#[tactic(auto, unfolding(crate::specs::Domains::reference_tag), using(crate::proofs::TagLaws::tag_wraps))]
fn reference_tag(d: Domain, i: u64) -> u32
    ensures { result ≡ domains.reference_tag d i }
{
    if has_flag(d, Flag::Remap) {
        let growth = i % REFERENCE_TAGS * tag_step(d) % REFERENCE_TAGS;
        d.reference_tag.wrapping_add(growth as u32)
    } else {
        d.reference_tag
    }
}

// Returns the field that the domain's rule computes for block i, whose data has this guard.
#[tactic(auto, unfolding(crate::specs::Fields::computed_field))]
pub fn compute_field(d: Domain, i: u64, guard: u16) -> ProtectionField
    ensures { result ≡ fields.computed_field d i guard }
{
    ProtectionField {
        guard,
        application: d.application_tag,
        reference: reference_tag(d, i),
    }
}
