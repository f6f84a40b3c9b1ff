// Tests signatures by the rules of answers 1 to 4 and 20.
ghost use Rattle.std.specs.Prelude.{◌≡◌};
ghost use Rattle.key.specs.Configuring as answers;
ghost use Rattle.key.specs.Keys.{accepts};

use crate::{COPY_MASK_GIVEN, Refusal, Signature};
use field::{
    BLOCK_SIZE_MAX, BLOCK_SIZE_MIN, BLOCK_SIZE_STEP, Domain, EDITION_1, EDITION_2,
    ESCAPE_APPLICATION_TAG, FLAGS_MAX, Flag, GUARD_TYPE_MAX, SECTOR_SIZE, SEED_ONES, T10_DIF,
};

// True if answer 1 applies to this domain.
fn bad_domain(d: Domain) -> bool
    ensures { result ≡ answers.bad_domain d }
{
    let too_small = d.block_size < BLOCK_SIZE_MIN;
    let too_large = BLOCK_SIZE_MAX < d.block_size;
    let size = (d.block_size % BLOCK_SIZE_STEP != 0) | (too_small | too_large);
    let guard = GUARD_TYPE_MAX < d.guard_type;
    let seed = (d.seed != 0) & (d.seed != SEED_ONES);
    let both_escapes = field::has_flag(d, Flag::EscapeByApplication)
        & field::has_flag(d, Flag::EscapeByBoth);
    let flags = (FLAGS_MAX < d.flags) | both_escapes;
    (T10_DIF < d.kind) | (field::signed(d) & (size | (guard | (seed | flags))))
}

// True if answer 20 applies to this domain.
fn bad_edition(d: Domain) -> bool
    ensures { result ≡ answers.bad_edition d }
{
    let unknown = (d.edition != EDITION_1) & (d.edition != EDITION_2);
    let part_sectors = (d.edition == EDITION_2) & (d.block_size % SECTOR_SIZE != 0);
    field::signed(d) & (unknown | part_sectors)
}

// True if answer 2 applies to this domain: a block with its configured application tag could be escaped.
fn escapes_always(d: Domain) -> bool
    ensures { result ≡ answers.escapes_always d }
{
    let escapes = field::has_flag(d, Flag::EscapeByApplication)
        | field::has_flag(d, Flag::EscapeByBoth);
    field::signed(d) & (escapes & (d.application_tag == ESCAPE_APPLICATION_TAG))
}

// True if answer 1 applies to a domain or to the attribute flags.
fn bad_domains(s: Signature) -> bool
    ensures { result ≡ answers.bad_domains s }
{
    bad_domain(s.memory) | (bad_domain(s.wire) | (COPY_MASK_GIVEN < s.attribute_flags))
}

// True if answer 20 applies to a domain. This function and the next name both domains: one that took the test of a domain
// as an argument would be as long.
fn bad_editions(s: Signature) -> bool
    ensures { result ≡ answers.bad_editions s }
{
    bad_edition(s.memory) | bad_edition(s.wire)
}

// True if answer 2 applies to a domain.
fn bad_escape_tags(s: Signature) -> bool
    ensures { result ≡ answers.bad_escape_tags s }
{
    escapes_always(s.memory) | escapes_always(s.wire)
}

// True if both domains have a signature.
fn both_signed(s: Signature) -> bool
    ensures { result ≡ answers.both_signed s }
{
    field::signed(s.memory) & field::signed(s.wire)
}

// True if both domains have one block size.
fn same_size(s: Signature) -> bool
    ensures { result ≡ answers.same_size s }
{
    s.memory.block_size == s.wire.block_size
}

// True if answer 3 applies.
fn bad_copy_mask(s: Signature) -> bool
    ensures { result ≡ answers.bad_copy_mask s }
{
    (s.attribute_flags == COPY_MASK_GIVEN) & !(both_signed(s) & same_size(s))
}

// True if answer 4 applies.
fn unlike_sizes(s: Signature) -> bool
    ensures { result ≡ answers.unlike_sizes s }
{
    both_signed(s) & !same_size(s)
}

// Refuses with the first of answers 1, 20, 2, 3 and 4 that applies.
#[tactic(auto, unfolding(crate::specs::Configuring::signature_answer))]
pub(crate) fn signature_answer(s: Signature) -> Result<(), Refusal>
    ensures { result ≡ answers.signature_answer s }
{
    if bad_domains(s) {
        return Err(Refusal::BadDomain);
    }
    if bad_editions(s) {
        return Err(Refusal::Edition);
    }
    if bad_escape_tags(s) {
        return Err(Refusal::EscapeTag);
    }
    if bad_copy_mask(s) {
        return Err(Refusal::CopyMask);
    }
    if unlike_sizes(s) {
        return Err(Refusal::BlockSizes);
    }
    Ok(())
}

// True if none of answers 1, 20, 2, 3 and 4 applies. A call of the C API tests this of each configured key that it is
// given, alone or in a session. `signature_answer` has another caller, so the compiler would not join it with that
// test: it would copy the signature twice, and packets without signatures would take a tenth longer.
#[tactic(auto, unfolding(crate::specs::Configuring::signature_answer), using(crate::proofs::Laws::accepts_refuse, crate::proofs::Laws::accepts_last))]
pub(crate) fn signature_accepted(s: Signature) -> bool
    ensures { result ≡ accepts (answers.signature_answer s) }
{
    !(bad_domains(s)
        | (bad_editions(s) | (bad_escape_tags(s) | (bad_copy_mask(s) | unlike_sizes(s)))))
}
