// This module has the two sides of a transfer: their block and unit sizes, and their running guards.
ghost use Rattle.std.specs.Prelude.{◌≡◌, ◌+◌, ◌*◌, ◌≤◌, ◌<◌, ◌^◌, length};
ghost use Rattle.engine.specs.Streams as streams;
ghost use Rattle.engine.specs.Feeding as feeding;
ghost use Rattle.guard.specs.Guards.{part_limit};
ghost use Rattle.field.specs.Fields.{field_bytes};
ghost use Rattle.engine.specs.Positions as positions;
ghost use Rattle.engine.specs.Inner.Parts as inner;
ghost use Rattle.engine.specs.Inner.Parts.{count_limit};

use crate::{Progress, Rule, Side};
use field::{Domain, FIELD_SIZE, LOWEST_GUARD_BIT};
use guard::RunningGuard;

// Returns a domain's block size. A domain without a signature has the other's, or 1 if neither has a signature.
#[tactic(auto, unfolding(crate::specs::Streams::block_size))]
pub(crate) fn block_size(d: Domain, other: Domain) -> u64
    ensures { (result ≡ streams.block_size d other) × (result < 2 ^ 32) }
{
    if field::signed(d) {
        return d.block_size as u64;
    }
    if field::signed(other) {
        return other.block_size as u64;
    }
    1
}

// Returns the size of a unit: a block with its field, or a bare block.
pub(crate) fn unit_size(d: Domain, other: Domain) -> u64
    ensures { (result ≡ streams.unit_size d other) × (result < 2 ^ 33) }
{
    block_size(d, other) + field_size(d)
}

// Returns the size of the field after each block.
#[tactic(auto, unfolding(crate::specs::Streams::field_size))]
fn field_size(d: Domain) -> u64
    ensures { (result ≡ streams.field_size d) × (result ≤ field_bytes) }
{
    if field::signed(d) {
        FIELD_SIZE as u64
    } else {
        0
    }
}

impl Rule {
    // True if the input guard is computed: only if one of its bytes is checked. This test and the next share no more than
    // `signed`: the domain, the mask and what is asked of it all differ.
    #[tactic(auto, unfolding(crate::specs::Feeding::checks_guard))]
    pub(crate) fn checks_guard(self) -> bool
        ensures { result ≡ feeding.checks_guard self }
    {
        field::signed(self.input) && self.check_mask >= LOWEST_GUARD_BIT
    }

    // True if the output guard is computed: only if one of its bytes is generated. Both are copied if both guard bits of
    // the copy mask are set.
    #[tactic(auto, unfolding(crate::specs::Feeding::makes_guard))]
    pub(crate) fn makes_guard(self) -> bool
        ensures { result ≡ feeding.makes_guard self }
    {
        field::signed(self.output) && self.copy_mask / LOWEST_GUARD_BIT % 4 != 3
    }
}

// Returns the position at the start of a block.
pub(crate) fn block_start(d: Domain, index: u64) -> Side
    ensures { result ≡ feeding.side_at d index }
{
    Side {
        index,
        at: 0,
        guard: guard::start(d.seed),
    }
}

// Returns the running guard after a part of its block's data, if it is computed at all. The function takes no side,
// because the compiler would write the whole progress to memory for it.
pub(crate) fn advance_if_needed(
    d: Domain,
    computes: bool,
    guard: RunningGuard,
    part: &[u8],
) -> RunningGuard
    requires { length part.now ≤ part_limit }
    ensures { result ≡ inner.guard_taken d computes guard part.now }
{
    if computes {
        guard::advance(d.guard_type, guard, part)
    } else {
        guard
    }
}

// Returns the side n bytes further into its unit, with this guard.
pub(crate) fn side_after(s: Side, n: u64, guard: RunningGuard) -> Side
    requires { (n ≤ part_limit) × (s.at ≤ part_limit) }
    ensures { result ≡ record { index = s.index; at = s.at + n; guard = guard } }
{
    Side {
        index: s.index,
        at: s.at + n,
        guard,
    }
}

// Returns the number of bytes of a domain's stream before this position.
fn bytes_before(s: Side, d: Domain, other: Domain) -> u64
    requires { s.index * streams.unit_size d other + s.at ≤ count_limit }
    ensures { result ≡ s.index * streams.unit_size d other + s.at }
{
    s.index * unit_size(d, other) + s.at
}

impl Rule {
    // Returns the number of output bytes stored.
    pub fn written(self, p: Progress) -> u64
        requires { positions.written self p ≤ count_limit }
        ensures { result ≡ positions.written self p }
    {
        bytes_before(p.output, self.output, self.input)
    }

    // Returns the number of input bytes taken.
    pub fn taken(self, p: Progress) -> u64
        requires { positions.taken self p ≤ count_limit }
        ensures { result ≡ positions.taken self p }
    {
        bytes_before(p.input, self.input, self.output)
    }
}
