// Feeds the input stream, part by part.
ghost use Rattle.std.specs.Prelude.{◌≡◌, ◌+◌, ◌≤◌, ◌<◌, length};
ghost use Rattle.engine.specs.Streams.{in_unit};
ghost use Rattle.engine.specs.Positions as positions;
ghost use Rattle.engine.specs.Inner.Parts.{OnePart, Unsigned, InStep, Feedable, Arrives, Feeds};

use crate::sides::{block_size, unit_size};
use crate::{FeedResult, Progress, Rule, sides};
use layout::{Cursor, Layout};

impl Rule {
    // True if both sides are in the same block and at matching offsets, and the current unit is not whole. `feed` always
    // returns such a Progress; one rebuilt from a C struct may not be.
    #[tactic(auto, unfolding(crate::specs::Positions::in_step))]
    pub fn in_step(self, p: Progress) -> bool
        ensures { result ≡ positions.in_step self p }
    {
        let at = p.input.at;
        p.output.index == p.input.index
            && p.output.at == at.min(block_size(self.input, self.output))
            && at < unit_size(self.input, self.output)
    }

    // Returns how many of n bytes belong to the current block's data or to its field.
    fn part_length(self, p: Progress, n: u64) -> u64
        requires { (InStep self p) × (p.input.at < in_unit self) × (0 < n) }
        ensures { (OnePart self p result) × (0 < result) × (result ≤ n) }
    {
        let at = p.input.at;
        let block = block_size(self.input, self.output);
        if at < block {
            return (block - at).min(n);
        }
        (unit_size(self.input, self.output) - at).min(n)
    }

    // Takes a part: stores data at once, and holds field bytes.
    #[tactic(auto, using(crate::proofs::FeedLaws::data_room, crate::proofs::FeedLaws::field_holds, crate::proofs::FeedLaws::arrives_field))]
    fn take_part(
        self,
        p: Progress,
        l: Layout,
        memory: &mut [u8],
        c: Cursor,
        part: &[u8],
    ) -> FeedResult
        requires feedable { Feedable self p l c (length memory.old) part.now }
        requires one_part { (OnePart self p (length part.now)) × (0 < length part.now) }
        ensures { Arrives self p l c memory.old part.now result memory.new }
    {
        let at = p.input.at;
        if at < block_size(self.input, self.output) {
            let cursor = layout::scatter(l, memory, c, part);
            return FeedResult {
                progress: self.take_data(p, part),
                cursor,
            };
        }
        FeedResult {
            progress: self.take_field(p, part),
            cursor: c,
        }
    }

    // Feeds bytes that all lie in one block's data or one field, and closes the unit if they complete it.
    #[tactic(auto, using(crate::proofs::FeedLaws::arrived_room))]
    fn feed_part(
        self,
        p: Progress,
        l: Layout,
        memory: &mut [u8],
        c: Cursor,
        part: &[u8],
    ) -> FeedResult
        requires feedable { Feedable self p l c (length memory.old) part.now }
        requires one_part { (OnePart self p (length part.now)) × (0 < length part.now) }
        ensures { Feeds self p l c memory.old part.now result memory.new }
    {
        let a = self.take_part(p, l, memory, c, part);
        self.settle_if_whole(a.progress, l, memory, a.cursor)
    }

    // Feeds bytes, part by part. No `chunks` fits, since the length of a part follows from the progress.
    #[tactic(auto, using(crate::proofs::FeedLaws::part_asks, crate::proofs::FeedLaws::going_end))]
    fn feed_parts(
        self,
        p: Progress,
        l: Layout,
        memory: &mut [u8],
        c: Cursor,
        bytes: &[u8],
    ) -> FeedResult
        requires { Feedable self p l c (length memory.old) bytes.now }
        ensures { Feeds self p l c memory.old bytes.now result memory.new }
    {
        let mut q = FeedResult {
            progress: p,
            cursor: c,
        };
        let mut rest = bytes;
        while !rest.is_empty() {
            let n = self.part_length(q.progress, rest.len() as u64) as usize;
            q = self.feed_part(q.progress, l, memory, q.cursor, &rest[0..n]);
            rest = &rest[n..];
        }
        q
    }

    // Feeds bytes if neither side is signed: each byte is a unit, and all are stored at once.
    #[tactic(auto, using(crate::proofs::BareLaws::bare_room, crate::proofs::BareLaws::bare_small))]
    fn feed_unsigned(
        self,
        p: Progress,
        l: Layout,
        memory: &mut [u8],
        c: Cursor,
        bytes: &[u8],
    ) -> FeedResult
        requires feedable { Feedable self p l c (length memory.old) bytes.now }
        requires unsigned { Unsigned self }
        ensures { Feeds self p l c memory.old bytes.now result memory.new }
    {
        if bytes.is_empty() {
            return FeedResult {
                progress: p,
                cursor: c,
            };
        }
        let cursor = layout::scatter(l, memory, c, bytes);
        let input = sides::block_start(self.input, p.input.index + bytes.len() as u64);
        let output = sides::block_start(self.output, p.output.index + bytes.len() as u64);
        FeedResult {
            progress: Progress { input, output, ..p },
            cursor,
        }
    }

    // Feeds bytes of the input stream, which may end anywhere, and stores the output bytes that become known from the
    // cursor on. Layout, memory and cursor are parameters here and above: with a struct of the three, a feed of signed
    // blocks took 1 to 9 % longer.
    pub fn feed(
        self,
        p: Progress,
        l: Layout,
        memory: &mut [u8],
        c: Cursor,
        bytes: &[u8],
    ) -> FeedResult
        requires { Feedable self p l c (length memory.old) bytes.now }
        ensures { Feeds self p l c memory.old bytes.now result memory.new }
    {
        if field::signed(self.input) | field::signed(self.output) {
            return self.feed_parts(p, l, memory, c, bytes);
        }
        self.feed_unsigned(p, l, memory, c, bytes)
    }
}
