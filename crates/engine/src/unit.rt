// Closes a whole unit: judges it, stores its output field, and starts the next.
ghost use Rattle.std.specs.Prelude.{◌≡◌, length};
ghost use Rattle.layout.specs.Inner.Cursors.{Stored};
ghost use Rattle.engine.specs.Feeding.{field_made, field_due, next_unit, placed};
ghost use Rattle.engine.specs.Feeding as feeding;
ghost use Rattle.engine.specs.Inner.Parts.{Countable, InStep, Room, Settled};

use crate::sides::unit_size;
use crate::{FeedResult, Progress, Rule, sides};
use field::{FIELD_SIZE, ProtectionField};
use layout::{Cursor, Layout};
use slot::{Error, Slot};

impl Rule {
    // Returns the output field of the current unit: each byte is copied from the held field or generated.
    #[tactic(auto, unfolding(crate::specs::Feeding::field_made))]
    fn make_field(self, p: Progress) -> [u8; FIELD_SIZE]
        ensures { result ≡ field_made self p }
    {
        let held = p.held;
        let output = p.output;
        let made = guard::value(self.output.guard_type, output.guard);
        let generated = field::compute_field(self.output, output.index, made);
        let found = ProtectionField::from_be_bytes(held);
        field::merge_fields(self.copy_mask, found, generated).to_be_bytes()
    }

    // Returns the error of the current unit, if it has one.
    #[tactic(auto, unfolding(crate::specs::Feeding::error_due, crate::specs::Transfers::error_by, crate::specs::Transfers::slot_of))]
    fn unit_error(self, p: Progress) -> Slot
        requires { Countable self p }
        ensures { result ≡ feeding.error_due self p }
    {
        if field::signed(self.input) {
            let held = p.held;
            let input = p.input;
            let guard = guard::value(self.input.guard_type, input.guard);
            let mismatch = field::judge(
                self.input,
                self.check_mask,
                input.index,
                guard,
                ProtectionField::from_be_bytes(held),
            );
            let offset = (input.index * unit_size(self.input, self.output)) as u32;
            mismatch.map(|mismatch| Error { mismatch, offset })
        } else {
            None
        }
    }

    // Returns the progress at the start of the next unit, with the first error kept.
    fn next_unit(self, p: Progress) -> Progress
        requires { Countable self p }
        ensures { result ≡ next_unit self p }
    {
        let slot = p.slot.or(self.unit_error(p));
        let input = sides::block_start(self.input, p.input.index + 1);
        let output = sides::block_start(self.output, p.output.index + 1);
        Progress {
            input,
            output,
            slot,
            ..p
        }
    }

    // Stores the output field of the current unit if the output is signed.
    fn store_field_if_signed(self, p: Progress, l: Layout, memory: &mut [u8], c: Cursor) -> Cursor
        requires { Room self p l c (length memory.old) (length (field_due self p)) }
        ensures { Stored l c memory.old (field_due self p) result memory.new }
    {
        if field::signed(self.output) {
            let bytes = self.make_field(p);
            return layout::scatter(l, memory, c, &bytes);
        }
        c
    }

    // Closes the current unit if it is whole: stores its output field, judges it, and starts the next. Else does nothing.
    #[tactic(auto, using(crate::proofs::PartLaws::countable))]
    pub(crate) fn settle_if_whole(
        self,
        p: Progress,
        l: Layout,
        memory: &mut [u8],
        c: Cursor,
    ) -> FeedResult
        requires in_step { InStep self p }
        requires room { Room self p l c (length memory.old) (length (placed self p)) }
        ensures { Settled self p l c memory.old result memory.new }
    {
        let input = p.input;
        if input.at != unit_size(self.input, self.output) {
            return FeedResult {
                progress: p,
                cursor: c,
            };
        }
        let cursor = self.store_field_if_signed(p, l, memory, c);
        FeedResult {
            progress: self.next_unit(p),
            cursor,
        }
    }
}
