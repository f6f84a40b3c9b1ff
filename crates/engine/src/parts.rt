// Takes a part of the input stream: bytes that all lie in one block's data or in one field.
ghost use Rattle.std.specs.Prelude.{◌≡◌, ◌+◌, ◌≤◌, length};
ghost use Rattle.std.proofs.lemmas.List.Edits.{sets};
ghost use Rattle.guard.specs.Guards.{part_limit};
ghost use Rattle.field.specs.Fields.{field_bytes};
ghost use Rattle.engine.specs.Inner.Parts.{data_taken, field_taken, Holds};

use crate::{Progress, Rule, sides};
use field::FIELD_SIZE;

impl Rule {
    // Returns the progress after some data bytes of the current block.
    pub(crate) fn take_data(self, p: Progress, part: &[u8]) -> Progress
        requires { (length part.now ≤ part_limit) × (p.input.at ≤ part_limit) × (p.output.at ≤ part_limit) }
        ensures { result ≡ data_taken self p part.now }
    {
        let n = part.len() as u64;
        let checked = sides::advance_if_needed(
            self.input,
            self.checks_guard(),
            p.input.guard,
            part,
        );
        let made = sides::advance_if_needed(self.output, self.makes_guard(), p.output.guard, part);
        let input = sides::side_after(p.input, n, checked);
        let output = sides::side_after(p.output, n, made);
        Progress { input, output, ..p }
    }

    // Returns the progress after some bytes of the current field.
    pub(crate) fn take_field(self, p: Progress, part: &[u8]) -> Progress
        requires { Holds self p (length part.now) }
        ensures { result ≡ field_taken self p part.now }
    {
        let before = p.input;
        let from = before.at - sides::block_size(self.input, self.output);
        let held = hold(p.held, from as usize, part);
        let input = sides::side_after(before, part.len() as u64, before.guard);
        Progress { input, held, ..p }
    }
}

// Returns the held bytes with these stored from an index on. They are stored one by one: `copy_from_slice` becomes a
// call of memmove, which the archive for C would then need from outside.
#[tactic(auto, using(crate::proofs::Held::sets_more, crate::proofs::Held::sets_end))]
fn hold(held: [u8; FIELD_SIZE], from: usize, part: &[u8]) -> [u8; FIELD_SIZE]
    requires { from + length part.now ≤ field_bytes }
    ensures { result ≡ sets held from part.now }
{
    let mut all = held;
    for (i, byte) in part.iter().enumerate() {
        all[from + i] = *byte;
    }
    all
}
